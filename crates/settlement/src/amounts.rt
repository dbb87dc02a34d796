// Amounts that carry their bounds, so that what is worked out from them fits.
ghost use Rattle.std.specs.Prelude.{◌≡◌, ◌<◌, ◌≤◌, pos, negsuc, ◌≤ℤ◌, MatchOption};

// A starting rate goes up to this.
const MAX_STARTING_RATE: u64 = 10_000_000;

// An opening balance is within this, above and below zero.
const MAX_OPENING_BALANCE: i64 = 1_000_000_000_000;

// A correction is spread over up to this many months.
const MAX_SPREAD: u64 = 12;

/// A rate as it is announced and billed, in units per kWh. Below zero where a correction outweighs the base rate.
#[derive(Clone, Copy)]
pub struct Rate {
    pub units: i64,
    ghost least: { negsuc 999999 ≤ℤ units },
    ghost most: { units ≤ℤ pos 11000000 },
}

/// What a mechanism had outstanding when its book was opened, in units.
#[derive(Clone, Copy)]
pub struct OpeningBalance {
    pub units: i64,
    ghost least: { negsuc 999999999999 ≤ℤ units },
    ghost most: { units ≤ℤ pos 1000000000000 },
}

/// How many months a correction is spread over.
#[derive(Clone, Copy)]
pub struct Spread {
    pub months: u64,
    ghost least: { 1 ≤ months },
    ghost most: { months ≤ 12 },
}

impl Rate {
    /// The rate that a book is opened with; None above 10,000,000.
    pub fn starting(units: u64) -> Option<Rate>
        ensures { MatchOption result (10000000 < units) (λ r. (units ≤ 10000000) × (r.units ≡ pos units)) }
    {
        if units > MAX_STARTING_RATE {
            return None;
        }
        Some(Rate {
            units: units as i64,
        })
    }
}

impl OpeningBalance {
    /// None outside ±1,000,000,000,000.
    pub fn new(units: i64) -> Option<OpeningBalance>
        ensures { MatchOption result (¬ ((negsuc 999999999999 ≤ℤ units) × (units ≤ℤ pos 1000000000000))) (λ b. b.units ≡ units) }
    {
        if !(-MAX_OPENING_BALANCE..=MAX_OPENING_BALANCE).contains(&units) {
            return None;
        }
        Some(OpeningBalance { units })
    }
}

impl Spread {
    /// None for 0 and above 12.
    pub fn new(months: u64) -> Option<Spread>
        ensures { MatchOption result (¬ ((1 ≤ months) × (months ≤ 12))) (λ s. s.months ≡ months) }
    {
        if !(1..=MAX_SPREAD).contains(&months) {
            return None;
        }
        Some(Spread { months })
    }
}

// A rate of 0.
impl Default for Rate {
    ghost is_default = { λ r. r.units ≡ pos 0 };

    fn default() -> Rate {
        Rate { units: 0 }
    }
}

// Nothing outstanding.
impl Default for OpeningBalance {
    ghost is_default = { λ b. b.units ≡ pos 0 };

    fn default() -> OpeningBalance {
        OpeningBalance { units: 0 }
    }
}
