// What a mechanism answers for one month, kept as a value with the law in its type.
ghost use Rattle.std.specs.Prelude.{◌≡◌, MatchOption};
ghost use Rattle.charges.specs.Meaning.{LawfulAnswer};

use crate::limits::{MAX_BASE_RATE, MAX_QUANTITY};
use bounded::Carries;

/// The allowance covers the quantity at the base rate, and would not at one unit more.
#[derive(Clone, Copy)]
pub struct Assessment {
    pub quantity: u64,
    /// The base rate and the allowance, as the mechanism answered them.
    pub answer: (u64, u64),
    ghost lawful: { LawfulAnswer quantity answer },
}

impl Assessment {
    /// None where the answer breaks the law, as no mechanism's does where the months can stand.
    pub fn new(quantity: u64, answer: (u64, u64)) -> Option<Assessment>
        ensures { MatchOption result (¬ LawfulAnswer quantity answer) (λ a. (a.quantity ≡ quantity) × (a.answer ≡ answer)) }
    {
        let (rate, allowance) = answer;
        if !(1..=MAX_QUANTITY).contains(&quantity) || rate > MAX_BASE_RATE {
            return None;
        }
        // What the allowance has above the quantity at the base rate.
        let above = allowance.checked_sub(rate * quantity)?;
        if above >= quantity {
            return None;
        }
        Some(Assessment { quantity, answer })
    }
}

// A quantity of 1, with nothing to recover for it: what fills the unused places of a list.
impl Default for Assessment {
    ghost is_default = { λ a. (a.quantity ≡ 1) × (a.answer ≡ (0, 0)) };

    fn default() -> Assessment {
        Assessment {
            quantity: 1,
            answer: (0, 0),
        }
    }
}

impl Carries<u64> for Assessment {
    ghost use Rattle.charges.specs.Assessed.{allowance_of, allowance_small};

    ghost carried = { allowance_of };

    ghost small = { allowance_small };

    fn figure(&self) -> u64 {
        let (_, allowance) = self.answer;
        allowance
    }
}
