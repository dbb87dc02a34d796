// What an accepted entry or amendment is answered.
ghost use Rattle.std.specs.Prelude.{◌≡◌, [], pos};
ghost use Rattle.settlement.specs.Settling.{answered};
ghost use Rattle.settlement.specs.declared.standing.Standing.TheVariants.{Steady};

use crate::rates::Rates;
use crate::record::Closing;
use crate::standing::Standing;

/// The rates announced for the coming month, the total and the revenue, and the standing.
#[derive(Clone, Copy)]
pub struct Answer {
    pub rates: Rates,
    pub closing: Closing,
    pub standing: Standing,
}

// No rates, nothing outstanding, and steady: a place to lend for an answer.
impl Default for Answer {
    ghost is_default = { λ a. answered a ≡ record { rates = []; closing = record { total = pos 0; revenue = 0 }; standing = Steady } };

    fn default() -> Answer {
        Answer {
            rates: Rates::new(),
            closing: Closing::default(),
            standing: Standing::Steady,
        }
    }
}
