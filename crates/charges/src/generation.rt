// Charge 0, generation.
ghost use Rattle.std.specs.Prelude.{◌≡◌};
ghost use Rattle.month.specs.Amounts.{generation_cost};
ghost use Rattle.charges.specs.Charges.{generation};
ghost use Rattle.charges.specs.Formulas.{generation_divisor, generation_rate};
ghost use Rattle.std.proofs.Common.{rules};

use crate::average_cost::AverageCost;
use crate::mechanism::Mechanism;
use crate::priced::Priced;
use crate::purchase::Purchase;
use month::Month;

pub type Generation = AverageCost<PowerSupply>;

impl Generation {
    /// Formulas 1 and 7 of Resolution 14.
    pub fn new() -> Generation
        ensures meaning { ⟦<Generation as Mechanism>⟧.meaning result ≡ generation }
        ensures price { ⟦<Generation as Priced>⟧.price result ≡ generation_rate }
    {
        AverageCost {
            purchase: PowerSupply,
        }
    }
}

/// The power bought, borne by the input but for what is charged no generation.
#[derive(Clone, Copy)]
pub struct PowerSupply;

impl Purchase for PowerSupply {
    ghost cost = { λ _. generation_cost };

    ghost divisor = { λ _. generation_divisor };

    ghost divisor_least = { Prim.search rules };

    fn cost(&self, month: &Month) -> u64 {
        month.generation_cost()
    }

    fn divisor(&self, month: &Month) -> u64 {
        let statement = month.statement();
        statement.energy.input - statement.exempt.generation
    }
}
