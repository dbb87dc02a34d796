// Charge 1, transmission.
ghost use Rattle.std.specs.Prelude.{◌≡◌};
ghost use Rattle.month.specs.Amounts.{transmission_cost};
ghost use Rattle.charges.specs.Charges.{transmission};
ghost use Rattle.charges.specs.Formulas.{transmission_divisor, transmission_rate};
ghost use Rattle.std.proofs.Common.{rules};

use crate::average_cost::AverageCost;
use crate::mechanism::Mechanism;
use crate::priced::Priced;
use crate::purchase::Purchase;
use month::Month;

pub type Transmission = AverageCost<TransmissionService>;

impl Transmission {
    /// Formulas 2.A and 8 of Resolution 14.
    pub fn new() -> Transmission
        ensures meaning { ⟦<Transmission as Mechanism>⟧.meaning result ≡ transmission }
        ensures price { ⟦<Transmission as Priced>⟧.price result ≡ transmission_rate }
    {
        AverageCost {
            purchase: TransmissionService,
        }
    }
}

/// The transmission bought, borne by the input but for what is charged no transmission.
#[derive(Clone, Copy)]
pub struct TransmissionService;

impl Purchase for TransmissionService {
    ghost cost = { λ _. transmission_cost };

    ghost divisor = { λ _. transmission_divisor };

    ghost divisor_least = { Prim.search rules };

    fn cost(&self, month: &Month) -> u64 {
        month.transmission_cost()
    }

    fn divisor(&self, month: &Month) -> u64 {
        let statement = month.statement();
        statement.energy.input - statement.exempt.transmission
    }
}
