// Energy adds up, number by number, and every month carries its own.
ghost use Rattle.bounded.specs.Sizes.{greatest_of_36};
ghost use Rattle.month.specs.Energies.{no_energy, added, energy_size, stored_energy};
ghost use Rattle.month.specs.View.{figures};
ghost use Rattle.std.proofs.Common.{rules};
ghost use Rattle.month.specs.Validity.{energy_small};

use crate::month::Month;
use crate::parts::Energy;
use bounded::{Adds, Carries};

impl Adds for Energy {
    ghost zero = { no_energy };

    ghost plus = { added };

    ghost size = { energy_size };

    ghost greatest = { greatest_of_36 };

    ghost stored = { stored_energy };

    ghost associative = { Prim.search rules };

    ghost commutative = { Prim.search rules };

    ghost neutral = { Prim.search rules };

    ghost zero_size = { Prim.search rules };

    ghost sum_size = { Prim.search rules };

    ghost exact = { Prim.search rules };

    fn zero() -> Energy {
        Energy::default()
    }

    fn add(self, other: Energy) -> Energy {
        Energy {
            input: self.input.saturating_add(other.input),
            substation: self.substation.saturating_add(other.substation),
            feeder: self.feeder.saturating_add(other.feeder),
        }
    }
}

impl Carries<Energy> for Month {
    ghost carried = { λ m. (figures m).energy };

    ghost small = { energy_small };

    fn figure(&self) -> Energy {
        self.statement().energy
    }
}
