// The four charges of Resolution 14.
ghost use Rattle.std.specs.Prelude.{◌≡◌, ◌≤◌, MatchResult};
ghost use Rattle.charges.specs.Making.{NotMade};
ghost use Rattle.schedule.specs.Four.{four_charges, cap_of};
ghost use Rattle.std.proofs.lemmas.List.Elements.{All-from_recursion};
ghost use Rattle.charges.specs.Meaning.{Lawful};
ghost use Rattle.charges.specs.Laws.{generation_lawful, transmission_lawful, lifeline_lawful};
ghost use Rattle.charges.specs.Losses.{loss_of_both_lawful};

use crate::joined::Joined;
use crate::schedule::Schedule;
use crate::single::Single;
use charges::{CapTooHigh, Generation, Lifeline, Loss, Transmission};
use month::Month;

type Purchases = Joined<Single<Generation>, Single<Transmission>>;

type LossAndLifeline = Joined<Single<Loss<Generation, Transmission>>, Single<Lifeline>>;

/// The schedule of generation, transmission, loss over these two, and lifeline, in this order.
#[derive(Drop)]
pub struct FourCharges {
    row: Joined<Purchases, LossAndLifeline>,
}

impl FourCharges {
    /// The cap on the feeder loss is in hundredths of a percent; one above 5,000 is refused (question 15, place 1).
    pub fn new(cap: u64) -> Result<FourCharges, CapTooHigh>
        ensures { MatchResult result (λ s. (cap ≤ 5000) × (⟦<FourCharges as Schedule>⟧.meaning s ≡ four_charges cap)) (λ e. NotMade cap e) }
    {
        let generation = Generation::new();
        let transmission = Transmission::new();
        let loss = Loss::new(generation, transmission, cap)?;
        let purchases = Joined {
            first: Single {
                mechanism: generation,
            },
            second: Single {
                mechanism: transmission,
            },
        };
        let loss_and_lifeline = Joined {
            first: Single { mechanism: loss },
            second: Single {
                mechanism: Lifeline,
            },
        };
        Ok(FourCharges {
            row: Joined {
                first: purchases,
                second: loss_and_lifeline,
            },
        })
    }
}

impl Schedule for FourCharges {
    ghost meaning = { λ s. four_charges (cap_of s) };

    ghost lawful = { λ s. All-from_recursion Lawful (four_charges (cap_of s))
        (generation_lawful, (transmission_lawful, (loss_of_both_lawful (cap_of s), (lifeline_lawful, tt)))) };

    fn count(&self) -> usize {
        self.row.count()
    }

    fn is_fit(&self, number: usize, month: &Month) -> bool {
        self.row.is_fit(number, month)
    }

    fn quantity(&self, number: usize, month: &Month) -> u64 {
        self.row.quantity(number, month)
    }

    fn assess(&self, number: usize, months: &[Month]) -> (u64, u64) {
        self.row.assess(number, months)
    }
}
