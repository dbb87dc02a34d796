// Charge 2, system loss: the energy lost, at the prices of any two priced mechanisms.
ghost use Rattle.std.specs.Prelude.{◌≡◌, ◌<◌, ◌≤◌, map, length, IfOk, MatchResult};
ghost use Rattle.month.specs.View.{figures};
ghost use Rattle.charges.specs.Charges.{loss};
ghost use Rattle.charges.specs.Formulas.{gross_up, twelve_months};
ghost use Rattle.charges.specs.Losses.{loss_lawful};
ghost use Rattle.charges.specs.Making.{Made, NotMade};
ghost use Rattle.charges.specs.Meaning.{with_price};

use crate::average_cost::averaged;
use crate::cap::{Cap, CapTooHigh};
use crate::mechanism::Mechanism;
use crate::priced::Priced;
use crate::recent::recent_energy;
use month::Month;

/// The two mechanisms whose prices are charged for what is lost, named for those of the resolution, and the cap on the feeder loss.
#[derive(Drop)]
pub struct Loss<G, T> {
    generation: G,
    transmission: T,
    cap: Cap,
}

impl<G: Priced, T: Priced> Loss<G, T> {
    /// The cap on the feeder loss is in hundredths of a percent; one above 5,000 is refused (question 15, place 1).
    pub fn new(generation: G, transmission: T, cap: u64) -> Result<Loss<G, T>, CapTooHigh>
    where
        G: Drop,
        T: Drop,
        ensures cases { MatchResult result (λ l. Made generation transmission cap l) (λ e. NotMade cap e) }
        ensures meaning { IfOk result (λ l. ⟦<Loss<G, T> as Mechanism>⟧.meaning l
            ≡ loss (with_price (G.Mechanism.meaning generation) (G.Priced.price generation))
            (with_price (T.Mechanism.meaning transmission) (T.Priced.price transmission)) cap) }
    {
        let cap = Cap::try_from(cap)?;
        Ok(Loss {
            generation,
            transmission,
            cap,
        })
    }
}

// U, the gross-up factor of the latest twelve months, in ten-thousandths.
fn gross_up(cap: Cap, months: &[Month]) -> u64
    requires { 0 < length months.now }
    ensures is { result ≡ gross_up cap.hundredths (twelve_months (map figures months.now)) }
    ensures most { result ≤ 10000 }
{
    let energy = recent_energy(months);
    let feeder = (10_000 * energy.feeder).min(cap.hundredths * energy.input);
    (10_000 * energy.substation + feeder) / (energy.input - energy.substation - energy.feeder)
}

impl<G: Priced, T: Priced> Mechanism for Loss<G, T> {
    ghost meaning = { λ s. loss (with_price (G.Mechanism.meaning s.generation) (G.Priced.price s.generation))
        (with_price (T.Mechanism.meaning s.transmission) (T.Priced.price s.transmission)) s.cap.hundredths };

    ghost lawful = { λ s. loss_lawful (with_price (G.Mechanism.meaning s.generation) (G.Priced.price s.generation))
        (with_price (T.Mechanism.meaning s.transmission) (T.Priced.price s.transmission))
        (G.Priced.priced s.generation) (T.Priced.priced s.transmission) s.cap.hundredths };

    fn is_fit(&self, month: &Month) -> bool {
        self.generation.is_fit(month) && self.transmission.is_fit(month)
    }

    fn quantity(&self, month: &Month) -> u64 {
        month.sales()
    }

    #[tactic(auto, using(crate::specs::Last::with_last, crate::proofs::Sold::loss_fits))]
    fn assess(&self, months: &[Month]) -> (u64, u64) {
        let Some(month) = months.last() else {
            return (0, 0);
        };
        // Only a fit month's prices have a limit, so the products of another may not fit 64 bits.
        if !self.is_fit(month) {
            return (0, 0);
        }
        let prices = self.generation.price(month) + self.transmission.price(month);
        let cost = prices * gross_up(self.cap, months);
        averaged(cost, 10_000, self.quantity(month))
    }
}
