// A mechanism of the tests' own whose rate grows with the months that stand.
ghost use Rattle.examples.specs.GrowingFees.{growing_fee, growing_fee_lawful};

use charges::Mechanism;
use month::Month;

/// 250,000 units per kWh sold for each month that stands.
#[derive(Clone, Copy)]
pub(crate) struct GrowingFee;

impl Mechanism for GrowingFee {
    ghost meaning = { λ _. growing_fee };

    ghost lawful = { λ _. growing_fee_lawful };

    fn is_fit(&self, _month: &Month) -> bool {
        true
    }

    fn quantity(&self, month: &Month) -> u64 {
        month.sales()
    }

    #[tactic(auto, using(crate::proofs::GrowingFees::growing_answer))]
    fn assess(&self, months: &[Month]) -> (u64, u64) {
        let Some(month) = months.last() else {
            return (0, 0);
        };
        // From 100 on it grows no more, so that the product fits 64 bits.
        let rate = 250_000 * months.len().min(100) as u64;
        (rate, rate * month.sales())
    }
}
