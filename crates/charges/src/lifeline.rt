// Charge 3, the lifeline subsidy: what lifeline customers are let off falls on the others' kWh.
ghost use Rattle.charges.specs.Charges.{lifeline};
ghost use Rattle.charges.specs.Laws.{lifeline_lawful};

use crate::limits::MAX_FIT_RATE;
use crate::mechanism::Mechanism;
use month::Month;

#[derive(Clone, Copy)]
pub struct Lifeline;

impl Mechanism for Lifeline {
    ghost meaning = { λ _. lifeline };

    ghost lawful = { λ _. lifeline_lawful };

    fn is_fit(&self, month: &Month) -> bool {
        month.lifeline_discount() / self.quantity(month) <= MAX_FIT_RATE
    }

    fn quantity(&self, month: &Month) -> u64 {
        month.statement().sales.nonlifeline
    }

    #[tactic(auto, using(crate::specs::Last::with_last))]
    fn assess(&self, months: &[Month]) -> (u64, u64) {
        let Some(month) = months.last() else {
            return (0, 0);
        };
        let discount = month.lifeline_discount();
        (discount / self.quantity(month), discount)
    }
}
