// A schedule of the tests' own: two mechanisms, of which the second answers for every number but 0, also for those that name neither.
ghost use Rattle.std.specs.Prelude.{[], ◌∷◌};
ghost use Rattle.std.proofs.lemmas.List.Elements.{All-nil, All-cons};
ghost use Rattle.charges.specs.Meaning.{Lawful};

use charges::Mechanism;
use month::Month;
use schedule::Schedule;

#[derive(Drop)]
pub(crate) struct Pair<F, S> {
    pub first: F,
    pub second: S,
}

impl<F: Mechanism, S: Mechanism> Schedule for Pair<F, S> {
    ghost meaning = { λ p. F.Mechanism.meaning p.first ∷ S.Mechanism.meaning p.second ∷ [] };

    ghost lawful = { λ p. All-cons Lawful (F.Mechanism.meaning p.first) (S.Mechanism.meaning p.second ∷ []) (F.Mechanism.lawful p.first)
        (All-cons Lawful (S.Mechanism.meaning p.second) [] (S.Mechanism.lawful p.second) (All-nil Lawful)) };

    fn count(&self) -> usize {
        2
    }

    fn is_fit(&self, number: usize, month: &Month) -> bool {
        if number == 0 {
            self.first.is_fit(month)
        } else {
            self.second.is_fit(month)
        }
    }

    fn quantity(&self, number: usize, month: &Month) -> u64 {
        if number == 0 {
            self.first.quantity(month)
        } else {
            self.second.quantity(month)
        }
    }

    fn assess(&self, number: usize, months: &[Month]) -> (u64, u64) {
        if number == 0 {
            self.first.assess(months)
        } else {
            self.second.assess(months)
        }
    }
}
