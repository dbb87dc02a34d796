// A schedule of one mechanism, which answers whatever number it is asked for, as its own is 0.
ghost use Rattle.std.specs.Prelude.{[], ◌∷◌};
ghost use Rattle.std.proofs.lemmas.List.Elements.{All-nil, All-cons};
ghost use Rattle.charges.specs.Meaning.{Lawful};

use crate::schedule::Schedule;
use charges::Mechanism;
use month::Month;

#[derive(Drop)]
pub struct Single<M> {
    pub mechanism: M,
}

impl<M: Mechanism> Schedule for Single<M> {
    ghost meaning = { λ s. M.Mechanism.meaning s.mechanism ∷ [] };

    ghost lawful = { λ s. All-cons Lawful (M.Mechanism.meaning s.mechanism) [] (M.Mechanism.lawful s.mechanism) (All-nil Lawful) };

    fn count(&self) -> usize {
        1
    }

    fn is_fit(&self, _number: usize, month: &Month) -> bool {
        self.mechanism.is_fit(month)
    }

    fn quantity(&self, _number: usize, month: &Month) -> u64 {
        self.mechanism.quantity(month)
    }

    fn assess(&self, _number: usize, months: &[Month]) -> (u64, u64) {
        self.mechanism.assess(months)
    }
}
