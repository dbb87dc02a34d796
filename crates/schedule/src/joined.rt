// Two schedules in a row, as one: the numbers of the second go on after those of the first.
ghost use Rattle.std.specs.Prelude.{◌++◌};
ghost use Rattle.schedule.specs.Rows.{MayBeAsked};
ghost use Rattle.schedule.specs.Sides.{Found};
ghost use Rattle.std.proofs.lemmas.List.Elements.{All-append};
ghost use Rattle.charges.specs.Meaning.{Lawful};

use crate::schedule::Schedule;
use month::Month;

#[derive(Drop)]
pub struct Joined<F, S> {
    pub first: F,
    pub second: S,
}

impl<F: Schedule, S: Schedule> Joined<F, S> {
    // A mechanism's number in the second schedule, or None where the first has it.
    fn in_second(&self, number: usize) -> Option<usize>
        ensures { MayBeAsked (F.Schedule.meaning self.now.first ++ S.Schedule.meaning self.now.second) number
            → Found (F.Schedule.meaning self.now.first) (S.Schedule.meaning self.now.second) number result }
    {
        number.checked_sub(self.first.count())
    }
}

// Each question looks for its schedule by itself: the two are of different types, so one helper would take a closure for each.
impl<F: Schedule, S: Schedule> Schedule for Joined<F, S> {
    ghost meaning = { λ s. F.Schedule.meaning s.first ++ S.Schedule.meaning s.second };

    ghost lawful = { λ s. All-append Lawful (F.Schedule.meaning s.first) (S.Schedule.meaning s.second)
        (F.Schedule.lawful s.first) (S.Schedule.lawful s.second) };

    fn count(&self) -> usize {
        (self.first.count() + self.second.count()).min(9)
    }

    fn is_fit(&self, number: usize, month: &Month) -> bool {
        match self.in_second(number) {
            None => self.first.is_fit(number, month),
            Some(n) => self.second.is_fit(n, month),
        }
    }

    fn quantity(&self, number: usize, month: &Month) -> u64 {
        match self.in_second(number) {
            None => self.first.quantity(number, month),
            Some(n) => self.second.quantity(n, month),
        }
    }

    fn assess(&self, number: usize, months: &[Month]) -> (u64, u64) {
        match self.in_second(number) {
            None => self.first.assess(number, months),
            Some(n) => self.second.assess(n, months),
        }
    }
}
