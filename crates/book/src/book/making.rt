// Making a book.
ghost use Rattle.std.specs.Prelude.{◌≡◌, None, MatchResult};

use super::{Book, MOST_MONTHS};
use schedule::Schedule;
use std::alloc::{AllocFailed, Global};

impl<S: Schedule> Book<S> {
    /// A closed book. This is the one call that may lack memory, and then the schedule comes back.
    pub fn new(heap: Global, schedule: S) -> Result<Book<S>, AllocFailed<S>>
        ensures { MatchResult result (λ b. b ≡ record { schedule = schedule; account = None }) (λ e. e.value ≡ schedule) }
    {
        let Ok(months) = Vec::with_capacity(heap, MOST_MONTHS) else {
            return Err(AllocFailed { value: schedule });
        };
        let Ok(billed) = Vec::with_capacity(heap, MOST_MONTHS) else {
            return Err(AllocFailed { value: schedule });
        };
        let Ok(records) = Vec::with_capacity(heap, MOST_MONTHS) else {
            return Err(AllocFailed { value: schedule });
        };
        Ok(Book {
            schedule,
            opened: None,
            months,
            billed,
            records,
        })
    }
}
