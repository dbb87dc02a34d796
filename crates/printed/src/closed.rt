// The book that a run begins with.
ghost use Rattle.std.specs.Prelude.{◌≡◌, IfOk};
ghost use Rattle.printed.specs.Runs.{closed, state_of};

use book::Book;
use schedule::FourCharges;
use std::alloc::{AllocError, Global};

/// A closed book over charges with a cap of 0; an opening frame brings others.
pub fn closed_book(heap: Global) -> Result<Book<FourCharges>, AllocError>
    ensures { IfOk result (λ b. state_of b ≡ closed) }
{
    let Ok(charges) = FourCharges::new(0) else {
        unreachable()
    };
    Ok(Book::new(heap, charges)?)
}
