// The duty to file a month.
ghost use Rattle.std.specs.Prelude.{◌≡◌};
ghost use Rattle.book.specs.Duties.{book_of, month_of};

use crate::fault::BookFault;

/// Handed out by an accepted entry (Article 3, Section 1). It is neither `Drop`, `Clone` nor `Copy`, so that a program that lets one end
/// unspent, or uses one twice, does not pass the check.
pub struct Duty {
    pub(crate) book: u64,
    pub(crate) month: u16,
}

// How a value ends: one that is `Drop` is let go, and a duty is spent. No two impls may fit one type, so a duty that was `Drop`, as `Clone` and
// `Copy` ask, would not compile.
trait Ends {}

impl<T: Drop> Ends for T {}

impl Ends for Duty {}

impl Duty {
    /// The number of the book that the month was entered in.
    pub fn book(&self) -> u64
        ensures { result ≡ book_of self.now }
    {
        self.book
    }

    pub fn month(&self) -> u16
        ensures { result ≡ month_of self.now }
    {
        self.month
    }
}

/// A duty that was refused, back at its holder.
pub struct ReturnedDuty {
    pub fault: BookFault,
    pub duty: Duty,
}
