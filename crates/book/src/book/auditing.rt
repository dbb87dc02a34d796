// What is known of a book whatever was asked of it.
ghost use Rattle.std.specs.Prelude.{List};
ghost use Rattle.book.specs.Facts.{Facts, read_of};
ghost use Rattle.book.specs.Opening.{OpeningNumbers};
ghost use Rattle.book.specs.Reconciled.{BookReconciled};
ghost use Rattle.book.specs.Tally.{Posting};

use super::Book;
use schedule::Schedule;

impl<S: Schedule> Book<S> {
    /// Of a book that agrees with the tally of some postings, as opening and each call after it leave it, the facts hold by that tally. Nothing is
    /// done: the contract says it all.
    pub fn audit(&self)
        ensures { (o : OpeningNumbers) (ps : List Posting) → BookReconciled (S.Schedule.meaning self.now.schedule) o ps self.now.account
            → Facts (S.Schedule.meaning self.now.schedule) o ps (read_of (S.Schedule.meaning self.now.schedule) self.now.account) }
    {
        // A field is read so that the book's invariant is known.
        let _ = &self.schedule;
    }
}
