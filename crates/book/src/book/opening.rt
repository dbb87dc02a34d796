// Opening a book.
ghost use Rattle.std.specs.Prelude.{◌≡◌, [], length, OnOk, OnErr, MatchResult};
ghost use Rattle.book.specs.Opening.{given, numbers_of, Opens, NotOpened};
ghost use Rattle.book.specs.Reconciled.{BookReconciled};

use super::Book;
use crate::fault::BookFault;
use crate::opened::Opened;
use crate::opening::Opening;
use schedule::Schedule;

impl<S: Schedule> Book<S> {
    /// Opens a closed book; its starting rates are thereby announced. Refused by question 15, at the places 2 to 6, and then the book is as it was.
    pub fn open(&mut self, opening: &Opening) -> Result<(), BookFault>
        ensures schedule { self.new.schedule ≡ self.old.schedule }
        ensures cases { MatchResult result
            (λ _. Opens (length (S.Schedule.meaning self.old.schedule)) self.old.account self.new.account (given opening.now))
            (λ e. NotOpened (length (S.Schedule.meaning self.old.schedule)) self.old.account (given opening.now) e) }
        ensures refused { OnErr result (self.new ≡ self.old) }
        // The book agrees with the tally of no file.
        ensures reconciled { OnOk result (BookReconciled (S.Schedule.meaning self.old.schedule) (numbers_of (given opening.now)) [] self.new.account) }
    {
        let opened = Opened::ask(self.schedule.count(), self.opened.is_none(), opening)?;
        self.opened = Some(opened);
        Ok(())
    }
}

impl<S: Schedule + Drop> Book<S> {
    /// Opens a closed book over the schedule that is handed in. Refused as `open` is, and then the book is as it was, its schedule included.
    pub fn open_with(&mut self, schedule: S, opening: &Opening) -> Result<(), BookFault>
        ensures schedule { OnOk result (self.new.schedule ≡ schedule) }
        ensures cases { MatchResult result
            (λ _. Opens (length (S.Schedule.meaning schedule)) self.old.account self.new.account (given opening.now))
            (λ e. NotOpened (length (S.Schedule.meaning schedule)) self.old.account (given opening.now) e) }
        ensures refused { OnErr result (self.new ≡ self.old) }
        // The book agrees with the tally of no file.
        ensures reconciled { OnOk result (BookReconciled (S.Schedule.meaning schedule) (numbers_of (given opening.now)) [] self.new.account) }
    {
        let opened = Opened::ask(schedule.count(), self.opened.is_none(), opening)?;
        self.schedule = schedule;
        self.opened = Some(opened);
        Ok(())
    }
}
