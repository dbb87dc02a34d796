// Filing a month, and giving its filing up.
ghost use Rattle.std.specs.Prelude.{◌≡◌, ◌↔◌, List, OnOk, OnErr, IsOk, MatchResult};
ghost use Rattle.settlement.specs.declared.record.Mark.TheVariants.{Filed, Missed};
ghost use Rattle.book.specs.Duties.{is_owed, month_of, Owes, Spent, Returned};
ghost use Rattle.book.specs.Opening.{OpeningNumbers};
ghost use Rattle.book.specs.Reading.{MarkSet};
ghost use Rattle.book.specs.Reconciled.{BookReconciled};
ghost use Rattle.book.specs.Tally.{Posting};

use super::Book;
use crate::duty::{Duty, ReturnedDuty};
use crate::fault::BookFault;
use crate::places::of_month;
use schedule::Schedule;
use settlement::{Mark, Record};

impl<S: Schedule> Book<S> {
    /// Spends the duty and marks its month filed; no rate is announced. Refused by question 14: the duty comes back, and the book is as it was.
    pub fn file(&mut self, duty: Duty) -> Result<(), ReturnedDuty>
        ensures schedule { self.new.schedule ≡ self.old.schedule }
        ensures cases { MatchResult result (λ _. Spent self.old.account self.new.account duty Filed) (λ e. Returned self.old.account duty e) }
        // It is accepted exactly where the book owes the duty.
        ensures owed { IsOk result ↔ Owes self.old.account duty }
        ensures marks { OnOk result (MarkSet self.old.account self.new.account (month_of duty) Filed) }
        ensures refused { OnErr result (self.new ≡ self.old) }
        // A book that agrees with a tally agrees with it afterwards: nothing is counted.
        ensures reconciled { (o : OpeningNumbers) (ps : List Posting) → BookReconciled (S.Schedule.meaning self.old.schedule) o ps self.old.account
            → BookReconciled (S.Schedule.meaning self.old.schedule) o ps self.new.account }
    {
        self.spend(duty, Mark::Filed)
    }

    /// Spends the duty and marks its month missed; no rate is announced. Refused as `file` is.
    pub fn give_up(&mut self, duty: Duty) -> Result<(), ReturnedDuty>
        ensures schedule { self.new.schedule ≡ self.old.schedule }
        ensures cases { MatchResult result (λ _. Spent self.old.account self.new.account duty Missed) (λ e. Returned self.old.account duty e) }
        ensures owed { IsOk result ↔ Owes self.old.account duty }
        ensures marks { OnOk result (MarkSet self.old.account self.new.account (month_of duty) Missed) }
        ensures refused { OnErr result (self.new ≡ self.old) }
        // A book that agrees with a tally agrees with it afterwards: nothing is counted.
        ensures reconciled { (o : OpeningNumbers) (ps : List Posting) → BookReconciled (S.Schedule.meaning self.old.schedule) o ps self.old.account
            → BookReconciled (S.Schedule.meaning self.old.schedule) o ps self.new.account }
    {
        self.spend(duty, Mark::Missed)
    }

    // Spends the duty and puts the mark on its month.
    #[tactic(auto, using(crate::proofs::Marks::owed_within))]
    fn spend(&mut self, duty: Duty, mark: Mark) -> Result<(), ReturnedDuty>
        ensures schedule { self.new.schedule ≡ self.old.schedule }
        ensures cases { MatchResult result (λ _. Spent self.old.account self.new.account duty mark) (λ e. Returned self.old.account duty e) }
        ensures refused { OnErr result (self.new ≡ self.old) }
    {
        if !self.owes(&duty) {
            let fault = BookFault::NotPending(duty.month);
            return Err(ReturnedDuty { fault, duty });
        }
        let Duty { book: _, month } = duty;
        let place = usize::from(month) - 1;
        let record = self.records[place];
        self.records[place] = Record { mark, ..record };
        Ok(())
    }

    // Whether the duty is of a book of this number, and its month pending.
    fn owes(&self, duty: &Duty) -> bool
        ensures { result ≡ is_owed self.now.account duty.now }
    {
        let Some(opened) = self.opened else {
            return false;
        };
        let Some(record) = of_month(self.records.as_slice(), usize::from(duty.month)) else {
            return false;
        };
        duty.book == opened.number && record.mark == Mark::Pending
    }
}
