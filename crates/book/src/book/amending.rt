// Amending a month.
ghost use Rattle.std.specs.Prelude.{◌≡◌, List, None, IfOk, OnErr, MatchResult, IsOk};
ghost use Rattle.fields.specs.Questions.{first_no};
ghost use Rattle.month.specs.Figures.{Figures};
ghost use Rattle.month.specs.Valid.{Valid};
ghost use Rattle.month.specs.View.{figures};
ghost use Rattle.monthfile.specs.Layout.{file_of};
ghost use Rattle.settlement.specs.CorrectionLaws.{Corrects, Rounds};
ghost use Rattle.settlement.specs.Settling.{answered};
ghost use Rattle.book.specs.Account.{marks_told};
ghost use Rattle.book.specs.Amending.{Amended, AmendmentKeepsBook, Replaces, SettlesNow, SomeMonth};
ghost use Rattle.book.specs.Corrected.{EachAnnounced, BookCorrectable};
ghost use Rattle.book.specs.Opening.{OpeningNumbers};
ghost use Rattle.book.specs.Postings.{PostingRefused, posting_asked};
ghost use Rattle.book.specs.Reconciled.{BookReconciled};
ghost use Rattle.book.specs.Tally.{Posting, Posts};
ghost use Rattle.book.specs.declared.kind.PostingKind.TheVariants.{Amendment};

use super::Book;
use crate::fault::BookFault;
use crate::kind::PostingKind;
use crate::opened::Opened;
use crate::places::of_month;
use month::Month;
use schedule::Schedule;
use settlement::{Answer, Record, settle};

impl<S: Schedule> Book<S> {
    /// Puts the file's month in place of the one that stands under its number, which is answered, and settles the months that then stand: the
    /// allowances of later months follow, and the lent answer has the rates announced for the coming month, the last month's closing figures and
    /// the standing. Refused by questions 1 to 13; book and answer are then as they were.
    pub fn amend(&mut self, file: &[u8], answer: &mut Answer) -> Result<u16, BookFault>
        ensures schedule { self.new.schedule ≡ self.old.schedule }
        ensures cases { MatchResult result
            (λ month. Amended (S.Schedule.meaning self.old.schedule) self.old.account self.new.account file.now (answered answer.new) month)
            (λ e. PostingRefused Amendment (S.Schedule.meaning self.old.schedule) self.old.account file.now e) }
        // The file of a valid month, of which questions 12 and 13 are answered yes, is accepted.
        ensures accepts { (m : Figures) → Valid m → file.now ≡ file_of m
            → first_no (posting_asked Amendment (S.Schedule.meaning self.old.schedule) self.old.account m) ≡ None → IsOk result }
        ensures refused { OnErr result ((self.new ≡ self.old) × (answer.new ≡ answer.old)) }
        // What a correction does, of each mechanism by what is then announced and told; and how it is rounded.
        ensures corrections { IfOk result (λ _. EachAnnounced Corrects (S.Schedule.meaning self.old.schedule) self.new.account) }
        ensures rounding { IfOk result (λ _. EachAnnounced Rounds (S.Schedule.meaning self.old.schedule) self.new.account) }
        // Billed rates, marks and the closing figures of earlier months stay.
        ensures keeps { IfOk result (λ month. AmendmentKeepsBook month self.old.account self.new.account) }
        // A book that agrees with a tally agrees with it afterwards, with this file counted where it was accepted.
        ensures reconciled { (o : OpeningNumbers) (ps more : List Posting) → BookReconciled (S.Schedule.meaning self.old.schedule) o ps self.old.account
            → MatchResult result
            (λ _. Posts Amendment file.now (marks_told self.old.account) (answered answer.new) ps more
            → BookReconciled (S.Schedule.meaning self.old.schedule) o more self.new.account)
            (λ _. BookReconciled (S.Schedule.meaning self.old.schedule) o ps self.new.account) }
    {
        let month = self.admit(PostingKind::Amendment, file)?;
        self.replace(month);
        *answer = self.settle_now();
        Ok(month.statement().month)
    }

    // Puts the month in place of the one that stands under its number.
    fn replace(&mut self, month: Month)
        requires { first_no (posting_asked Amendment (S.Schedule.meaning self.old.schedule) self.old.account (figures month)) ≡ None }
        ensures schedule { self.new.schedule ≡ self.old.schedule }
        ensures replaced { Replaces self.old.account self.new.account (figures month) }
    {
        let place = usize::from(month.statement().month) - 1;
        self.months[place] = month;
    }

    // Settles the months as they stand, and carries the answer out: the last month closes with it.
    fn settle_now(&mut self) -> Answer
        requires { SomeMonth self.old.account }
        ensures schedule { self.new.schedule ≡ self.old.schedule }
        ensures settled { SettlesNow (S.Schedule.meaning self.old.schedule) self.old.account self.new.account (answered result) }
        ensures correctable { BookCorrectable (S.Schedule.meaning self.old.schedule) self.new.account }
    {
        let Some(opened) = self.opened else {
            unreachable()
        };
        let last = self.records.len() - 1;
        let Some(answer) = settle(
            &self.schedule,
            &opened.terms,
            self.months.as_slice(),
            self.billed.as_slice(),
            of_month(self.records.as_slice(), last),
        ) else {
            unreachable()
        };
        let Answer {
            rates,
            closing,
            standing,
        } = answer;
        self.records[last] = Record {
            closing,
            standing,
            ..self.records[last]
        };
        self.opened = Some(Opened {
            announced: rates,
            ..opened
        });
        answer
    }
}
