// Entering a month.
ghost use Rattle.std.specs.Prelude.{◌≡◌, ◌<◌, [], ◌∷◌, ◌++◌, List, map, length, None, IfOk, OnErr, MatchOption, MatchResult, IsOk};
ghost use Rattle.fields.specs.Questions.{first_no};
ghost use Rattle.month.specs.Figures.{Figures};
ghost use Rattle.month.specs.Valid.{Valid};
ghost use Rattle.month.specs.View.{figures};
ghost use Rattle.monthfile.specs.Layout.{file_of};
ghost use Rattle.settlement.specs.CorrectionLaws.{Corrects, Rounds};
ghost use Rattle.settlement.specs.Settling.{answered, opening_units, EachSettleable};
ghost use Rattle.book.specs.Account.{Account, account_of, marks_told};
ghost use Rattle.book.specs.Corrected.{EachAnnounced, BookCorrectable};
ghost use Rattle.book.specs.Duties.{duty_asked};
ghost use Rattle.book.specs.Entering.{Entered, AnswersTo, Adds, answer_to};
ghost use Rattle.book.specs.Opening.{OpeningNumbers};
ghost use Rattle.book.specs.Postings.{PostingRefused, posting_asked};
ghost use Rattle.book.specs.Reconciled.{BookReconciled};
ghost use Rattle.book.specs.Tally.{Posting, Posts};
ghost use Rattle.book.specs.declared.kind.PostingKind.TheVariants.{Entry};

use super::{Book, MOST_MONTHS};
use crate::duty::Duty;
use crate::fault::BookFault;
use crate::kind::PostingKind;
use crate::opened::Opened;
use crate::places::of_month;
use bounded::UpTo;
use month::Month;
use schedule::Schedule;
use settlement::{Answer, Mark, Rates, Record, settle};

// The answer to entering the month after those that stand; None where it cannot be settled, as never happens where the months can stand.
fn settle_with<S: Schedule>(
    schedule: &S,
    opened: &Opened,
    months: &[Month],
    billed: &[Rates],
    records: &[Record],
    month: Month,
) -> Option<Answer>
    ensures { length months.now < 36 → length billed.now < 36 → MatchOption result
        (¬ EachSettleable (S.Schedule.meaning schedule.now) (length (opening_units opened.now.terms.balances))
        (map figures months.now ++ figures month ∷ []))
        (λ a. EachSettleable (S.Schedule.meaning schedule.now) (length (opening_units opened.now.terms.balances))
        (map figures months.now ++ figures month ∷ [])
        × (answered a ≡ answer_to (S.Schedule.meaning schedule.now) (account_of opened.now months.now billed.now records.now) (figures month))) }
{
    let months: UpTo<Month, MOST_MONTHS> = UpTo::of_slice_and(months, month)?;
    let billed: UpTo<Rates, MOST_MONTHS> = UpTo::of_slice_and(billed, opened.announced)?;
    settle(
        schedule,
        &opened.terms,
        months.as_slice(),
        billed.as_slice(),
        of_month(records, records.len()),
    )
}

impl<S: Schedule> Book<S> {
    /// Enters the next month by its file. The lent answer then has the rates announced for the month after it, its closing figures and the standing;
    /// the month's filing is due, and the duty is handed out. Refused by questions 1 to 13; book and answer are then as they were.
    pub fn enter(&mut self, file: &[u8], answer: &mut Answer) -> Result<Duty, BookFault>
        ensures schedule { self.new.schedule ≡ self.old.schedule }
        ensures cases { MatchResult result
            (λ duty. Entered (S.Schedule.meaning self.old.schedule) self.old.account self.new.account file.now (answered answer.new) duty)
            (λ e. PostingRefused Entry (S.Schedule.meaning self.old.schedule) self.old.account file.now e) }
        // The file of a valid month, of which questions 12 and 13 are answered yes, is accepted.
        ensures accepts { (m : Figures) → Valid m → file.now ≡ file_of m
            → first_no (posting_asked Entry (S.Schedule.meaning self.old.schedule) self.old.account m) ≡ None → IsOk result }
        ensures refused { OnErr result ((self.new ≡ self.old) × (answer.new ≡ answer.old)) }
        // What a correction does, of each mechanism by what is then announced and told; and how it is rounded.
        ensures corrections { IfOk result (λ _. EachAnnounced Corrects (S.Schedule.meaning self.old.schedule) self.new.account) }
        ensures rounding { IfOk result (λ _. EachAnnounced Rounds (S.Schedule.meaning self.old.schedule) self.new.account) }
        // Filing would not refuse the duty now.
        ensures owed { IfOk result (λ duty. first_no (duty_asked self.new.account duty) ≡ None) }
        // A book that agrees with a tally agrees with it afterwards, with this file counted where it was accepted.
        ensures reconciled { (o : OpeningNumbers) (ps more : List Posting) → BookReconciled (S.Schedule.meaning self.old.schedule) o ps self.old.account
            → MatchResult result
            (λ _. Posts Entry file.now (marks_told self.old.account) (answered answer.new) ps more
            → BookReconciled (S.Schedule.meaning self.old.schedule) o more self.new.account)
            (λ _. BookReconciled (S.Schedule.meaning self.old.schedule) o ps self.new.account) }
    {
        let month = self.admit(PostingKind::Entry, file)?;
        let settled = self.answer_to(&month);
        let duty = self.add(month, &settled);
        *answer = settled;
        Ok(duty)
    }

    // What entering the month would answer; nothing changes.
    fn answer_to(&self, month: &Month) -> Answer
        requires { first_no (posting_asked Entry (S.Schedule.meaning self.now.schedule) self.now.account (figures month.now)) ≡ None }
        ensures { AnswersTo (S.Schedule.meaning self.now.schedule) self.now.account (figures month.now) (answered result) }
    {
        let Some(opened) = self.opened else {
            unreachable()
        };
        let Some(answer) = settle_with(
            &self.schedule,
            &opened,
            self.months.as_slice(),
            self.billed.as_slice(),
            self.records.as_slice(),
            *month,
        ) else {
            unreachable()
        };
        answer
    }

    // Adds the month with its answer, and hands out its duty.
    fn add(&mut self, month: Month, answer: &Answer) -> Duty
        requires { first_no (posting_asked Entry (S.Schedule.meaning self.old.schedule) self.old.account (figures month)) ≡ None }
        ensures schedule { self.new.schedule ≡ self.old.schedule }
        ensures added { Adds self.old.account self.new.account (figures month) (answered answer.now) result }
        ensures owed { first_no (duty_asked self.new.account result) ≡ None }
        ensures correctable { BookCorrectable (S.Schedule.meaning self.old.schedule) self.new.account }
    {
        let Some(opened) = self.opened else {
            unreachable()
        };
        self.months.push_reserved(month);
        self.billed.push_reserved(opened.announced);
        self.records.push_reserved(Record {
            closing: answer.closing,
            mark: Mark::Pending,
            standing: answer.standing,
        });
        self.opened = Some(Opened {
            announced: answer.rates,
            ..opened
        });
        Duty {
            book: opened.number,
            month: month.statement().month,
        }
    }
}
