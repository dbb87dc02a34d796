// Working a frame.
ghost use Rattle.std.specs.Prelude.{◌≡◌, ℕ, Some, OnOk, IfOk, IfErr, IfSome, MatchResult};
ghost use Rattle.book.specs.Account.{marks_told};
ghost use Rattle.book.specs.Duties.{duty_asked, month_of};
ghost use Rattle.book.specs.Reading.{mark_told, NonePending};
ghost use Rattle.book.specs.declared.kind.PostingKind.TheVariants.{Entry, Amendment};
ghost use Rattle.fields.specs.Questions.{first_no};
ghost use Rattle.settlement.specs.Settling.{answered};
ghost use Rattle.settlement.specs.declared.record.Mark.TheVariants.{Filed};
ghost use Rattle.printed.specs.Frames.{framed, given_by};
ghost use Rattle.printed.specs.Journals.{Agrees, CarriesJournal, Continues, Journaled, begun_by};
ghost use Rattle.printed.specs.Runs.{state_of, OpensBy, RefusesOpening, EntersBy, AmendsBy, RefusesPosting, Works, line_of, duty_of, handed_out, once_filed};

use crate::call::Call;
use crate::frame::Frame;
use crate::line::Line;
use crate::opening::OpeningFrame;
use crate::outcome::Outcome;
use book::{Answer, Book, BookFault, Duty};
use fields::Refusal;
use schedule::FourCharges;

// Opens the book over the four charges with the frame's cap: the cap is asked about when they are made, also while the book is open.
fn open(book: &mut Book<FourCharges>, frame: &OpeningFrame) -> Result<(), Refusal>
    ensures cases { MatchResult result
        (λ _. OpensBy (state_of book.old) frame.now.cap (given_by frame.now) (state_of book.new))
        (λ e. RefusesOpening (state_of book.old) frame.now.cap (given_by frame.now) e (state_of book.new)) }
    ensures agrees { OnOk result (Agrees (state_of book.new) (Some (begun_by (given_by frame.now)))) }
{
    let charges = FourCharges::new(frame.cap)?;
    book.open_with(charges, &frame.opening())?;
    Ok(())
}

// Enters the file, and hands out the duty to file the month. A clause that speaks of the state once that is filed has a name that says so.
fn enter(book: &mut Book<FourCharges>, file: &[u8]) -> Result<(Duty, Answer), BookFault>
    ensures entered_once_filed { IfOk result (λ entered. EntersBy (state_of book.old) file.now (month_of entered.0) entered.1
        (once_filed (Some entered.0) (state_of book.new))) }
    ensures refused { IfErr result (λ e. RefusesPosting Entry (state_of book.old) file.now e (state_of book.new)) }
    ensures duty { IfOk result (λ entered. Some entered.0 ≡ handed_out (Line.Entered (month_of entered.0) entered.1) book.new.account) }
    ensures owed { IfOk result (λ entered. first_no (duty_asked book.new.account entered.0) ≡ None) }
    ensures carries_once_filed { IfOk result (λ entered. CarriesJournal (state_of book.old) (once_filed (Some entered.0) (state_of book.new))
        (Continues Entry file.now (marks_told book.old.account) (answered entered.1))) }
{
    let mut answer = Answer::default();
    let duty = book.enter(file, &mut answer)?;
    Ok((duty, answer))
}

// Amends the file's month.
fn amend(book: &mut Book<FourCharges>, file: &[u8]) -> Result<(u16, Answer), BookFault>
    ensures cases { MatchResult result
        (λ amended. AmendsBy (state_of book.old) file.now amended.0 amended.1 (state_of book.new))
        (λ e. RefusesPosting Amendment (state_of book.old) file.now e (state_of book.new)) }
    ensures carries { IfOk result (λ amended. CarriesJournal (state_of book.old) (state_of book.new)
        (Continues Amendment file.now (marks_told book.old.account) (answered amended.1))) }
    ensures none_pending { NonePending book.old.account → NonePending book.new.account }
{
    let mut answer = Answer::default();
    let month = book.amend(file, &mut answer)?;
    Ok((month, answer))
}

/// What the frame asks for is done to the book, or refused. The outcome has the line that tells of it, and with that of an accepted entry the duty to file
/// its month, which is pending until then. A clause that speaks of the state once that duty is filed has a name that says so.
pub fn work(book: &mut Book<FourCharges>, frame: &Frame) -> Outcome
    ensures works_once_filed { Works (state_of book.old) (framed frame.now) (line_of result) (once_filed (duty_of result) (state_of book.new)) }
    ensures duty { duty_of result ≡ handed_out (line_of result) book.new.account }
    // Filing would not refuse the duty now.
    ensures owed { IfSome (duty_of result) (λ duty. first_no (duty_asked book.new.account duty) ≡ None) }
    // The month that is told then has the mark filed.
    ensures marked_once_filed { (month : ℕ) (answer : Answer) → line_of result ≡ Line.Entered month answer
        → mark_told (once_filed (duty_of result) (state_of book.new)).account month ≡ Some Filed }
    // Where no month was pending before, none is then.
    ensures none_pending_once_filed { NonePending book.old.account → NonePending (once_filed (duty_of result) (state_of book.new)).account }
    // A journal that agrees with the book before is carried on by the frame, and then agrees with it.
    ensures journaled_once_filed { CarriesJournal (state_of book.old) (once_filed (duty_of result) (state_of book.new))
        (Journaled (marks_told book.old.account) (framed frame.now) (line_of result)) }
{
    match frame {
        Frame::Opening(frame) => match open(book, frame) {
            Ok(()) => Outcome::told(Line::Opened(frame.number)),
            Err(refusal) => Outcome::told(Line::Refused(Call::Opening, refusal)),
        },
        Frame::Entry(file) => match enter(book, file) {
            Ok((duty, answer)) => Outcome::entered(duty, answer),
            Err(fault) => Outcome::told(Line::Refused(Call::Entry, Refusal::from(fault))),
        },
        Frame::Amendment(file) => match amend(book, file) {
            Ok((month, answer)) => Outcome::told(Line::Amended(month, answer)),
            Err(fault) => Outcome::told(Line::Refused(Call::Amendment, Refusal::from(fault))),
        },
    }
}
