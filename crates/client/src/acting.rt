// Making one call.
ghost use Rattle.std.specs.Prelude.{◌≡◌, List, MatchResult};
ghost use Rattle.book.specs.Opening.{OpeningNumbers};
ghost use Rattle.book.specs.Reconciled.{BookReconciled};
ghost use Rattle.book.specs.Tally.{Posting};
ghost use Rattle.client.specs.declared.outcome.Outcome.TheVariants.{Spent, Returned};
ghost use Rattle.client.specs.Acting.{Acted, EntryActed, AmendmentActed, Noted, EntryNoted, AmendmentNoted};

use crate::call::Call;
use crate::outcome::Outcome;
use book::{Answer, Book, ReturnedDuty};
use schedule::Schedule;

/// Makes the call, and tells what it came to.
pub fn act<S: Schedule>(book: &mut Book<S>, call: Call) -> Outcome
    ensures schedule { book.new.schedule ≡ book.old.schedule }
    ensures acted { Acted (S.Schedule.meaning book.old.schedule) book.old.account call result book.new.account }
    // A book that agrees with the tally of some postings agrees with it afterwards, with this call among them where its file was accepted.
    ensures reconciled { (o : OpeningNumbers) (before after : List Posting) → BookReconciled (S.Schedule.meaning book.old.schedule) o before book.old.account
        → Noted call result before after → BookReconciled (S.Schedule.meaning book.old.schedule) o after book.new.account }
{
    match call {
        Call::Enter(file) => enter(book, &file),
        Call::Amend(file) => amend(book, &file),
        Call::File(duty) => spent(book.file(duty)),
        Call::GiveUp(duty) => spent(book.give_up(duty)),
    }
}

fn spent(answer: Result<(), ReturnedDuty>) -> Outcome
    ensures { MatchResult answer (λ _. result ≡ Spent) (λ returned. result ≡ Returned returned) }
{
    match answer {
        Ok(()) => Outcome::Spent,
        Err(returned) => Outcome::Returned(returned),
    }
}

fn enter<S: Schedule>(book: &mut Book<S>, file: &[u8]) -> Outcome
    ensures schedule { book.new.schedule ≡ book.old.schedule }
    ensures acted { EntryActed (S.Schedule.meaning book.old.schedule) book.old.account file.now result book.new.account }
    ensures reconciled { (o : OpeningNumbers) (before after : List Posting) → BookReconciled (S.Schedule.meaning book.old.schedule) o before book.old.account
        → EntryNoted file.now result before after → BookReconciled (S.Schedule.meaning book.old.schedule) o after book.new.account }
{
    let marks = book.marks();
    let mut answer = Answer::default();
    match book.enter(file, &mut answer) {
        Ok(duty) => Outcome::Entered(marks, answer, duty),
        Err(fault) => Outcome::Refused(fault),
    }
}

fn amend<S: Schedule>(book: &mut Book<S>, file: &[u8]) -> Outcome
    ensures schedule { book.new.schedule ≡ book.old.schedule }
    ensures acted { AmendmentActed (S.Schedule.meaning book.old.schedule) book.old.account file.now result book.new.account }
    ensures reconciled { (o : OpeningNumbers) (before after : List Posting) → BookReconciled (S.Schedule.meaning book.old.schedule) o before book.old.account
        → AmendmentNoted file.now result before after → BookReconciled (S.Schedule.meaning book.old.schedule) o after book.new.account }
{
    let marks = book.marks();
    let mut answer = Answer::default();
    match book.amend(file, &mut answer) {
        Ok(month) => Outcome::Amended(marks, answer, month),
        Err(fault) => Outcome::Refused(fault),
    }
}
