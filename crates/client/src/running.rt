// A run of calls on a newly opened book.
ghost use Rattle.std.specs.Prelude.{◌≡◌, length, OnErr, MatchResult};
ghost use Rattle.book.specs.Opening.{given, NotOpened};
ghost use Rattle.client.specs.Runs.{Run};

use crate::acting::act;
use crate::choosing::Client;
use crate::outcome::Outcome;
use book::{Book, BookFault, Opening};
use schedule::Schedule;

/// Opens the book, and makes the calls that the client chooses, each by what the one before it came to and what the book then tells: so many, or until
/// the client ends the run.
/// What the last call came to is answered where the client was not told it.
pub fn run<S: Schedule, C: Client<S>>(
    book: &mut Book<S>,
    opening: &Opening,
    client: &mut C,
    most: usize,
) -> Result<Option<Outcome>, BookFault>
    ensures schedule { book.new.schedule ≡ book.old.schedule }
    ensures cases { MatchResult result
        (λ untold. Run C.Client.answers (S.Schedule.meaning book.old.schedule) (given opening.now) most client.old client.new
        untold book.old.account book.new.account)
        (λ e. NotOpened (length (S.Schedule.meaning book.old.schedule)) book.old.account (given opening.now) e) }
    ensures refused { OnErr result ((book.new ≡ book.old) × (client.new ≡ client.old)) }
{
    book.open(opening)?;
    let mut outcome = Outcome::Opened;
    for _ in 0..most {
        // Does nothing; its contract gives the facts of the book that the client is lent.
        book.audit();
        let Some(call) = client.next(outcome, book) else {
            return Ok(None);
        };
        outcome = act(book, call);
    }
    book.audit();
    Ok(Some(outcome))
}
