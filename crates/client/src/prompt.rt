// A client that files each month at once.
ghost use Rattle.std.specs.Prelude.{◌≡◌, [], length, Ok, None, OnErr, MatchResult};
ghost use Rattle.book.specs.Opening.{given, NotOpened};
ghost use Rattle.book.specs.Reading.{NonePending};
ghost use Rattle.client.specs.Prompts.{Prompted};
ghost use Rattle.client.specs.Runs.{Run};

use crate::call::Call;
use crate::choosing::Client;
use crate::outcome::Outcome;
use crate::running::run;
use book::{Book, BookFault, Opening, ReturnedDuty};
use schedule::Schedule;
use std::collections::VecDeque;

/// Enters month files in their order, and files each month before the next is entered. A duty that comes back, as none does in its run, is given up.
#[derive(Drop)]
pub struct Prompt {
    /// Those that are still to be entered.
    pub files: VecDeque<Vec<u8>>,
}

impl<S: Schedule> Client<S> for Prompt {
    ghost answers = { Prompted };

    // It does not read the book.
    fn next(&mut self, outcome: Outcome, _book: &Book<S>) -> Option<Call> {
        match outcome {
            Outcome::Entered(_, _, duty) => Some(Call::File(duty)),
            Outcome::Returned(ReturnedDuty { fault: _, duty }) => Some(Call::GiveUp(duty)),
            Outcome::Opened | Outcome::Amended(_, _, _) | Outcome::Spent | Outcome::Refused(_) => {
                Some(Call::Enter(self.files.pop_front()?))
            }
        }
    }
}

/// The run of a prompt client. Where the client ends it, every file was sent, and no filing is pending.
pub fn run_promptly<S: Schedule>(
    book: &mut Book<S>,
    opening: &Opening,
    client: &mut Prompt,
    most: usize,
) -> Result<Option<Outcome>, BookFault>
    ensures schedule { book.new.schedule ≡ book.old.schedule }
    ensures cases { MatchResult result
        (λ untold. Run Prompted (S.Schedule.meaning book.old.schedule) (given opening.now) most client.old client.new untold book.old.account book.new.account)
        (λ e. NotOpened (length (S.Schedule.meaning book.old.schedule)) book.old.account (given opening.now) e) }
    ensures refused { OnErr result ((book.new ≡ book.old) × (client.new ≡ client.old)) }
    ensures ended { result ≡ Ok None → NonePending book.new.account × (client.new.files.items ≡ []) }
{
    run(book, opening, client, most)
}
