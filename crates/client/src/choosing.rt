// What a client is: whoever chooses the calls of a book.
ghost use Rattle.std.specs.Prelude.{List, Option};
ghost use Rattle.charges.specs.Meaning.{Meaning};
ghost use Rattle.client.specs.Telling.{Told, telling};
ghost use Rattle.client.specs.declared.call.Call.{Call};

use crate::call::Call;
use crate::outcome::Outcome;
use book::Book;
use schedule::Schedule;

/// A client of books over a kind of schedule. It holds the duties that it is handed. It may send what it likes, what will be refused too, and a duty of
/// another book.
pub trait Client<S: Schedule> {
    // How it goes on, from what it was to what it is then, by the row of mechanisms and by what it is told. Any relation will do, so that the
    // client may follow any strategy.
    ghost answers: { Self → List Meaning → Told → Self → Option Call → Type 0 };

    /// The next call, by what the last one came to, and by whatever it reads in the book, which stands as that call left it; None ends the run.
    fn next(&mut self, outcome: Outcome, book: &Book<S>) -> Option<Call>
        ensures { answers self.old (S.Schedule.meaning book.now.schedule) (telling outcome book.now.account) self.new result };
}
