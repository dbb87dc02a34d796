// A run from its beginning.
ghost use Rattle.std.specs.Prelude.{◌≡◌, ℕ, ◌≤◌, List, ◌++◌, None, IfOk, MatchResult};
ghost use Rattle.book.specs.Reading.{NonePending};
ghost use Rattle.printed.specs.Journals.{LacksRoomWith, PrintedWith, RunFacts};
ghost use Rattle.printed.specs.Lines.{written, room};
ghost use Rattle.printed.specs.Runs.{State, closed, state_of, Printed};

use crate::closed::closed_book;
use crate::lines::Lines;
use crate::run::write_run;
use book::Book;
use schedule::FourCharges;
use std::alloc::{AllocError, Global};
use std::marker::Model;

/// A book that no frame was worked on, so that it is closed.
#[derive(Drop)]
pub struct NewBook {
    book: Book<FourCharges>,
}

impl Model for NewBook {
    ghost use Rattle.std.specs.Prelude.{◌≡◌};
    ghost use Rattle.book.specs.Account.{BookState};
    ghost use Rattle.schedule.specs.declared.four.FourCharges.{FourCharges};
    ghost use Rattle.printed.specs.Runs.{closed, state_of};

    ghost Value = { BookState FourCharges };

    ghost view = { λ b. b.book };

    ghost invariant = { λ b. state_of b.book ≡ closed };
}

impl NewBook {
    /// A closed book over the four charges; it takes the memory for 36 months.
    pub fn new(heap: Global) -> Result<NewBook, AllocError>
        ensures { IfOk result (λ b. state_of b ≡ closed) }
    {
        Ok(NewBook {
            book: closed_book(heap)?,
        })
    }

    /// The run of this book, as `write_run` has it; the book that it leaves is handed back.
    pub fn run(self, input: &[u8], output: &mut Lines) -> Result<Book<FourCharges>, AllocError>
        // The output is that of a run, and the facts hold of the book by the journal of its exchanges. Where memory lacks the run broke off, and the
        // same holds of its exchanges.
        ensures cases { MatchResult result
            (λ book. PrintedWith (RunFacts None) closed input.now (written output.old) (written output.new) (state_of book))
            (λ _. (after : State) × LacksRoomWith (RunFacts None) closed input.now (room output.new) (written output.old) (written output.new) after) }
        ensures capacity { room output.old ≤ room output.new }
        // No other output is that of a run, and no other state is left by it. Where memory lacks, the output is a beginning of that one.
        ensures once { (out : List ℕ) (after : State) → Printed closed input.now (written output.old) out after
            → MatchResult result (λ book. (written output.new ≡ out) × (state_of book ≡ after)) (λ _. (later : List ℕ) × (out ≡ written output.new ++ later)) }
        ensures none_pending { IfOk result (λ book. NonePending book.account) }
    {
        let NewBook { mut book } = self;
        write_run(&mut book, input, output)?;
        Ok(book)
    }
}
