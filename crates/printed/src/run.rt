// The whole run.
ghost use Rattle.std.specs.Prelude.{◌≡◌, ℕ, ◌≤◌, List, ◌++◌, Option, None, IfSome, MatchResult};
ghost use Rattle.book.specs.Duties.{duty_asked};
ghost use Rattle.book.specs.Reading.{NonePending};
ghost use Rattle.fields.specs.Questions.{first_no};
ghost use Rattle.printed.specs.Journals.{Agrees, CarriesJournalAll, Journal, LacksRoomWith, PrintedWith, RunFacts};
ghost use Rattle.printed.specs.Lines.{written, room};
ghost use Rattle.printed.specs.Runs.{State, state_of, once_filed, Printed, LacksRoom};

use crate::frames::Frames;
use crate::line::Line;
use crate::lines::Lines;
use crate::working::work;
use book::{Book, Duty};
use schedule::FourCharges;
use std::alloc::AllocError;

// Files the month of a duty that was handed out.
fn file(book: &mut Book<FourCharges>, duty: Option<Duty>)
    requires { IfSome duty (λ duty. first_no (duty_asked book.old.account duty) ≡ None) }
    ensures { state_of book.new ≡ once_filed duty (state_of book.old) }
{
    let Some(duty) = duty else {
        return;
    };
    match book.file(duty) {
        Ok(()) => {}
        // It is owed.
        Err(_returned) => unreachable(),
    }
}

// The run, by which any journal that agrees with the book is carried on.
fn run_frames(
    book: &mut Book<FourCharges>,
    input: &[u8],
    output: &mut Lines,
) -> Result<(), AllocError>
    ensures cases { MatchResult result
        (λ _. PrintedWith CarriesJournalAll (state_of book.old) input.now (written output.old) (written output.new) (state_of book.new))
        (λ _. LacksRoomWith CarriesJournalAll (state_of book.old) input.now (room output.new) (written output.old) (written output.new) (state_of book.new)) }
    ensures capacity { room output.old ≤ room output.new }
    ensures none_pending { NonePending book.old.account → NonePending book.new.account }
{
    let mut frames = Frames::new(input);
    loop {
        match frames.read() {
            Ok(Some(frame)) => {
                // Before the frame is worked, so that none is whose line then lacks room.
                output.reserve_line()?;
                match work(book, &frame).tell(output) {
                    Ok(duty) => file(book, duty),
                    Err(_outcome) => unreachable(),
                }
            }
            Ok(None) => return Ok(()),
            Err(none) => return output.append(&Line::NoFrame(none.at)),
        }
    }
}

/// Works the frames of the input one after another, appends a line for each, and files the month that it entered; where no frame is next, a last line
/// tells its offset. Room for a line is taken before its frame is worked, so where memory lacks for that, the output has the lines of the frames that were
/// worked, and the book is that after them.
pub fn write_run(
    book: &mut Book<FourCharges>,
    input: &[u8],
    output: &mut Lines,
) -> Result<(), AllocError>
    ensures cases { MatchResult result
        (λ _. Printed (state_of book.old) input.now (written output.old) (written output.new) (state_of book.new))
        (λ _. LacksRoom (state_of book.old) input.now (room output.new) (written output.old) (written output.new) (state_of book.new)) }
    // So what lacked at the end lacked at first, and no room was given back.
    ensures capacity { room output.old ≤ room output.new }
    // No other output is that of a run, and no other state is left by it: the input and the book settle every byte, and what the book then holds.
    // Where memory lacks, the output is a beginning of that one.
    ensures once { (out : List ℕ) (after : State) → Printed (state_of book.old) input.now (written output.old) out after
        → MatchResult result (λ _. (written output.new ≡ out) × (state_of book.new ≡ after)) (λ _. (later : List ℕ) × (out ≡ written output.new ++ later)) }
    // Where no month was pending before, none is afterwards, also where memory lacks.
    ensures none_pending { NonePending book.old.account → NonePending book.new.account }
    // By a journal that agreed with the book before, carried on by the frames, the facts hold of the book afterwards, also where memory lacks.
    ensures facts { (begun : Option Journal) → Agrees (state_of book.old) begun → MatchResult result
        (λ _. PrintedWith (RunFacts begun) (state_of book.old) input.now (written output.old) (written output.new) (state_of book.new))
        (λ _. LacksRoomWith (RunFacts begun) (state_of book.old) input.now (room output.new) (written output.old) (written output.new) (state_of book.new)) }
{
    let ran = run_frames(book, input, output);
    // Does nothing; its contract gives the facts.
    book.audit();
    ran
}
