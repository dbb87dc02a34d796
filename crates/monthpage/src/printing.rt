// From a reader to a writer, with the status that a program ends with.
ghost use Rattle.std.specs.Prelude.{◌≡◌, IfOk, MatchResult};
ghost use Rattle.std.specs.Io.KnownBytes.{Keeps};
ghost use Rattle.std.specs.Process.{exit_status};
ghost use Rattle.monthpage.specs.Printing.{status_of, PrintsPage};

use crate::checking::check;
use std::alloc::{AllocError, Global};
use std::io::{Read, Write};
use std::process::ExitCode;

// Tells a script whether nothing is refused and the month is fit.
fn exit_code(good: bool) -> ExitCode
    ensures { exit_status result ≡ status_of good }
{
    if good {
        ExitCode::SUCCESS
    } else {
        ExitCode::FAILURE
    }
}

// The page of all that is read, which is written once it is whole: where memory lacks for it, nothing is written.
fn print_whole<R: Read, W: Write>(
    heap: Global,
    cap: u64,
    input: &mut R,
    output: &mut W,
) -> anyhow::Result<Result<ExitCode, AllocError>>
    ensures { IfOk result (λ printed. MatchResult printed
        (λ code. PrintsPage cap (R.remaining input.old) (W.contents output.old) (W.contents output.new) (exit_status code))
        (λ _. Keeps (W.contents output.old) (W.contents output.new))) }
{
    let mut file = Vec::new(heap);
    input.read_to_end(&mut file)?;
    let checked = match check(heap, cap, file.as_slice()) {
        Ok(checked) => checked,
        Err(lack) => return Ok(Err(lack)),
    };
    output.write_all(checked.page.as_bytes())?;
    Ok(Ok(exit_code(checked.good)))
}

/// Reads a month file to its end and prints its page, with a cap in hundredths of a percent. The exit code has status 0 where nothing is refused and all
/// four charges find the month fit, and otherwise 1; an error tells of reading, writing or memory.
pub fn print_page<R: Read, W: Write>(
    heap: Global,
    cap: u64,
    input: &mut R,
    output: &mut W,
) -> anyhow::Result<ExitCode>
    // A status is answered only where the whole page of all that was to be read is written.
    ensures { IfOk result (λ code. PrintsPage cap (R.remaining input.old) (W.contents output.old) (W.contents output.new) (exit_status code)) }
{
    Ok(print_whole(heap, cap, input, output)??)
}
