// From a reader to a writer.
ghost use Rattle.std.specs.Prelude.{OnOk, IfOk};
ghost use Rattle.passbook.specs.Printing.{PrintsLines, PrintsRun};

use printed::{Lines, NewBook};
use std::alloc::{AllocError, Global};
use std::io::{Read, Write};

// The lines of a run, and what it came to.
#[derive(Drop)]
struct Run {
    lines: Lines,
    ended: Result<(), AllocError>,
}

// Writes the lines of the run of all that is read, also those of a run that broke off for want of memory.
fn print_lines<R: Read, W: Write>(
    heap: Global,
    input: &mut R,
    output: &mut W,
) -> anyhow::Result<Run>
    ensures { IfOk result (λ run. PrintsLines (R.remaining input.old) (W.contents output.old) (W.contents output.new) run) }
{
    let mut stream = Vec::new(heap);
    input.read_to_end(&mut stream)?;
    let book = NewBook::new(heap)?;
    let mut lines = Lines::behind(Vec::new(heap));
    let ran = book.run(stream.as_slice(), &mut lines);
    output.write_all(lines.as_slice())?;
    match ran {
        Ok(_book) => Ok(Run {
            lines,
            ended: Ok(()),
        }),
        Err(lack) => Ok(Run {
            lines,
            ended: Err(lack),
        }),
    }
}

/// Reads a stream of frames to its end, works them on a new book and prints their lines; where memory lacks in the run, the lines before it.
pub(crate) fn print_run<R: Read, W: Write>(
    heap: Global,
    input: &mut R,
    output: &mut W,
) -> anyhow::Result<()>
    // It succeeds only where all lines of the run of all that was to be read are written.
    ensures { OnOk result (PrintsRun (R.remaining input.old) (W.contents output.old) (W.contents output.new)) }
{
    print_lines(heap, input, output)?.ended?;
    Ok(())
}
