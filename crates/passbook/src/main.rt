// Reads a stream of frames from standard input, works them on a book, and prints a line for each.
#![tactic(auto)]

mod printing;

use crate::printing::print_run;

// Ends with status 1, and says why on standard error, only where standard input cannot be read, standard output cannot be written, or memory
// lacks; where it lacks in the run, the lines before are printed.
fn main(rt: HostRuntime) -> anyhow::Result<()> {
    print_run(rt.alloc(), &mut rt.stdin(), &mut rt.stdout())
}
