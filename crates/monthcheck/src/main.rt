// Reads one month file from standard input and prints what it states, what follows from it and what the four charges come to, or why it is
// refused.
#![tactic(auto)]

use monthpage::{cap_of, print_page};
use std::env;
use std::process::ExitCode;

// Ends with status 1 where something is refused or not fit. It does so too, and says it on standard error, where the argument is no such
// number or not the only one, where something cannot be read or written, or where memory lacks.
fn main(rt: HostRuntime) -> anyhow::Result<ExitCode> {
    let words = env::args(&rt)?.skip(1).collect::<Vec<String>>(rt.alloc())?;
    let cap = cap_of(words.as_slice())?;
    print_page(rt.alloc(), cap, &mut rt.stdin(), &mut rt.stdout())
}
