// The program `monthcheck` under another name, to be run on a month that is fit, with no argument, since the gate runs a program on one input.
#![tactic(auto)]

use monthpage::{cap_of, print_page};
use std::env;
use std::process::ExitCode;

fn main(rt: HostRuntime) -> anyhow::Result<ExitCode> {
    let words = env::args(&rt)?.skip(1).collect::<Vec<String>>(rt.alloc())?;
    let cap = cap_of(words.as_slice())?;
    print_page(rt.alloc(), cap, &mut rt.stdin(), &mut rt.stdout())
}
