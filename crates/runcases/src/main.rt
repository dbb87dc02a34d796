// Reads a table of streams, a line `NAME DIGITS` for each, and prints each name with the lines of its stream's run below it.
// A name that begins with `prefixes-` stands for every prefix of its stream, printed in rows of lengths with the same lines.
#![tactic(auto)]

mod lines;
mod prefixes;

use crate::lines::{lines_of, print_lines};
use crate::prefixes::print_prefixes;
use anyhow::ensure;
use std::io::{BufRead, BufReader};

// The empty stream may stand as the name alone.
fn print_case(rt: &HostRuntime, case: &str) -> anyhow::Result<()> {
    let (name, digits) = case.split_once(' ').unwrap_or((case, ""));
    ensure!(!name.is_empty(), "a line has no name");
    let stream = hex::decode(rt.alloc(), digits)?;
    if name.starts_with("prefixes-") {
        return print_prefixes(rt, name, stream.as_slice());
    }
    let lines = lines_of(rt.alloc(), stream.as_slice())?;
    print_lines(rt, name, lines.as_slice())
}

fn main(rt: HostRuntime) -> anyhow::Result<()> {
    for case in BufReader::new(rt.alloc(), rt.stdin())?.lines(rt.alloc()) {
        print_case(&rt, case?.as_str())?;
    }
    Ok(())
}
