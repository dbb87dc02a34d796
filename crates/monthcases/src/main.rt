// Reads a table of month files, a line `name:hex` for each, and prints what each is read as.
// A name that begins with `prefixes-` stands for every prefix of its file, printed in runs of one outcome.
#![tactic(auto)]

mod outcome;
mod prefixes;

use crate::outcome::outcome_of;
use crate::prefixes::print_prefixes;
use anyhow::anyhow;
use std::io::{BufRead, BufReader};

fn print_case(rt: &HostRuntime, name: &str, digits: &str) -> anyhow::Result<()> {
    let file = hex::decode(rt.alloc(), digits)?;
    if name.starts_with("prefixes-") {
        return print_prefixes(rt, name, file.as_slice());
    }
    let outcome = outcome_of(rt.alloc(), file.as_slice())?;
    println!(rt; "{name} {outcome}")?;
    Ok(())
}

fn main(rt: HostRuntime) -> anyhow::Result<()> {
    for line in BufReader::new(rt.alloc(), rt.stdin())?.lines(rt.alloc()) {
        let line = line?;
        let Some((name, digits)) = line.as_str().split_once(':') else {
            return Err(anyhow!("a line has no name"));
        };
        print_case(&rt, name, digits)?;
    }
    Ok(())
}
