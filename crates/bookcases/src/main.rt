// Reads a table that asks the charges about rows of months and plays books, line by line, and prints what each line is answered.
#![tactic(auto)]

mod answers;
mod charging;
mod docket;
mod figures;
mod numbers;
mod offering;
mod playing;

use crate::charging::Row;
use crate::docket::Docket;
use crate::playing::play_line;
use std::io::{BufRead, BufReader};

fn play(rt: &HostRuntime, docket: &mut Docket) -> anyhow::Result<()> {
    let mut row = Row::new(rt.alloc())?;
    for line in BufReader::new(rt.alloc(), rt.stdin())?.lines(rt.alloc()) {
        rt.println(play_line(rt.alloc(), &mut row, docket, line?.as_str())?)?;
    }
    Ok(())
}

// The duties that the table leaves are filed in any case.
fn main(rt: HostRuntime) -> anyhow::Result<()> {
    let mut docket = Docket::new(rt.alloc())?;
    let played = play(&rt, &mut docket);
    docket.close();
    played
}
