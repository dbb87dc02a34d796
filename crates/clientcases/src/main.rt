// Runs clients that pick their calls by chance, each on two books, one after the other, and prints what they are told. Then runs one that chooses by
// what is outstanding, which prints nothing.
#![tactic(auto)]

mod cases;
mod ending;
mod erratic;
mod files;
mod keeper;
mod lines;
mod plan;
mod sparing;
mod told;
mod unprinted;

use crate::cases::{CASES, Case};
use crate::ending::run_through;
use crate::erratic::Erratic;
use crate::lines::{book_line, ending_line, told_line};
use crate::unprinted::play_unprinted;
use book::Book;
use schedule::FourCharges;

fn play(rt: &HostRuntime, case: &Case) -> anyhow::Result<()> {
    let heap = rt.alloc();
    let mut first = Book::new(heap, FourCharges::new(case.cap)?)?;
    let mut second = Book::new(heap, FourCharges::new(case.cap)?)?;
    let mut client = Erratic::new(heap, case.seed, case.calls);
    // The second book is sent duties of the first. No error is passed on until all are gone.
    let opening = case.opening(case.first);
    let first_ended = run_through(&opening, case.most, &mut first, &mut second, &mut client);
    let opening = case.opening(case.second);
    let second_ended = run_through(&opening, case.most, &mut second, &mut first, &mut client);
    let told = client.close(&mut second, &mut first)?;
    println!(rt; "run {}", case.name)?;
    for told in told.as_slice() {
        rt.println(told_line(heap, told)?)?;
    }
    for ended in [first_ended, second_ended] {
        rt.println(ending_line(heap, &ended)?)?;
    }
    for book in [&first, &second] {
        rt.println(book_line(heap, book)?)?;
    }
    Ok(())
}

fn main(rt: HostRuntime) -> anyhow::Result<()> {
    for case in &CASES {
        play(&rt, case)?;
    }
    play_unprinted(rt.alloc())
}
