// The run of a sparing client: it prints nothing, and is compared with what it comes to by the rules.
use crate::ending::{Ending, run_through};
use crate::files::{Figures, Flaw, file_of};
use crate::sparing::{GENERATION, Sparing};
use anyhow::bail;
use book::{Book, Mark, Opening, Standing};
use client::Prompt;
use schedule::FourCharges;
use std::alloc::{AllocError, Global};
use std::collections::VecDeque;

// What generation costs month by month. All else is the same each month.
const COSTS: [u64; 12] = [
    60_250_000, 90_000_000, 30_000_000, 45_000_000, 80_000_000, 85_000_000, 50_000_000, 40_000_000,
    75_000_000, 60_000_000, 30_000_000, 70_000_000,
];

// After month 1 nothing of generation is outstanding, and after month 10 less than nothing, though in total there is something.
const MARKS: [Mark; 12] = [
    Mark::Missed,
    Mark::Filed,
    Mark::Missed,
    Mark::Missed,
    Mark::Filed,
    Mark::Filed,
    Mark::Missed,
    Mark::Missed,
    Mark::Filed,
    Mark::Missed,
    Mark::Missed,
    Mark::Filed,
];

const OUTSTANDING: i64 = 1_339_380_000;

const TOTAL: i64 = 2_143_905_084;

// The rates announced after month 12. They follow from the months that were not filed: had all been, they would be 60,051, 10,000, 5,185 and 3,846.
const ANNOUNCED: [i64; 4] = [58_125, 10_000, 5_024, 3_300];

fn figures_of(cost: u64) -> Figures {
    Figures {
        cost,
        taken: 400_000,
        passed: 0,
        pilferage: 50_000,
        transmission: 12_000_000,
        substation: 2_400,
        feeder: 9_600,
        kwh: 8_000,
        customers: 400,
        percent: 50,
        nonlifeline: 100_000,
    }
}

fn files(heap: Global) -> Result<VecDeque<Vec<u8>>, AllocError> {
    let mut files = VecDeque::new(heap);
    for (month, cost) in (1..=12).zip(COSTS) {
        files.push_back(file_of(heap, month, &figures_of(cost), Flaw::None)?)?;
    }
    Ok(files)
}

fn is_by_the_rules(book: &Book<FourCharges>) -> bool {
    let mut announced = true;
    for (mechanism, units) in ANNOUNCED.iter().enumerate() {
        announced = announced && book.announced(mechanism) == Some(*units);
    }
    announced
        && book.marks().as_slice() == MARKS.as_slice()
        && book.outstanding(GENERATION) == Some(OUTSTANDING)
        && book.total() == Some(TOTAL)
        && book.standing() == Standing::Correcting
}

pub(crate) fn play_unprinted(heap: Global) -> anyhow::Result<()> {
    let opening = Opening {
        number: 1,
        spread: 6,
        rates: &[50_000, 10_000, 5_000, 3_000],
        balances: &[0, 0, -1_000_000_000, 2_000_000_000],
    };
    let mut client = Sparing {
        prompt: Prompt {
            files: files(heap)?,
        },
    };
    let mut book = Book::new(heap, FourCharges::new(500)?)?;
    let mut closed = Book::new(heap, FourCharges::new(500)?)?;
    match run_through(&opening, 100, &mut book, &mut closed, &mut client) {
        Ending::ByTheClient if is_by_the_rules(&book) => Ok(()),
        _ => bail!("the run of the sparing client did not come out by the rules"),
    }
}
