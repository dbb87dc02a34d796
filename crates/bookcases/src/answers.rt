// What an entry, an opening and a reading are answered, each in a line.
use crate::numbers::row_of;
use book::{Book, BookFault};
use fields::Refusal;
use schedule::Schedule;
use settlement::Answer;
use std::alloc::Global;

pub(crate) fn refusal_of(heap: Global, fault: BookFault) -> anyhow::Result<String> {
    Ok(Refusal::from(fault).to_string(heap)?)
}

pub(crate) fn entry_of(heap: Global, month: u16, answer: &Answer) -> anyhow::Result<String> {
    let mut units = Vec::new(heap);
    for rate in answer.rates.as_slice() {
        units.push(rate.units)?;
    }
    let rates = row_of(heap, units.as_slice())?;
    let total = answer.closing.total;
    let revenue = answer.closing.revenue;
    let standing = answer.standing;
    Ok(format!(in heap; "month {month} rates {rates} total {total} revenue {revenue} {standing}")?)
}

fn outstanding_of<S: Schedule>(heap: Global, book: &Book<S>) -> anyhow::Result<String> {
    let mut balances = Vec::new(heap);
    for number in 0..8 {
        if let Some(balance) = book.outstanding(number) {
            balances.push(balance)?;
        }
    }
    row_of(heap, balances.as_slice())
}

fn announced_of<S: Schedule>(heap: Global, book: &Book<S>) -> anyhow::Result<String> {
    let mut rates = Vec::new(heap);
    for number in 0..8 {
        if let Some(rate) = book.announced(number) {
            rates.push(rate)?;
        }
    }
    row_of(heap, rates.as_slice())
}

fn total_of<S: Schedule>(heap: Global, book: &Book<S>) -> anyhow::Result<String> {
    match book.total() {
        Some(total) => Ok(total.to_string(heap)?),
        None => Ok(String::from_str(heap, "none")?),
    }
}

/// What is outstanding of each mechanism and in all, what is announced, and the standing.
pub(crate) fn state_of<S: Schedule>(heap: Global, book: &Book<S>) -> anyhow::Result<String> {
    let outstanding = outstanding_of(heap, book)?;
    let total = total_of(heap, book)?;
    let announced = announced_of(heap, book)?;
    let standing = book.standing();
    Ok(format!(in heap;
        "outstanding [{outstanding}] total {total} announced [{announced}] {standing}"
    )?)
}

fn billed_of<S: Schedule>(heap: Global, book: &Book<S>, month: u16) -> anyhow::Result<String> {
    let mut rates = Vec::new(heap);
    for number in 0..8 {
        if let Some(rate) = book.billed(month, number) {
            rates.push(rate)?;
        }
    }
    row_of(heap, rates.as_slice())
}

/// What a month was billed, what it closed with, and its mark.
pub(crate) fn month_of<S: Schedule>(
    heap: Global,
    book: &Book<S>,
    month: u16,
) -> anyhow::Result<String> {
    let (Some(closing), Some(mark)) = (book.closing(month), book.mark(month)) else {
        return Ok(format!(in heap; "no month {month}")?);
    };
    let billed = billed_of(heap, book, month)?;
    let total = closing.total;
    let revenue = closing.revenue;
    Ok(format!(in heap; "month {month} billed {billed} total {total} revenue {revenue} {mark}")?)
}
