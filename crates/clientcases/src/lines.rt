// The lines that are printed: of an outcome, of the end of a run, of a book.
use crate::ending::Ending;
use crate::told::Told;
use book::{Answer, Book, BookFault, Mark, Marks};
use fields::Refusal;
use schedule::FourCharges;
use std::alloc::Global;

// A letter for each month.
fn letters_of(heap: Global, marks: &Marks) -> anyhow::Result<String> {
    let mut letters = String::new(heap);
    for mark in marks.as_slice() {
        letters.push(match *mark {
            Mark::Pending => 'p',
            Mark::Filed => 'f',
            Mark::Missed => 'm',
        })?;
    }
    Ok(letters)
}

fn answer_of(heap: Global, answer: &Answer) -> anyhow::Result<String> {
    let mut text = String::new(heap);
    for rate in answer.rates.as_slice() {
        text.push_str(rate.units.to_string(heap)?.as_str())?;
        text.push(' ')?;
    }
    let total = answer.closing.total;
    let revenue = answer.closing.revenue;
    let standing = answer.standing;
    Ok(format!(in heap; "{text}{total} {revenue} {standing}")?)
}

pub(crate) fn told_line(heap: Global, told: &Told) -> anyhow::Result<String> {
    match *told {
        Told::Opened => Ok(String::from_str(heap, "opened")?),
        Told::Entered(marks, month, answer) => {
            let letters = letters_of(heap, &marks)?;
            let answer = answer_of(heap, &answer)?;
            Ok(format!(in heap; "entered {month} [{letters}] {answer}")?)
        }
        Told::Amended(marks, answer, month) => {
            let letters = letters_of(heap, &marks)?;
            let answer = answer_of(heap, &answer)?;
            Ok(format!(in heap; "amended {month} [{letters}] {answer}")?)
        }
        Told::Spent => Ok(String::from_str(heap, "spent")?),
        Told::Refused(fault) => Ok(Refusal::from(fault).to_string(heap)?),
        Told::Returned(fault, book, month) => {
            let refusal = Refusal::from(fault);
            Ok(format!(in heap; "month {month} of book {book} {refusal}")?)
        }
    }
}

pub(crate) fn ending_line(heap: Global, ended: &Ending) -> anyhow::Result<String> {
    match *ended {
        Ending::NotOpened(fault) => {
            let refusal = Refusal::from(fault);
            Ok(format!(in heap; "not opened: {refusal}")?)
        }
        Ending::ByTheClient => Ok(String::from_str(heap, "ended by the client")?),
        Ending::CutOff(untold) => {
            let line = told_line(heap, &untold)?;
            Ok(format!(in heap; "cut off: {line}")?)
        }
    }
}

/// The marks once no duty is left.
pub(crate) fn book_line(heap: Global, book: &Book<FourCharges>) -> anyhow::Result<String> {
    let letters = letters_of(heap, &book.marks())?;
    let standing = book.standing();
    match book.total() {
        Some(total) => Ok(format!(in heap; "book [{letters}] total {total} {standing}")?),
        None => Ok(format!(in heap; "book closed {standing}")?),
    }
}
