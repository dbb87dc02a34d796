// A duty of a book beside the docket's, offered to that one.
use crate::docket::{Docket, closed_book};
use anyhow::bail;
use book::{Answer, Book, BookFault, Opening};
use schedule::FourCharges;
use std::alloc::Global;

// A month in which nothing is charged. Its number ends at byte 4.
const MONTH: [u8; 143] = *b"\
    \x01\x00\x02\x00\x01\
    \x02\x00\x18\x00\x00\x00\x00\x00\x00\x00\x00\x00\x00\x00\x00\x00\x00\x00\x00\x00\x00\x00\x00\x00\x00\x00\x00\
    \x03\x00\x08\x00\x00\x00\x00\x00\x00\x00\x00\
    \x04\x00\x18\x00\x00\x00\x00\x00\x00\x00\x00\x00\x00\x00\x00\x00\x00\x00\x00\x00\x00\x00\x00\x00\x00\x00\x00\
    \x05\x00\x28\x00\x00\x00\x00\x00\x00\x00\x01\x00\x00\x00\x00\x00\x00\x00\x00\x00\x00\x00\x00\x00\x00\x00\x00\
    \x00\x00\x00\x00\x00\x00\x00\x00\x00\x00\x00\x00\x00\x00\x00\x00\
    \x06\x00\x00\
    \x07\x00\x18\x00\x00\x00\x00\x00\x00\x00\x01\x00\x00\x00\x00\x00\x00\x00\x00\x00\x00\x00\x00\x00\x00\x00\x00";

fn file_of(month: u8) -> [u8; 143] {
    let mut file = MONTH;
    file[4] = month;
    file
}

// Enters the month and files it at once.
fn post(book: &mut Book<FourCharges>, month: u8) -> Result<(), BookFault> {
    let duty = book.enter(&file_of(month), &mut Answer::default())?;
    match book.file(duty) {
        Ok(()) => Ok(()),
        // A duty that was just handed out is owed.
        Err(_returned) => unreachable(),
    }
}

/// Another book of this number enters months up to this one, whose duty is offered to the docket and then filed with its own book.
pub(crate) fn offer(
    heap: Global,
    docket: &mut Docket,
    number: u64,
    month: u8,
) -> anyhow::Result<Option<(BookFault, BookFault)>> {
    let mut other = closed_book(heap)?;
    other.open(&Opening {
        number,
        spread: 1,
        rates: &[0; 4],
        balances: &[0; 4],
    })?;
    for earlier in 1..month {
        post(&mut other, earlier)?;
    }
    let Ok(duty) = other.enter(&file_of(month), &mut Answer::default()) else {
        bail!("no book has this month");
    };
    let (refused, duty) = docket.offer(duty);
    match other.file(duty) {
        Ok(()) => Ok(refused),
        // It was not spent, and no call was made on its book.
        Err(_returned) => unreachable(),
    }
}
