// Books for the tests.
use book::{Answer, Book, BookFault, Duty, Opening};
use schedule::{FourCharges, Schedule};
use std::alloc::Global;
use std::process::Abort;
use std::test::Fail;

/// A book of the four charges, open.
pub(crate) fn opened(heap: Global, number: u64) -> Result<Book<FourCharges>, Fail> {
    let mut book = Book::new(heap, FourCharges::new(500)?)?;
    book.open(&Opening {
        number,
        spread: 6,
        rates: &[50_000, 10_000, 8_000, 500],
        balances: &[0; 4],
    })?;
    Ok(book)
}

/// A duty has to be filed: it cannot be let go.
pub(crate) fn file<S: Schedule>(rt: &impl Abort, book: &mut Book<S>, duty: Duty) {
    match book.file(duty) {
        Ok(()) => {}
        Err(_returned) => panic!(rt; "not filed"),
    }
}

/// Enters a month and files it at once.
pub(crate) fn post<S: Schedule>(
    book: &mut Book<S>,
    file: &[u8],
    answer: &mut Answer,
) -> Result<(), BookFault> {
    let duty = book.enter(file, answer)?;
    match book.file(duty) {
        Ok(()) => Ok(()),
        // A duty that was just handed out is owed.
        Err(_returned) => unreachable(),
    }
}
