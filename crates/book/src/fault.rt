// Why the book refuses a call.
ghost use Rattle.std.specs.Prelude.{◌≡◌, Some};
ghost use Rattle.book.specs.Refusals.{opening_place, book_refusal};
ghost use Rattle.book.specs.Words.{opening_sentence, book_sentence};
ghost use Rattle.book.specs.declared.fault.BookFault.TheVariants.{Month, Opening, Buffer};

use fields::{Layer, Refusal, ShortBuffer};
use month::MonthFault;
use std::error::Error;
use std::fmt;

/// Question 15, at the places 2 to 6.
#[derive(Clone, Copy, Debug, PartialEq, Eq)]
pub enum OpeningFault {
    /// The spread is not 1 to 12 months.
    Spread,
    /// A starting rate is above 10,000,000.
    StartingRate,
    /// An opening balance is outside ±1,000,000,000,000.
    Balance,
    /// The schedule has not 1 to 8 mechanisms, or not as many rates and balances were given.
    Count,
    /// The book is open already.
    AlreadyOpen,
}

#[derive(Clone, Copy, Debug, PartialEq, Eq)]
pub enum BookFault {
    /// The file states no month: questions 1 to 11.
    Month(MonthFault),
    /// The month is not the next to enter, or, to be amended or written, no standing one: question 12.
    WrongMonth(u16),
    /// The mechanism with this number, the lowest such, does not find the month fit: question 13.
    NotFit(usize),
    /// The duty is of a book of another number, or this month is not pending: question 14.
    NotPending(u16),
    /// The book was not opened: question 15.
    Opening(OpeningFault),
    /// The buffer is too short: question 16.
    Buffer(ShortBuffer),
}

impl From<MonthFault> for BookFault {
    ghost from_gives = { λ e r. r ≡ Month e };

    fn from(e: MonthFault) -> BookFault {
        BookFault::Month(e)
    }
}

impl From<OpeningFault> for BookFault {
    ghost from_gives = { λ e r. r ≡ Opening e };

    fn from(e: OpeningFault) -> BookFault {
        BookFault::Opening(e)
    }
}

impl From<ShortBuffer> for BookFault {
    ghost from_gives = { λ e r. r ≡ Buffer e };

    fn from(e: ShortBuffer) -> BookFault {
        BookFault::Buffer(e)
    }
}

// The place of question 15.
fn opening_place(fault: OpeningFault) -> usize
    ensures { result ≡ opening_place fault }
{
    match fault {
        OpeningFault::Spread => 2,
        OpeningFault::StartingRate => 3,
        OpeningFault::Balance => 4,
        OpeningFault::Count => 5,
        OpeningFault::AlreadyOpen => 6,
    }
}

impl From<BookFault> for Refusal {
    ghost from_gives = { λ e r. r ≡ book_refusal e };

    fn from(fault: BookFault) -> Refusal {
        let (number, place) = match fault {
            BookFault::Month(fault) => return Refusal::from(fault),
            BookFault::WrongMonth(month) => (12, usize::from(month)),
            BookFault::NotFit(number) => (13, number),
            BookFault::NotPending(month) => (14, usize::from(month)),
            BookFault::Opening(fault) => (15, opening_place(fault)),
            BookFault::Buffer(short) => return Refusal::from(short),
        };
        Refusal {
            number,
            layer: Layer::Book,
            place,
        }
    }
}

impl fmt::Display for OpeningFault {
    ghost output = { λ e. Some (opening_sentence e) };

    fn fmt<W: fmt::Write>(&self, f: &mut fmt::Formatter<W>) -> fmt::Result {
        match *self {
            OpeningFault::Spread => f.write_str("The spread is not 1 to 12 months."),
            OpeningFault::StartingRate => f.write_str("A starting rate is above 10000000 units."),
            OpeningFault::Balance => {
                f.write_str("An opening balance is more than 1000000000000 units from zero.")
            }
            OpeningFault::Count => f.write_str(
                "There are not 1 to 8 mechanisms, each with a starting rate and an opening balance.",
            ),
            OpeningFault::AlreadyOpen => f.write_str("The book is open already."),
        }
    }
}

impl fmt::Display for BookFault {
    ghost output = { λ e. Some (book_sentence e) };

    fn fmt<W: fmt::Write>(&self, f: &mut fmt::Formatter<W>) -> fmt::Result {
        match *self {
            BookFault::Month(fault) => write!(f, "{fault}"),
            BookFault::WrongMonth(month) => {
                write!(f, "The book has no use for month {month} here.")
            }
            BookFault::NotFit(number) => {
                write!(f, "Mechanism {number} does not find the month fit.")
            }
            BookFault::NotPending(month) => {
                write!(f, "This book has no filing pending for month {month}.")
            }
            BookFault::Opening(fault) => write!(f, "{fault}"),
            BookFault::Buffer(short) => {
                let length = short.length;
                write!(f, "The buffer has {length} bytes, and 1024 are asked for.")
            }
        }
    }
}

impl Error for OpeningFault {}

impl Error for BookFault {}
