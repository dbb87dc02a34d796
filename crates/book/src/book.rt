// A book: its fields, what contracts see of it, and what it keeps.
use crate::opened::Opened;
use bounded::UpTo;
use month::Month;
use schedule::Schedule;
use settlement::{Mark, Rates, Record};
use std::marker::Model;

mod amending;
mod asking;
mod auditing;
mod entering;
mod filing;
mod making;
mod opening;
mod reading;
mod writing;

// At most this many months stand.
const MOST_MONTHS: usize = 36;

/// The marks of the months that stand, from month 1 on.
pub type Marks = UpTo<Mark, MOST_MONTHS>;

/// A book over a schedule of mechanisms: closed, or open with the months that were entered. Contracts see its schedule, and what it holds where it
/// is open, as plain numbers and lists.
#[derive(Drop)]
pub struct Book<S: Schedule> {
    schedule: S,
    // None while the book is closed.
    opened: Option<Opened>,
    months: Vec<Month>,
    // The rates that each month was billed at.
    billed: Vec<Rates>,
    records: Vec<Record>,
}

impl<S: Schedule> Model for Book<S> {
    ghost use Rattle.std.specs.Prelude.{◌≤◌};
    ghost use Rattle.std.specs.Vec.{vec_capacity};
    ghost use Rattle.book.specs.Account.{BookState, held_by};
    ghost use Rattle.book.specs.Sound.{Sound};

    ghost Value = { BookState S };

    ghost view = { λ b. record { schedule = b.schedule; account = held_by b.opened b.months.items b.billed.items b.records.items } };

    // With room for 36 months, so that no call but the making of a book needs memory.
    ghost invariant = { λ b. Sound (S.Schedule.meaning b.schedule) b.opened b.months.items b.billed.items b.records.items
        × (36 ≤ vec_capacity b.months) × (36 ≤ vec_capacity b.billed) × (36 ≤ vec_capacity b.records) };
}
