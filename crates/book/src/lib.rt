// The pass-through book: opening it, entering and amending months, filing and giving up their duties, reading it, and writing its months.
#![tactic(auto)]

mod book;
mod duty;
mod fault;
mod kind;
mod opened;
mod opening;
mod places;

pub use book::{Book, Marks};
pub use duty::{Duty, ReturnedDuty};
pub use fault::{BookFault, OpeningFault};
pub use kind::PostingKind;
pub use opening::Opening;
pub use settlement::{Answer, Closing, Mark, Standing};
