// One month of an electric cooperative: what its file states, what is asked of it, and what follows from it.
#![tactic(auto)]

mod energy;
mod fault;
mod month;
mod parts;
mod statement;
mod tag;
mod units;
mod within;

pub use fault::{FileFault, MonthFault};
pub use month::Month;
pub use parts::{Bracket, Energy, Exempt, Sales, Source};
pub use statement::Statement;
pub use tag::Tag;
pub use units::Units;
