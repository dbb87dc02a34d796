// The page of a month file: what it states, what follows from it and what the four charges come to, or why it is refused.
#![tactic(auto)]

mod answers;
mod cap;
mod checking;
mod printing;
mod report;

pub use cap::cap_of;
pub use checking::{Checked, check};
pub use printing::print_page;
