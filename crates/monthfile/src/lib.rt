// The month file: which bytes state which month.
#![tactic(auto)]

mod entry;
mod layout;
mod reading;
mod values;
mod writing;

pub use reading::read_month;
pub use writing::write_month;
