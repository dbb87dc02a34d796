// Schedules: rows of mechanisms, numbered from 0.
#![tactic(auto)]

mod four;
mod joined;
mod schedule;
mod single;

pub use four::FourCharges;
pub use joined::Joined;
pub use schedule::Schedule;
pub use single::Single;
