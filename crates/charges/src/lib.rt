// Pass-through charges: what a mechanism is, and the four of Resolution 14.
#![tactic(auto)]

mod assessment;
mod average_cost;
mod cap;
mod generation;
mod lifeline;
mod limits;
mod loss;
mod mechanism;
mod priced;
mod purchase;
mod recent;
mod transmission;

pub use assessment::Assessment;
pub use average_cost::AverageCost;
pub use cap::CapTooHigh;
pub use generation::{Generation, PowerSupply};
pub use lifeline::Lifeline;
pub use loss::Loss;
pub use mechanism::Mechanism;
pub use priced::Priced;
pub use purchase::Purchase;
pub use recent::{recent_allowances, recent_energy};
pub use transmission::{Transmission, TransmissionService};
