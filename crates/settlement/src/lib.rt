// How a month is settled, on plain values: what is outstanding, the total and the revenue, the band and the standing, and the rates announced.
#![tactic(auto)]

mod amounts;
mod answer;
mod assessing;
mod balance;
mod band;
mod barring;
mod correction;
mod position;
mod rates;
mod record;
mod settling;
mod standing;

pub use amounts::{OpeningBalance, Rate, Spread};
pub use answer::Answer;
pub use balance::{outstanding, total};
pub use band::Band;
pub use rates::{Balances, Rates, Terms};
pub use record::{Closing, Mark, Record};
pub use settling::settle;
pub use standing::Standing;
