// Whoever sends a book its calls, and what holds after any of them.
#![tactic(auto)]

mod acting;
mod call;
mod choosing;
mod outcome;
mod prompt;
mod running;

pub use acting::act;
pub use call::Call;
pub use choosing::Client;
pub use outcome::Outcome;
pub use prompt::{Prompt, run_promptly};
pub use running::run;
