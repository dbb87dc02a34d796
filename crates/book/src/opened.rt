// What a book knows since it was opened.
use settlement::{Rates, Terms};

mod making;

/// Its number, its terms, and the rates last announced.
#[derive(Clone, Copy)]
pub(crate) struct Opened {
    pub(crate) number: u64,
    pub(crate) terms: Terms,
    pub(crate) announced: Rates,
}
