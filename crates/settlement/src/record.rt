// What is kept of a month beside its figures and its billed rates.
ghost use Rattle.std.specs.Prelude.{Some};
ghost use Rattle.settlement.specs.Words.{mark_word};

use crate::standing::Standing;
use std::fmt;

/// Whether the month's filing is still due, was made, or was missed.
#[derive(Clone, Copy, Debug, Default, PartialEq, Eq)]
pub enum Mark {
    #[default]
    Pending,
    Filed,
    Missed,
}

/// The figures that a month closed with, in units: the sum of what is outstanding, and what may be recovered for the latest three months, or for
/// fewer where fewer stood.
#[derive(Clone, Copy, Debug, Default, PartialEq, Eq)]
pub struct Closing {
    pub total: i64,
    pub revenue: u64,
}

/// A month's closing figures, its mark, and the standing that it left.
#[derive(Clone, Copy, Debug, PartialEq, Eq)]
pub struct Record {
    pub closing: Closing,
    pub mark: Mark,
    pub standing: Standing,
}

impl fmt::Display for Mark {
    ghost output = { λ m. Some (mark_word m) };

    fn fmt<W: fmt::Write>(&self, f: &mut fmt::Formatter<W>) -> fmt::Result {
        match *self {
            Mark::Pending => f.write_str("pending"),
            Mark::Filed => f.write_str("filed"),
            Mark::Missed => f.write_str("missed"),
        }
    }
}
