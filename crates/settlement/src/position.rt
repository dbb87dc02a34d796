// Where a mechanism stands after the last month.
ghost use Rattle.std.specs.Prelude.{◌≤◌, nat_abs};
ghost use Rattle.settlement.specs.Bounds.{greatest_outstanding, greatest_recent};

use charges::Assessment;

mod taking;

pub(crate) use taking::{Positions, positions};

/// What is outstanding, the allowances of the last three months, and the assessment of the last month.
#[derive(Clone, Copy)]
pub(crate) struct Position {
    pub(crate) outstanding: i64,
    pub(crate) recent: u64,
    pub(crate) last: Assessment,
    ghost outstanding_most: { nat_abs outstanding ≤ greatest_outstanding },
    ghost recent_most: { recent ≤ greatest_recent },
}
