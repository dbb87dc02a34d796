// When no correction may raise a rate.
ghost use Rattle.std.specs.Prelude.{◌≡◌};
ghost use Rattle.settlement.specs.Corrections.{is_barred};

use crate::record::{Mark, Record};

/// Whether the month before the last stands and was not filed (Article 5, Section 1).
pub(crate) fn is_barred(before: Option<Record>) -> bool
    ensures { result ≡ is_barred before }
{
    match before {
        None => false,
        Some(record) => match record.mark {
            Mark::Filed => false,
            Mark::Pending | Mark::Missed => true,
        },
    }
}
