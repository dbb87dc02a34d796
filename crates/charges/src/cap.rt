// The cap on the feeder loss, in hundredths of a percent of the input: question 15, at place 1.
ghost use Rattle.std.specs.Prelude.{◌≡◌, ◌<◌, ◌≤◌, Some, MatchResult};

use crate::limits::MAX_CAP;
use fields::{Layer, Refusal};
use std::error::Error;
use std::fmt;

/// A cap of at most 5,000.
#[derive(Clone, Copy)]
pub(crate) struct Cap {
    pub(crate) hundredths: u64,
    ghost limit: { hundredths ≤ 5000 },
}

/// A cap above 5,000.
#[derive(Clone, Copy, Debug, PartialEq, Eq)]
pub struct CapTooHigh {
    pub cap: u64,
    ghost above: { 5000 < cap },
}

impl TryFrom<u64> for Cap {
    ghost use Rattle.charges.specs.Making.{NotMade};

    type Error = CapTooHigh;

    ghost try_from_gives = { λ cap result. MatchResult result (λ c. c.hundredths ≡ cap) (λ e. NotMade cap e) };

    fn try_from(cap: u64) -> Result<Cap, CapTooHigh> {
        if cap > MAX_CAP {
            return Err(CapTooHigh { cap });
        }
        Ok(Cap { hundredths: cap })
    }
}

impl From<CapTooHigh> for Refusal {
    ghost use Rattle.charges.specs.Refusals.{cap_refusal};

    ghost from_gives = { λ fault told. told ≡ cap_refusal fault };

    fn from(_fault: CapTooHigh) -> Refusal {
        Refusal {
            number: 15,
            layer: Layer::Book,
            place: 1,
        }
    }
}

impl fmt::Display for CapTooHigh {
    ghost use Rattle.charges.specs.Words.{cap_sentence};

    ghost output = { λ f. Some (cap_sentence f) };

    fn fmt<W: fmt::Write>(&self, f: &mut fmt::Formatter<W>) -> fmt::Result {
        let cap = self.cap;
        write!(
            f,
            "The feeder loss cap of {cap} hundredths of a percent is above 5000."
        )
    }
}

impl Error for CapTooHigh {}
