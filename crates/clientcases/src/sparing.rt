// A client that chooses by what the book tells as outstanding.
ghost use Rattle.std.specs.Prelude.{◌≡◌, []};
ghost use Rattle.clientcases.specs.Keeping.{sparing_makes_none};
ghost use Rattle.clientcases.specs.Sparing.{spared, Spares};

use crate::keeper::Keeper;
use book::Book;
use client::{Call, Client, Outcome, Prompt};
use schedule::FourCharges;

/// The number of the charge that it looks at.
pub(crate) const GENERATION: usize = 0;

/// A prompt client that files a month only where something of generation is still to be recovered: where nothing is, no upward correction is due to it that
/// a month which is not filed could bar.
#[derive(Drop)]
pub(crate) struct Sparing {
    pub(crate) prompt: Prompt,
}

impl Client<FourCharges> for Sparing {
    ghost answers = { Spares };

    fn next(&mut self, outcome: Outcome, book: &Book<FourCharges>) -> Option<Call> {
        let call = self.prompt.next(outcome, book)?;
        Some(spare(call, book.outstanding(GENERATION)))
    }
}

impl Keeper for Sparing {
    ghost keeps = { λ client. [] };

    ghost makes_none = { sparing_makes_none };
}

fn spare(call: Call, outstanding: Option<i64>) -> Call
    ensures { result ≡ spared outstanding call }
{
    match (call, outstanding) {
        (Call::File(duty), Some(units)) if units <= 0 => Call::GiveUp(duty),
        (call, _) => call,
    }
}
