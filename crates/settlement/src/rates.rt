// The terms on which a book is opened, and rates by mechanism.
ghost use Rattle.std.specs.Prelude.{◌≡◌, ◌↔◌, length, IsTrue};
ghost use Rattle.settlement.specs.Settling.{opening_units};

use crate::amounts::{OpeningBalance, Rate, Spread};
use bounded::UpTo;
use schedule::Schedule;

/// A rate for each mechanism, by number.
pub type Rates = UpTo<Rate, 8>;

/// An opening balance for each mechanism, by number.
pub type Balances = UpTo<OpeningBalance, 8>;

/// Whether there are as many opening balances as mechanisms; a schedule is asked only for the numbers that it has.
pub(crate) fn suits<S: Schedule>(schedule: &S, balances: &Balances) -> bool
    ensures { IsTrue result ↔ (length (opening_units balances.now) ≡ length (S.Schedule.meaning schedule.now)) }
{
    balances.len() == schedule.count()
}

/// What stays of an opening as long as the book is open.
#[derive(Clone, Copy)]
pub struct Terms {
    pub spread: Spread,
    pub balances: Balances,
}
