// Taking the positions of the mechanisms.
ghost use Rattle.std.specs.Prelude.{◌≤◌, map, length, MatchOption};
ghost use Rattle.bounded.specs.View.{held};
ghost use Rattle.month.specs.View.{figures};
ghost use Rattle.schedule.specs.Rows.{MayBeAsked, numbered};
ghost use Rattle.settlement.specs.Settling.{units_of, opening_units, EachSettleable};
ghost use Rattle.settlement.specs.Months.{Settleable};
ghost use Rattle.settlement.specs.Positions.{IsPosition, ArePositions};

use super::Position;
use crate::amounts::OpeningBalance;
use crate::assessing::assessments;
use crate::balance::balance_of;
use crate::rates::{Balances, Rates, suits};
use bounded::UpTo;
use charges::{Assessment, recent_allowances};
use month::Month;
use schedule::Schedule;

/// The positions of up to eight mechanisms, by number.
pub(crate) type Positions = UpTo<Position, 8>;

// The position of one mechanism; None where no month stands or more than 36 do, or an answer of the mechanism breaks the law.
#[tactic(auto, using(crate::proofs::Assessed::not_settleable, crate::proofs::Assessed::recent_most))]
fn position<S: Schedule>(
    schedule: &S,
    number: usize,
    opening: OpeningBalance,
    months: &[Month],
    bills: &[Rates],
) -> Option<Position>
    ensures { MayBeAsked (S.Schedule.meaning schedule.now) number → MatchOption result
        (¬ Settleable (numbered (S.Schedule.meaning schedule.now) number) (map figures months.now))
        (λ p. Settleable (numbered (S.Schedule.meaning schedule.now) number) (map figures months.now)
        × IsPosition (numbered (S.Schedule.meaning schedule.now) number) number opening.units (map figures months.now) (map units_of bills.now) p) }
{
    let assessed = assessments(schedule, number, months)?;
    let assessed = assessed.as_slice();
    let last = assessed.last()?;
    Some(Position {
        outstanding: balance_of(number, opening, assessed, bills),
        recent: recent_allowances(assessed),
        last: *last,
    })
}

/// The positions of all mechanisms; None where there are not as many opening balances as mechanisms, or one cannot be settled.
#[tactic(auto, using(crate::proofs::Taken::no_positions))]
pub(crate) fn positions<S: Schedule>(
    schedule: &S,
    balances: &Balances,
    months: &[Month],
    bills: &[Rates],
) -> Option<Positions>
    ensures { MatchOption result
        (¬ EachSettleable (S.Schedule.meaning schedule.now) (length (opening_units balances.now)) (map figures months.now))
        (λ ps. EachSettleable (S.Schedule.meaning schedule.now) (length (opening_units balances.now)) (map figures months.now)
        × ArePositions (S.Schedule.meaning schedule.now) (opening_units balances.now) (map figures months.now) (map units_of bills.now) (held ps)) }
{
    if !suits(schedule, balances) {
        return None;
    }
    let mut taken = Positions::new();
    for (number, opening) in balances.as_slice().iter().enumerate() {
        let position = position(schedule, number, *opening, months, bills)?;
        taken.push(position).ok()?;
    }
    Some(taken)
}

// What fills the unused places of the list.
impl Default for Position {
    fn default() -> Position {
        Position {
            outstanding: 0,
            recent: 0,
            last: Assessment::default(),
        }
    }
}
