// Settling the months that stand: the total and the revenue, the standing, the announced rates, and the answer with all of them.
ghost use Rattle.std.specs.Prelude.{◌≡◌, map, length, sum_by, MatchOption};
ghost use Rattle.bounded.specs.View.{held};
ghost use Rattle.month.specs.View.{figures};
ghost use Rattle.settlement.specs.Settling.{units_of, opening_units, answered, settled, standing_after, left_by, EachSettleable};
ghost use Rattle.settlement.specs.CorrectionLaws.{LawsSettleTheRate};
ghost use Rattle.settlement.specs.Corrections.{is_barred};
ghost use Rattle.settlement.specs.Numbers.{int_sum};
ghost use Rattle.settlement.specs.Positions.{outstanding_of, recent_of, corrected};

use crate::answer::Answer;
use crate::band::Band;
use crate::barring::is_barred;
use crate::correction::announced_rate;
use crate::position::{Positions, positions};
use crate::rates::{Rates, Terms};
use crate::record::{Closing, Record};
use crate::standing::Standing;
use month::Month;
use schedule::Schedule;

// The total and the revenue.
fn close(positions: &Positions) -> Closing
    ensures total { result.total ≡ int_sum (map outstanding_of (held positions.now)) }
    ensures revenue { result.revenue ≡ sum_by recent_of (held positions.now) }
{
    let mut total = 0;
    let mut revenue = 0;
    for position in positions.as_slice() {
        total += position.outstanding;
        revenue += position.recent;
    }
    Closing { total, revenue }
}

// The standing that the last month leaves, after the one that the month before it left; before month 1 it is steady.
fn standing_after(before: Option<Record>, closing: Closing) -> Standing
    ensures { result ≡ standing_after (left_by before) closing }
{
    let mut standing = match before {
        None => Standing::Steady,
        Some(record) => record.standing,
    };
    standing.judge(Band::of(closing.total, closing.revenue));
    standing
}

// The rates announced for the coming month.
fn announce(positions: &Positions, terms: &Terms, standing: Standing, barred: bool) -> Rates
    ensures { units_of result ≡ map (corrected standing barred terms.now.spread.months) (held positions.now) }
{
    let mut rates = Rates::new();
    for position in positions.as_slice() {
        let rate = announced_rate(
            standing,
            barred,
            terms.spread,
            position.outstanding,
            &position.last,
        );
        let Ok(()) = rates.push(rate) else {
            unreachable()
        };
    }
    rates
}

/// The answer for the last of the months, by what each was billed and by the record of the month before the last, where one stands; None where
/// there are not as many opening balances as mechanisms, no month stands or more than 36 do, or an answer of a mechanism breaks the law, as
/// none does where the months can stand. With no mechanism there is nothing to ask, and it answers whatever the months are.
#[tactic(auto, using(crate::proofs::CorrectionLaws::by_both_laws))]
pub fn settle<S: Schedule>(
    schedule: &S,
    terms: &Terms,
    months: &[Month],
    bills: &[Rates],
    before: Option<Record>,
) -> Option<Answer>
    ensures cases { MatchOption result
        (¬ EachSettleable (S.Schedule.meaning schedule.now) (length (opening_units terms.now.balances)) (map figures months.now))
        (λ a. EachSettleable (S.Schedule.meaning schedule.now) (length (opening_units terms.now.balances)) (map figures months.now)
        × (answered a
        ≡ settled (S.Schedule.meaning schedule.now) terms.now.spread.months (opening_units terms.now.balances) (map figures months.now)
        (map units_of bills.now) (left_by before) (is_barred before))) }
    // A law of the rates that are announced; it asks nothing of this body.
    ensures laws { LawsSettleTheRate }
{
    let positions = positions(schedule, &terms.balances, months, bills)?;
    let closing = close(&positions);
    let standing = standing_after(before, closing);
    let rates = announce(&positions, terms, standing, is_barred(before));
    Some(Answer {
        rates,
        closing,
        standing,
    })
}
