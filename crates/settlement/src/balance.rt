// What is outstanding.
ghost use Rattle.std.specs.Prelude.{◌≡◌, ◌≤◌, map, length, nat_abs, pos, negsuc, ◌≤ℤ◌, ◌-ℤ◌, ◌*ℤ◌, MatchOption};
ghost use Rattle.charges.specs.Assessed.{allowance_of};
ghost use Rattle.month.specs.View.{figures};
ghost use Rattle.schedule.specs.Rows.{numbered};
ghost use Rattle.settlement.specs.Settling.{units_of, opening_units};
ghost use Rattle.settlement.specs.Bounds.{greatest_month_adds, greatest_outstanding};
ghost use Rattle.settlement.specs.Months.{Assessable, EachLawful, quantity_of};
ghost use Rattle.settlement.specs.Rules.{balance_after, outstanding, billed_rate, total};

use crate::amounts::{OpeningBalance, Rate};
use crate::assessing::assessments;
use crate::rates::{Balances, Rates, suits};
use charges::Assessment;
use month::Month;
use schedule::Schedule;

// What a quantity is charged at a rate.
#[tactic(auto, using(crate::proofs::Balances::charged_least, crate::proofs::Balances::charged_most, crate::proofs::Balances::charged_is))]
fn charged(billed: Rate, quantity: u64) -> i64
    requires { quantity ≤ 10000000 }
    ensures value { result ≡ billed.units *ℤ pos quantity }
    ensures least { negsuc 9999999999999 ≤ℤ result }
    ensures most { result ≤ℤ pos 110000000000000 }
{
    billed.units * quantity as i64
}

// What a month adds to a balance.
fn month_adds(assessment: &Assessment, billed: Rate) -> i64
    ensures value { result ≡ pos assessment.now.answer.1 -ℤ (billed.units *ℤ pos assessment.now.quantity) }
    ensures bound { nat_abs result ≤ greatest_month_adds }
{
    let (_, allowance) = assessment.answer;
    allowance as i64 - charged(billed, assessment.quantity)
}

// What mechanism `number` was billed at in a month, or 0 where it was billed nothing.
fn billed_rate(bills: &[Rates], number: usize, month: usize) -> Rate
    ensures { result.units ≡ billed_rate (map units_of bills.now) number month }
{
    let Some(rates) = bills.get(month) else {
        return Rate::default();
    };
    match rates.as_slice().get(number) {
        None => Rate::default(),
        Some(rate) => *rate,
    }
}

/// The outstanding balance of mechanism `number`, where up to 36 months stand.
pub(crate) fn balance_of(
    number: usize,
    opening: OpeningBalance,
    assessed: &[Assessment],
    bills: &[Rates],
) -> i64
    requires { length assessed.now ≤ 36 }
    ensures value { result
        ≡ balance_after opening.units number (map allowance_of assessed.now) (map quantity_of assessed.now) (map units_of bills.now) }
    ensures bound { nat_abs result ≤ greatest_outstanding }
{
    let mut balance = opening.units;
    for (month, assessment) in assessed.iter().enumerate() {
        balance += month_adds(assessment, billed_rate(bills, number, month));
    }
    balance
}

/// The outstanding balance of mechanism `number` in units, by its opening balance, the months that stand and what these were billed; None for a number that
/// a schedule is not asked for, and where an answer of the mechanism breaks the law or more than 36 months stand.
pub fn outstanding<S: Schedule>(
    schedule: &S,
    number: usize,
    opening: OpeningBalance,
    months: &[Month],
    bills: &[Rates],
) -> Option<i64>
    ensures { MatchOption result
        (¬ Assessable (S.Schedule.meaning schedule.now) number (map figures months.now))
        (λ b. Assessable (S.Schedule.meaning schedule.now) number (map figures months.now)
        × (b ≡ outstanding (numbered (S.Schedule.meaning schedule.now) number) number opening.units (map figures months.now) (map units_of bills.now))
        × (nat_abs b ≤ greatest_outstanding)) }
{
    if number >= schedule.count().min(8) {
        return None;
    }
    let assessed = assessments(schedule, number, months)?;
    Some(balance_of(number, opening, assessed.as_slice(), bills))
}

/// What is outstanding of all mechanisms together, in units; None where there are not as many opening balances as mechanisms, or what is
/// outstanding of one is None. With no mechanism it is 0, whatever the months are.
pub fn total<S: Schedule>(
    schedule: &S,
    balances: &Balances,
    months: &[Month],
    bills: &[Rates],
) -> Option<i64>
    ensures { MatchOption result
        (¬ EachLawful (S.Schedule.meaning schedule.now) (length (opening_units balances.now)) (map figures months.now))
        (λ t. EachLawful (S.Schedule.meaning schedule.now) (length (opening_units balances.now)) (map figures months.now)
        × (t ≡ total (S.Schedule.meaning schedule.now) (opening_units balances.now) (map figures months.now) (map units_of bills.now))) }
{
    if !suits(schedule, balances) {
        return None;
    }
    let mut total = 0;
    for (number, opening) in balances.as_slice().iter().enumerate() {
        total += outstanding(schedule, number, *opening, months, bills)?;
    }
    Some(total)
}
