// The correction of a rate.
ghost use Rattle.std.specs.Prelude.{◌≡◌, ◌≤◌, nat_abs, pos, ◌+ℤ◌};
ghost use Rattle.settlement.specs.Corrections.{correction, cut, spread_over, unless_barred};

use crate::amounts::{Rate, Spread};
use crate::standing::Standing;
use charges::Assessment;

// A correction is cut to this, above and below zero.
const MAX_CORRECTION: i64 = 1_000_000;

// A balance spread over a divisor, rounded toward zero as `/` does.
fn spread_over(balance: i64, divisor: u64) -> i64
    requires least { 1 ≤ divisor }
    requires most { divisor ≤ 120000000 }
    ensures { result ≡ spread_over balance divisor }
{
    balance / divisor as i64
}

// A correction cut to the most that it may be, above and below zero.
fn cut(correction: i64) -> i64
    ensures value { result ≡ cut correction }
    ensures bound { nat_abs result ≤ 1000000 }
{
    correction.clamp(-MAX_CORRECTION, MAX_CORRECTION)
}

// An upward correction is 0 where it is barred.
fn unless_barred(barred: bool, correction: i64) -> i64
    ensures { result ≡ unless_barred barred correction }
{
    if barred && correction > 0 {
        0
    } else {
        correction
    }
}

// What is added to the base rate: the balance, spread over the quantity of so many months.
fn correction(standing: Standing, barred: bool, spread: Spread, balance: i64, quantity: u64) -> i64
    requires least { 1 ≤ quantity }
    requires most { quantity ≤ 10000000 }
    ensures value { result ≡ correction standing barred spread.months balance quantity }
    ensures bound { nat_abs result ≤ 1000000 }
{
    match standing {
        Standing::Steady => 0,
        Standing::Correcting => {
            unless_barred(barred, cut(spread_over(balance, spread.months * quantity)))
        }
    }
}

/// The rate announced for the coming month, by the last month's base rate and quantity.
pub(crate) fn announced_rate(
    standing: Standing,
    barred: bool,
    spread: Spread,
    balance: i64,
    last: &Assessment,
) -> Rate
    ensures { result.units ≡ pos last.now.answer.0 +ℤ correction standing barred spread.months balance last.now.quantity }
{
    let (base_rate, _) = last.answer;
    let corrected = base_rate as i64 + correction(standing, barred, spread, balance, last.quantity);
    Rate { units: corrected }
}
