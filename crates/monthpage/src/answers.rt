// What the four charges answer for a month by itself, whatever its number, a line for each.
ghost use Rattle.std.specs.Prelude.{◌≡◌, ◌++◌, IfOk, OnOk, string_bytes};
ghost use Rattle.month.specs.View.{figures};
ghost use Rattle.schedule.specs.Four.{four_charges, cap_of};
ghost use Rattle.schedule.specs.Rows.{MayBeAsked, numbered};
ghost use Rattle.monthpage.specs.Lines.{line, text, charge_line, charge_lines};
ghost use Rattle.monthpage.specs.Pages.{all_fit};

use month::{Month, Units};
use schedule::{FourCharges, Schedule};
use std::alloc::AllocError;

// The line of one charge, and whether it finds the month fit. A schedule knows its charges by number alone.
#[tactic(auto, unfolding(crate::specs::Lines::line))]
fn put_answer<S: Schedule>(
    page: &mut String,
    number: usize,
    name: &str,
    charges: &S,
    month: &Month,
) -> Result<bool, AllocError>
    requires { MayBeAsked (S.Schedule.meaning charges.now) number }
    ensures line { OnOk result (string_bytes page.new ≡ string_bytes page.old
        ++ line (charge_line number name.now (numbered (S.Schedule.meaning charges.now) number) (figures month.now))) }
    ensures fit { IfOk result (λ fit. fit ≡ (numbered (S.Schedule.meaning charges.now) number).fit (figures month.now)) }
{
    if !charges.is_fit(number, month) {
        writeln!(page, "charge {number}, {name}: the month is not fit")?;
        return Ok(false);
    }
    let quantity = charges.quantity(number, month);
    let (rate, allowance) = charges.assess(number, &[*month]);
    let allowance = Units(allowance);
    writeln!(
        page,
        "charge {number}, {name}: quantity {quantity} kWh, base rate {rate} units per kWh, allowance {allowance}"
    )?;
    Ok(true)
}

/// The lines of all, and whether each finds the month fit.
pub(crate) fn put_answers(
    page: &mut String,
    charges: &FourCharges,
    month: &Month,
) -> Result<bool, AllocError>
    ensures lines { OnOk result (string_bytes page.new ≡ string_bytes page.old
        ++ text (charge_lines (four_charges (cap_of charges.now)) (figures month.now))) }
    ensures fit { IfOk result (λ fit. fit ≡ all_fit (four_charges (cap_of charges.now)) (figures month.now)) }
{
    let generation = put_answer(page, 0, "generation", charges, month)?;
    let transmission = put_answer(page, 1, "transmission", charges, month)?;
    let loss = put_answer(page, 2, "loss", charges, month)?;
    let lifeline = put_answer(page, 3, "lifeline", charges, month)?;
    Ok(generation && transmission && loss && lifeline)
}
