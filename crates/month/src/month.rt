// A month that passed every question, and keeps those facts as long as it exists.
ghost use Rattle.std.specs.Prelude.{◌≡◌, false, is_some};
ghost use Rattle.fields.specs.Questions.{first_no};
ghost use Rattle.month.specs.Amounts.{all_bought, sold};
ghost use Rattle.month.specs.Asked.{rules_asked};
ghost use Rattle.month.specs.Stated.{stated};

use crate::parts::Source;
use crate::within::WithinLimits;

mod amounts;
mod making;

/// Question 6, and questions 7 to 11, are answered yes. Contracts see it through `figures`: an `impl Model` of a `Copy` struct has to give
/// all fields back, and figures do not tell what stands past the end of a list.
#[derive(Clone, Copy)]
pub struct Month {
    within: WithinLimits,
    // All sources as one, and all kWh sold: added up once, for all that is worked out of the month.
    bought: Source,
    sales: u64,
    ghost rules: { is_some (first_no (rules_asked (stated within.statement))) ≡ false },
    ghost all_bought: { bought ≡ all_bought (stated within.statement) },
    ghost all_sold: { sales ≡ sold (stated within.statement) },
}
