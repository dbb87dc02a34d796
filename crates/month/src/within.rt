// A statement whose numbers are within their limits, so that what is worked out from them fits.
ghost use Rattle.std.specs.Prelude.{◌≡◌, false, is_some};
ghost use Rattle.fields.specs.Questions.{first_no};
ghost use Rattle.month.specs.Asked.{limits_asked};
ghost use Rattle.month.specs.Stated.{stated};

use crate::statement::Statement;

mod limits;
mod rules;
mod sums;

/// Question 6 is answered yes: no fault is the first. A ghost field wants a fact with one proof, such as an equation of two truth values.
#[derive(Clone, Copy)]
pub(crate) struct WithinLimits {
    pub(crate) statement: Statement,
    ghost limits: { is_some (first_no (limits_asked (stated statement))) ≡ false },
}
