// Amounts as they are told.
ghost use Rattle.std.specs.Prelude.{Some};
ghost use Rattle.month.specs.UnitWords.{units_words};

use std::fmt;

/// An amount in units of a ten-thousandth of a peso, told in pesos too.
#[derive(Clone, Copy, Debug, PartialEq, Eq)]
pub struct Units(pub u64);

impl fmt::Display for Units {
    ghost output = { λ u. Some (units_words u) };

    fn fmt<W: fmt::Write>(&self, f: &mut fmt::Formatter<W>) -> fmt::Result {
        let units = self.0;
        let pesos = units / 10_000;
        let rest = units % 10_000;
        write!(f, "{units} units = {pesos}.{rest:04} pesos")
    }
}
