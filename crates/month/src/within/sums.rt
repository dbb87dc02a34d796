// What a statement's lists add up to.
ghost use Rattle.std.specs.Prelude.{◌≡◌, ◌-◌, ◌≤◌, pos, is_some, IfSome, nat_le};
ghost use Rattle.month.specs.Amounts.{all_bought, gross, credits, recoverable, hundredfold, sold};
ghost use Rattle.month.specs.Bounds.{BoundedSource, BoundedBracket};
ghost use Rattle.month.specs.Stated.{stated};

use super::WithinLimits;
use crate::parts::{Bracket, Sales, Source};

// Units of a ten-thousandth of a peso in a centavo, and half of them.
const UNITS_PER_CENTAVO: u64 = 100;

const UNITS_PER_HALF_CENTAVO: u64 = 50;

impl Source {
    /// In units: the cost less what was recovered, and less half the discount that was kept; nothing where that is below zero.
    pub(crate) fn recoverable(&self, recovered: u64) -> Option<u64>
        requires bounded { BoundedSource self.now }
        requires recovered { recovered ≤ 5000000000 }
        ensures some { is_some result ≡ nat_le (credits self.now recovered) (gross self.now) }
        ensures is { IfSome result (λ n. n ≡ gross self.now - credits self.now recovered) }
        ensures formula { IfSome result (λ n. pos n ≡ recoverable self.now recovered) }
    {
        let gross = UNITS_PER_CENTAVO * self.cost + UNITS_PER_HALF_CENTAVO * self.passed;
        let credits = UNITS_PER_CENTAVO * recovered + UNITS_PER_HALF_CENTAVO * self.taken;
        gross.checked_sub(credits)
    }
}

impl Bracket {
    /// In units: a hundred times the discount.
    pub(crate) fn hundredfold(&self, sales: Sales) -> u64
        requires { BoundedBracket sales self.now }
        ensures { result ≡ hundredfold sales self.now }
    {
        (self.kwh * sales.rate + self.customers * sales.metering) * self.percent
    }
}

impl WithinLimits {
    /// All sources as one.
    pub(crate) fn bought(&self) -> Source
        ensures is { result ≡ all_bought (stated self.now.statement) }
        ensures bounded { BoundedSource result }
    {
        let mut cost = 0;
        let mut taken = 0;
        let mut passed = 0;
        for source in self.statement.sources.as_slice() {
            cost += source.cost;
            taken += source.taken;
            passed += source.passed;
        }
        Source {
            cost,
            taken,
            passed,
        }
    }

    /// All kWh sold.
    pub(crate) fn sold(&self) -> u64
        ensures { result ≡ sold (stated self.now.statement) }
    {
        let mut kwh = self.statement.sales.nonlifeline;
        for bracket in self.statement.brackets.as_slice() {
            kwh += bracket.kwh;
        }
        kwh
    }
}
