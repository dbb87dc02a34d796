// What follows from a month's figures. Costs and the discount are in units of a ten-thousandth of a peso, sales in kWh.
ghost use Rattle.std.specs.Prelude.{◌≡◌, ◌≤◌, pos};
ghost use Rattle.month.specs.Amounts.{generation_cost, generation_formula, transmission_cost, transmission_formula, sold, discount, discount_formula};
ghost use Rattle.month.specs.View.{figures};

use super::Month;
use crate::statement::Statement;

impl Month {
    /// G, the cost of generation to recover.
    pub fn generation_cost(&self) -> u64
        ensures is { result ≡ generation_cost (figures self.now) }
        ensures formula { pos result ≡ generation_formula (figures self.now) }
        ensures most { result ≤ 500000000000 }
    {
        let Some(cost) = self.bought.recoverable(self.within.statement.pilferage) else {
            unreachable()
        };
        cost
    }

    /// T, the cost of transmission to recover.
    #[tactic(auto, using(crate::specs::Validity::month_valid))]
    pub fn transmission_cost(&self) -> u64
        ensures is { result ≡ transmission_cost (figures self.now) }
        ensures formula { pos result ≡ transmission_formula (figures self.now) }
        ensures most { result ≤ 500000000000 }
    {
        let Some(cost) = self.within.statement.transmission.recoverable(0) else {
            unreachable()
        };
        cost
    }

    /// S, all kWh sold.
    #[tactic(auto, using(crate::specs::Validity::month_valid))]
    pub fn sales(&self) -> u64
        ensures is { result ≡ sold (figures self.now) }
        ensures least { 1 ≤ result }
        ensures most { result ≤ 10000000 }
    {
        self.sales
    }

    /// D, the lifeline discount. A bracket of 0 percent is passed over.
    pub fn lifeline_discount(&self) -> u64
        ensures is { result ≡ discount (figures self.now) }
        ensures formula { result ≡ discount_formula (figures self.now) }
        ensures most { result ≤ 44000000000000 }
    {
        let Statement {
            sales,
            brackets,
            ..
        } = &self.within.statement;
        let mut total = 0;
        for bracket in brackets.as_slice() {
            if bracket.percent > 0 {
                let share = bracket.hundredfold(*sales);
                total += share;
            }
        }
        total / 100
    }
}
