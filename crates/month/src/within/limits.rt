// Question 6: whether each number is within its limit.
ghost use Rattle.std.specs.Prelude.{◌≡◌, Bool, ◌&&◌, Some, MatchResult, nat_le};
ghost use Rattle.std.specs.List.{list_all};
ghost use Rattle.fields.specs.Questions.{first_no, Asks};
ghost use Rattle.month.specs.Asked.{source_within, energy_within, exempt_within, bracket_within, sales_within, limits_asked};
ghost use Rattle.month.specs.Stated.{stated};

use super::WithinLimits;
use crate::fault::MonthFault::{self, OutsideLimit};
use crate::parts::{Bracket, Energy, Exempt, Sales, Source};
use crate::statement::Statement;
use crate::tag::Tag;
use fields::ask;

pub(crate) const MAX_CENTAVOS: u64 = 5_000_000_000;

const MAX_KWH: u64 = 10_000_000;

// Customers, the full rate and the metering charge.
const MAX_COUNT: u64 = 1_000_000;

const MAX_PERCENT: u64 = 100;

const MAX_MONTH: u16 = 36;

// Figures that have limits.
trait Limited {
    ghost limited: { Self → Bool };

    fn within(&self) -> bool
        ensures { result ≡ limited self.now };
}

impl Limited for Source {
    ghost limited = { source_within };

    fn within(&self) -> bool {
        self.cost <= MAX_CENTAVOS && self.taken <= MAX_CENTAVOS && self.passed <= MAX_CENTAVOS
    }
}

impl Limited for Energy {
    ghost limited = { energy_within };

    fn within(&self) -> bool {
        self.input <= MAX_KWH && self.substation <= MAX_KWH && self.feeder <= MAX_KWH
    }
}

impl Limited for Exempt {
    ghost limited = { exempt_within };

    fn within(&self) -> bool {
        self.generation <= MAX_KWH && self.transmission <= MAX_KWH
    }
}

impl Limited for Bracket {
    ghost limited = { bracket_within };

    fn within(&self) -> bool {
        self.kwh <= MAX_KWH && self.customers <= MAX_COUNT && self.percent <= MAX_PERCENT
    }
}

impl Limited for Sales {
    ghost limited = { sales_within };

    fn within(&self) -> bool {
        self.nonlifeline <= MAX_KWH && self.rate <= MAX_COUNT && self.metering <= MAX_COUNT
    }
}

fn all_within<X: Limited>(all: &[X]) -> bool
    ensures { result ≡ list_all X.limited all.now }
{
    all.iter().all(|one| one.within())
}

impl Statement {
    fn month_within(&self) -> bool
        ensures { result ≡ (nat_le 1 self.now.month && nat_le self.now.month 36) }
    {
        (1..=MAX_MONTH).contains(&self.month)
    }

    fn energy_within(&self) -> bool
        ensures { result ≡ (energy_within self.now.energy && exempt_within self.now.exempt) }
    {
        self.energy.within() && self.exempt.within()
    }

    // The question for each field.
    fn ask_limits(&self) -> Result<(), MonthFault>
        ensures { Asks (limits_asked (stated self.now)) result }
    {
        let sources = self.sources.as_slice();
        let brackets = self.brackets.as_slice();
        ask(self.month_within(), OutsideLimit(Tag::Month))?;
        ask(all_within(sources), OutsideLimit(Tag::Sources))?;
        ask(self.pilferage <= MAX_CENTAVOS, OutsideLimit(Tag::Pilferage))?;
        ask(self.transmission.within(), OutsideLimit(Tag::Transmission))?;
        ask(self.energy_within(), OutsideLimit(Tag::Energy))?;
        ask(all_within(brackets), OutsideLimit(Tag::Brackets))?;
        ask(self.sales.within(), OutsideLimit(Tag::Sales))
    }
}

impl WithinLimits {
    pub(crate) fn new(statement: Statement) -> Result<WithinLimits, MonthFault>
        ensures { MatchResult result (λ w. w.statement ≡ statement) (λ e. first_no (limits_asked (stated statement)) ≡ Some e) }
    {
        statement.ask_limits()?;
        Ok(WithinLimits { statement })
    }
}
