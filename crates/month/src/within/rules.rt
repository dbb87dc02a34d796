// Questions 7 to 11: whether the figures fit together.
ghost use Rattle.std.specs.Prelude.{◌≡◌};
ghost use Rattle.std.specs.List.{list_all};
ghost use Rattle.fields.specs.Questions.{Asks};
ghost use Rattle.month.specs.Asked.{passed_on_within, energy_fits, sales_fit, rules_asked};
ghost use Rattle.month.specs.Stated.{stated};

use super::WithinLimits;
use super::limits::MAX_CENTAVOS;
use crate::fault::MonthFault::{
    self, CostBelowZero, CostsTooHigh, EnergyInconsistent, PassedOnAboveTaken, SalesInconsistent,
};
use crate::parts::Source;
use crate::tag::Tag;
use fields::ask;

impl Source {
    fn passes_on_within(&self) -> bool
        ensures { result ≡ passed_on_within self.now }
    {
        self.passed <= self.taken
    }
}

// By itself, so that the questions after it have its answer as one fact.
fn all_pass_on_within(sources: &[Source]) -> bool
    ensures { result ≡ list_all passed_on_within sources.now }
{
    sources.iter().all(|source| source.passes_on_within())
}

impl WithinLimits {
    fn energy_fits(&self) -> bool
        ensures { result ≡ energy_fits (stated self.now.statement) }
    {
        let energy = self.statement.energy;
        let exempt = self.statement.exempt;
        2 * (energy.substation + energy.feeder) <= energy.input
            && exempt.generation < energy.input
            && exempt.transmission < energy.input
    }

    fn sales_fit(&self) -> bool
        ensures { result ≡ sales_fit (stated self.now.statement) }
    {
        let input = self.statement.energy.input;
        let exempt = self.statement.exempt;
        let sold = self.sold();
        1 <= self.statement.sales.nonlifeline
            && sold + exempt.generation <= input
            && sold + exempt.transmission <= input
    }

    #[tactic(auto, using(crate::specs::Validity::within_bounded))]
    pub(crate) fn ask_rules(&self) -> Result<(), MonthFault>
        ensures { Asks (rules_asked (stated self.now.statement)) result }
    {
        let sources = self.statement.sources.as_slice();
        let transmission = self.statement.transmission;
        ask(
            all_pass_on_within(sources),
            PassedOnAboveTaken(Tag::Sources),
        )?;
        ask(
            transmission.passes_on_within(),
            PassedOnAboveTaken(Tag::Transmission),
        )?;
        let bought = self.bought();
        ask(bought.cost <= MAX_CENTAVOS, CostsTooHigh(Tag::Sources))?;
        let generation = bought.recoverable(self.statement.pilferage);
        ask(generation.is_some(), CostBelowZero(Tag::Sources))?;
        let transmitted = transmission.recoverable(0);
        ask(transmitted.is_some(), CostBelowZero(Tag::Transmission))?;
        ask(self.energy_fits(), EnergyInconsistent(Tag::Energy))?;
        ask(self.sales_fit(), SalesInconsistent(Tag::Sales))
    }
}
