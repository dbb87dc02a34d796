// Making a month, and looking at what it states.
ghost use Rattle.std.specs.Prelude.{◌≡◌, true, is_ok, MatchResult};
ghost use Rattle.month.specs.Making.{Made, NotMade};
ghost use Rattle.month.specs.Stated.{stated};
ghost use Rattle.month.specs.Valid.{Valid};

use super::Month;
use crate::fault::MonthFault;
use crate::statement::Statement;
use crate::within::WithinLimits;

impl Month {
    /// The month of this statement, unless one of the questions 6 to 11 is answered no.
    pub fn new(statement: Statement) -> Result<Month, MonthFault>
        ensures cases { MatchResult result (λ m. Made statement m) (λ e. NotMade statement e) }
        ensures valid { Valid (stated statement) → is_ok result ≡ true }
    {
        let within = WithinLimits::new(statement)?;
        within.ask_rules()?;
        Ok(Month {
            within,
            bought: within.bought(),
            sales: within.sold(),
        })
    }

    /// What the month states: its figures are valid.
    #[tactic(auto, using(crate::specs::Validity::month_valid))]
    pub fn statement(&self) -> &Statement
        ensures is { result.now ≡ self.now.within.statement }
        ensures valid { Valid (stated result.now) }
    {
        &self.within.statement
    }
}
