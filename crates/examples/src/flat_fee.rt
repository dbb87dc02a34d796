// A mechanism of the tests' own: every kWh sold at one rate.
ghost use Rattle.std.specs.Prelude.{◌≤◌};
ghost use Rattle.examples.specs.FlatFees.{flat_fee, flat_fee_lawful, flat_fee_priced};

use charges::{Mechanism, Priced};
use month::Month;

#[derive(Clone, Copy)]
pub(crate) struct FlatFee {
    rate: u64,
    ghost limit: { rate ≤ 1000000 },
}

impl FlatFee {
    pub(crate) fn seven() -> FlatFee {
        FlatFee { rate: 7 }
    }
}

impl Mechanism for FlatFee {
    ghost meaning = { λ s. flat_fee s.rate };

    ghost lawful = { λ s. flat_fee_lawful s.rate s.limit };

    fn is_fit(&self, _month: &Month) -> bool {
        true
    }

    fn quantity(&self, month: &Month) -> u64 {
        month.sales()
    }

    #[tactic(auto, using(charges::specs::Last::with_last))]
    fn assess(&self, months: &[Month]) -> (u64, u64) {
        let Some(month) = months.last() else {
            return (0, 0);
        };
        (self.rate, self.rate * month.sales())
    }
}

impl Priced for FlatFee {
    ghost price = { λ s _. s.rate };

    ghost priced = { λ s. flat_fee_priced s.rate s.limit };

    #[tactic(auto, using(charges::specs::Last::last_answered))]
    fn price(&self, _month: &Month) -> u64 {
        self.rate
    }
}
