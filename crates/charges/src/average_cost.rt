// A purchase charged at its average cost per kWh of the input that bears it.
ghost use Rattle.std.specs.Prelude.{◌≡◌, ◌*◌, ◌/◌, ◌^◌, ◌<◌};
ghost use Rattle.month.specs.View.{figures};
ghost use Rattle.charges.specs.Charges.{average_cost, averaged};
ghost use Rattle.charges.specs.Laws.{average_lawful, average_priced};

use crate::limits::MAX_FIT_RATE;
use crate::mechanism::Mechanism;
use crate::priced::Priced;
use crate::purchase::Purchase;
use month::Month;

#[derive(Clone, Copy)]
pub struct AverageCost<P> {
    pub purchase: P,
}

/// The average, and what the quantity bears of the cost, both rounded down.
pub(crate) fn averaged(cost: u64, divisor: u64, quantity: u64) -> (u64, u64)
    requires some { 0 < divisor }
    requires fits { cost * quantity < 2 ^ 64 }
    ensures { result ≡ averaged cost divisor quantity }
{
    (cost / divisor, cost * quantity / divisor)
}

impl<P: Purchase> AverageCost<P> {
    // The average rounded down, of any month.
    fn average(&self, month: &Month) -> u64
        ensures { result ≡ P.Purchase.cost self.now.purchase (figures month.now) / P.Purchase.divisor self.now.purchase (figures month.now) }
    {
        self.purchase.cost(month) / self.purchase.divisor(month)
    }
}

impl<P: Purchase> Mechanism for AverageCost<P> {
    ghost meaning = { λ s. average_cost (P.Purchase.cost s.purchase) (P.Purchase.divisor s.purchase) };

    ghost lawful = { λ s. average_lawful (P.Purchase.cost s.purchase) (P.Purchase.divisor s.purchase) (P.Purchase.divisor_least s.purchase) };

    fn is_fit(&self, month: &Month) -> bool {
        self.average(month) <= MAX_FIT_RATE
    }

    fn quantity(&self, month: &Month) -> u64 {
        month.sales()
    }

    #[tactic(auto, using(crate::specs::Last::with_last, crate::proofs::Sold::cost_fits))]
    fn assess(&self, months: &[Month]) -> (u64, u64) {
        let Some(month) = months.last() else {
            return (0, 0);
        };
        let cost = self.purchase.cost(month);
        let divisor = self.purchase.divisor(month);
        averaged(cost, divisor, self.quantity(month))
    }
}

impl<P: Purchase> Priced for AverageCost<P> {
    ghost price = { λ s m. P.Purchase.cost s.purchase m / P.Purchase.divisor s.purchase m };

    ghost priced = { λ s. average_priced (P.Purchase.cost s.purchase) (P.Purchase.divisor s.purchase) };

    #[tactic(auto, using(crate::specs::Laws::average_price))]
    fn price(&self, month: &Month) -> u64 {
        self.average(month)
    }
}
