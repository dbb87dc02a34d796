// A charge with a price.
ghost use Rattle.std.specs.Prelude.{◌≡◌, ℕ, true};
ghost use Rattle.month.specs.Figures.{Figures};
ghost use Rattle.month.specs.View.{figures};
ghost use Rattle.charges.specs.Meaning.{LawfulPrice, IsPrice, with_price};

use crate::mechanism::Mechanism;
use month::Month;

/// A mechanism whose base rate, then called its price, depends on the month alone and is at most 1,000,000, where months can stand.
pub trait Priced: Mechanism {
    ghost price: { Self → Figures → ℕ };

    /// The base rate of a fit month, whatever months stand before it; it is asked of no other month.
    fn price(&self, month: &Month) -> u64
        ensures { (Self.Mechanism.meaning self.now).fit (figures month.now) ≡ true
            → IsPrice (with_price (Self.Mechanism.meaning self.now) (price self.now)) (figures month.now) result };

    ghost priced: { (k : Self) → LawfulPrice (with_price (Self.Mechanism.meaning k) (price k)) };
}
