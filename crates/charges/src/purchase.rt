// What is bought for the members and charged at its average cost.
ghost use Rattle.std.specs.Prelude.{◌≡◌, ℕ, ◌≤◌};
ghost use Rattle.month.specs.Figures.{Figures};
ghost use Rattle.month.specs.Valid.{Valid};
ghost use Rattle.month.specs.View.{figures};

use month::Month;

/// A purchase: its cost in units, and the divisor, which is the input in kWh that bears it.
pub trait Purchase {
    ghost cost: { Self → Figures → ℕ };

    ghost divisor: { Self → Figures → ℕ };

    fn cost(&self, month: &Month) -> u64
        ensures is { result ≡ cost self.now (figures month.now) }
        ensures most { result ≤ 500000000000 };

    fn divisor(&self, month: &Month) -> u64
        ensures is { result ≡ divisor self.now (figures month.now) }
        ensures least { 1 ≤ result };

    ghost divisor_least: { (p : Self) (m : Figures) → Valid m → 1 ≤ divisor p m };
}
