// What every pass-through charge is.
ghost use Rattle.std.specs.Prelude.{◌≡◌, map};
ghost use Rattle.month.specs.View.{figures};
ghost use Rattle.charges.specs.Meaning.{Meaning, Lawful};

use month::Month;

/// One pass-through charge. Asking leaves it as it is, and every month has an answer, fit or not.
pub trait Mechanism {
    ghost meaning: { Self → Meaning };

    /// Whether the month may be charged for, by that month alone.
    fn is_fit(&self, month: &Month) -> bool
        ensures { result ≡ (meaning self.now).fit (figures month.now) };

    /// What the month is billed on, in kWh: 1 to 10,000,000 where the months can stand.
    fn quantity(&self, month: &Month) -> u64
        ensures { result ≡ (meaning self.now).quantity (figures month.now) };

    /// The base rate in units per kWh and the allowance in units, of the last month, as a pair: they are answered together.
    fn assess(&self, months: &[Month]) -> (u64, u64)
        ensures { result ≡ (meaning self.now).assessed (map figures months.now) };

    ghost lawful: { (k : Self) → Lawful (meaning k) };
}
