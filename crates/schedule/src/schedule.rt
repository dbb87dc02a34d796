// What every schedule is.
ghost use Rattle.std.specs.Prelude.{◌≡◌, List, map, length, All};
ghost use Rattle.month.specs.View.{figures};
ghost use Rattle.charges.specs.Meaning.{Meaning, Lawful};
ghost use Rattle.schedule.specs.Rows.{MayBeAsked, numbered, told};

use month::Month;

/// A row of mechanisms, each lawful, told by number and not by an enum, since any two rows may be joined. What it
/// answers for a number that is not one of its own, or is above 7, is not laid down; no crate here relies on it.
pub trait Schedule {
    ghost meaning: { Self → List Meaning };

    /// How many mechanisms there are; 9 tells any count above 8.
    fn count(&self) -> usize
        ensures { result ≡ told (length (meaning self.now)) };

    /// Whether the mechanism of this number finds the month fit.
    fn is_fit(&self, number: usize, month: &Month) -> bool
        ensures { MayBeAsked (meaning self.now) number → result ≡ (numbered (meaning self.now) number).fit (figures month.now) };

    /// What the month is billed on, in kWh.
    fn quantity(&self, number: usize, month: &Month) -> u64
        ensures { MayBeAsked (meaning self.now) number → result ≡ (numbered (meaning self.now) number).quantity (figures month.now) };

    /// The base rate in units per kWh and the allowance in units, of the last month.
    fn assess(&self, number: usize, months: &[Month]) -> (u64, u64)
        ensures { MayBeAsked (meaning self.now) number → result ≡ (numbered (meaning self.now) number).assessed (map figures months.now) };

    ghost lawful: { (s : Self) → All Lawful (meaning s) };
}
