// The numbers that a book is opened with.

/// Any figures may stand here: opening asks about them. Rates are in units per kWh and balances in units, by mechanism number.
#[derive(Clone, Copy)]
pub struct Opening<'a> {
    /// Picked by the opener, who gives each book another: a duty knows its book by this number alone.
    pub number: u64,
    /// The months that a correction is spread over.
    pub spread: u64,
    /// The rates that month 1 is billed at.
    pub rates: &'a [u64],
    /// What was outstanding before month 1.
    pub balances: &'a [i64],
}
