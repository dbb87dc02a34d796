// The limits of rates, quantities and the cap.

/// Up to this rate, in units per kWh, generation, transmission and lifeline find a month fit.
pub(crate) const MAX_FIT_RATE: u64 = 1_000_000;

/// A mechanism's quantity, in kWh, goes up to this where the months can stand.
pub(crate) const MAX_QUANTITY: u64 = 10_000_000;

/// A mechanism's base rate, in units per kWh, goes up to this where the months can stand.
pub(crate) const MAX_BASE_RATE: u64 = 10_000_000;

/// The cap on the feeder loss goes up to this, in hundredths of a percent.
pub(crate) const MAX_CAP: u64 = 5_000;
