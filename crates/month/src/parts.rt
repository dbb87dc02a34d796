// The parts of a month's statement: plain numbers, with no rule of their own.

/// What was bought from one supplier, power or transmission, in centavos: its cost, the discount taken on it, and the part of that
/// discount that was passed on.
#[derive(Clone, Copy, Debug, Default, PartialEq, Eq)]
pub struct Source {
    pub cost: u64,
    pub taken: u64,
    pub passed: u64,
}

/// Energy in kWh: the input, the sub-transmission and substation loss, and the feeder loss.
#[derive(Clone, Copy, Debug, Default, PartialEq, Eq)]
pub struct Energy {
    pub input: u64,
    pub substation: u64,
    pub feeder: u64,
}

/// Input in kWh that is charged no generation, and no transmission.
#[derive(Clone, Copy, Debug, Default, PartialEq, Eq)]
pub struct Exempt {
    pub generation: u64,
    pub transmission: u64,
}

/// A lifeline bracket: its kWh, its customers, and its discount in percent.
#[derive(Clone, Copy, Debug, Default, PartialEq, Eq)]
pub struct Bracket {
    pub kwh: u64,
    pub customers: u64,
    pub percent: u64,
}

/// The non-lifeline kWh, the full rate per kWh and the metering charge per customer, both in units of a ten-thousandth of a peso.
#[derive(Clone, Copy, Debug, Default, PartialEq, Eq)]
pub struct Sales {
    pub nonlifeline: u64,
    pub rate: u64,
    pub metering: u64,
}
