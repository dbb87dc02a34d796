// The cases: the client's seed, the openings of its two books, and how many calls it makes.
use book::Opening;

pub(crate) struct Case {
    pub(crate) name: &'static str,
    pub(crate) seed: u64,
    pub(crate) cap: u64,
    /// The numbers of the two books.
    pub(crate) first: u64,
    pub(crate) second: u64,
    pub(crate) spread: u64,
    pub(crate) rates: [u64; 4],
    pub(crate) balances: [i64; 4],
    /// After so many calls the client ends a run, and after so many a run is cut off.
    pub(crate) calls: u64,
    pub(crate) most: usize,
}

impl Case {
    pub(crate) fn opening(&self, number: u64) -> Opening<'_> {
        Opening {
            number,
            spread: self.spread,
            rates: &self.rates,
            balances: &self.balances,
        }
    }
}

pub(crate) const CASES: [Case; 5] = [
    Case {
        name: "ended by the client",
        seed: 1,
        cap: 500,
        first: 7,
        second: 8,
        spread: 6,
        rates: [50_000, 10_000, 8_000, 500],
        balances: [0; 4],
        calls: 40,
        most: 100,
    },
    Case {
        name: "cut off",
        seed: 2,
        cap: 0,
        first: 18_446_744_073_709_551_615,
        second: 0,
        spread: 1,
        rates: [90_000, 40_000, 8_000, 8_000],
        balances: [1_000_000_000, -1_000_000_000, 0, 500],
        calls: 100,
        most: 50,
    },
    Case {
        name: "books of one number",
        seed: 3,
        cap: 5_000,
        first: 7,
        second: 7,
        spread: 12,
        rates: [0; 4],
        balances: [-1_000_000_000_000, 0, 1_000_000_000_000, 0],
        calls: 60,
        most: 60,
    },
    Case {
        name: "full books",
        seed: 4,
        cap: 500,
        first: 1,
        second: 2,
        spread: 3,
        rates: [60_000, 12_000, 9_000, 1_000],
        balances: [10_000_000; 4],
        calls: 150,
        most: 200,
    },
    Case {
        name: "not opened",
        seed: 5,
        cap: 500,
        first: 1,
        second: 2,
        spread: 13,
        rates: [0; 4],
        balances: [0; 4],
        calls: 10,
        most: 10,
    },
];
