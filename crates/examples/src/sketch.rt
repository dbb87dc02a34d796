// Months for the tests.
use bounded::UpTo;
use month::{Bracket, Energy, Exempt, Month, Sales, Source, Statement};
use std::test::Fail;

/// One source and one bracket, no discount on transmission, and no input that is charged nothing.
#[derive(Clone, Copy)]
pub(crate) struct Sketch {
    pub source: Source,
    pub pilferage: u64,
    pub transmission: u64,
    pub energy: Energy,
    pub bracket: Bracket,
    pub sales: Sales,
}

pub(crate) const SAMPLE: Sketch = Sketch {
    source: Source {
        cost: 60_000_000,
        taken: 400_000,
        passed: 0,
    },
    pilferage: 50_000,
    transmission: 12_000_000,
    energy: Energy {
        input: 120_000,
        substation: 2_400,
        feeder: 9_600,
    },
    bracket: Bracket {
        kwh: 8_000,
        customers: 400,
        percent: 50,
    },
    sales: Sales {
        nonlifeline: 100_000,
        rate: 80_000,
        metering: 50_000,
    },
};

impl Sketch {
    pub(crate) fn month(&self) -> Result<Month, Fail> {
        let mut sources: UpTo<Source, 8> = UpTo::new();
        sources.push(self.source)?;
        let mut brackets: UpTo<Bracket, 4> = UpTo::new();
        brackets.push(self.bracket)?;
        Ok(Month::new(Statement {
            month: 1,
            sources,
            pilferage: self.pilferage,
            transmission: Source {
                cost: self.transmission,
                taken: 0,
                passed: 0,
            },
            energy: self.energy,
            exempt: Exempt {
                generation: 0,
                transmission: 0,
            },
            brackets,
            sales: self.sales,
        })?)
    }
}
