// Figures that stand in a value as numbers of eight bytes.
ghost use Rattle.std.specs.Prelude.{◌≡◌, ℕ, List, [], ◌∷◌};
ghost use Rattle.monthfile.specs.Layout.{source_numbers, energy_numbers, bracket_numbers, sales_numbers};

use month::{Bracket, Energy, Exempt, Sales, Source};

/// Figures that are K numbers, in the order of the file.
pub(crate) trait Entry<const K: usize> {
    ghost numbers: { Self → List ℕ };

    fn of(figures: &[u64; K]) -> Self
        ensures { numbers result ≡ figures.now };

    fn in_order(&self) -> [u64; K]
        ensures { result ≡ numbers self.now };
}

impl Entry<1> for u64 {
    ghost numbers = { λ n. n ∷ [] };

    fn of(&[n]: &[u64; 1]) -> u64 {
        n
    }

    fn in_order(&self) -> [u64; 1] {
        [*self]
    }
}

impl Entry<3> for Source {
    ghost numbers = { source_numbers };

    fn of(&[cost, taken, passed]: &[u64; 3]) -> Source {
        Source {
            cost,
            taken,
            passed,
        }
    }

    fn in_order(&self) -> [u64; 3] {
        [self.cost, self.taken, self.passed]
    }
}

impl Entry<5> for (Energy, Exempt) {
    ghost numbers = { λ e. energy_numbers e.0 e.1 };

    fn of(&[input, substation, feeder, generation, transmission]: &[u64; 5]) -> (Energy, Exempt) {
        let energy = Energy {
            input,
            substation,
            feeder,
        };
        let exempt = Exempt {
            generation,
            transmission,
        };
        (energy, exempt)
    }

    fn in_order(&self) -> [u64; 5] {
        let (energy, exempt) = self;
        [
            energy.input,
            energy.substation,
            energy.feeder,
            exempt.generation,
            exempt.transmission,
        ]
    }
}

impl Entry<3> for Bracket {
    ghost numbers = { bracket_numbers };

    fn of(&[kwh, customers, percent]: &[u64; 3]) -> Bracket {
        Bracket {
            kwh,
            customers,
            percent,
        }
    }

    fn in_order(&self) -> [u64; 3] {
        [self.kwh, self.customers, self.percent]
    }
}

impl Entry<3> for Sales {
    ghost numbers = { sales_numbers };

    fn of(&[nonlifeline, rate, metering]: &[u64; 3]) -> Sales {
        Sales {
            nonlifeline,
            rate,
            metering,
        }
    }

    fn in_order(&self) -> [u64; 3] {
        [self.nonlifeline, self.rate, self.metering]
    }
}
