// What a client does next, by chance, and the same each time that it is played.
ghost use Rattle.std.specs.Prelude.{◌≡◌, ◌<◌, [], Some, IfOk};
ghost use Rattle.client.specs.Handing.{sent};

use crate::files::{Figures, Flaw, file_of};
use crate::told::Told;
use client::Call;
use rand_core::Rng;
use rand_pcg::Pcg32;
use std::alloc::{AllocError, Global};

#[derive(Drop)]
pub(crate) struct Plan {
    heap: Global,
    chance: Pcg32,
    // How many calls it makes of each book, and how many of them are left.
    calls: u64,
    left: u64,
    // The last month that was entered.
    last: u16,
}

impl Plan {
    pub(crate) fn new(heap: Global, seed: u64, calls: u64) -> Plan {
        Plan {
            heap,
            chance: Pcg32::new(seed, 1),
            calls,
            left: calls,
            last: 0,
        }
    }

    pub(crate) fn note(&mut self, told: &Told) {
        match *told {
            Told::Opened => {
                self.left = self.calls;
                self.last = 0;
            }
            Told::Entered(_, month, _) => self.last = month,
            Told::Amended(_, _, _) | Told::Spent | Told::Refused(_) | Told::Returned(_, _, _) => {}
        }
    }

    /// Whether there is a call left, which is made then.
    pub(crate) fn goes_on(&mut self) -> bool {
        if self.left == 0 {
            return false;
        }
        self.left -= 1;
        true
    }

    /// One of so many numbers from 0 on.
    pub(crate) fn draw(&mut self, count: u64) -> u64
        requires { 0 < count }
        ensures { result < count }
    {
        u64::from(self.chance.next_u32()) % count
    }

    /// Mostly the next month is entered or a month amended that stands, but any month may be sent, and a file with a flaw.
    pub(crate) fn send(&mut self, drawn: u64) -> Result<Call, AllocError>
        ensures { IfOk result (λ call. sent (Some call) ≡ []) }
    {
        let last = u64::from(self.last);
        let month = match drawn {
            10 | 14 => self.draw(40),
            11..=13 => 1 + self.draw(last.max(1)),
            15 => last + self.draw(2),
            _ => last + 1,
        };
        let amends = match drawn {
            11..=14 => true,
            15 => month == last,
            _ => false,
        };
        let flaw = if drawn == 15 {
            Flaw::numbered(self.draw(5))
        } else {
            Flaw::None
        };
        let figures = self.draw_figures();
        let file = file_of(self.heap, month, &figures, flaw)?;
        Ok(if amends {
            Call::Amend(file)
        } else {
            Call::Enter(file)
        })
    }

    fn draw_figures(&mut self) -> Figures {
        let cost = 20_000_000 + self.draw(80_000_000);
        let taken = self.draw(500_000);
        Figures {
            cost,
            taken,
            passed: self.draw(taken + 1),
            pilferage: self.draw(100_000),
            transmission: 6_000_000 + self.draw(12_000_000),
            substation: self.draw(10_000),
            feeder: self.draw(30_000),
            kwh: self.draw(9_000),
            customers: self.draw(500),
            percent: self.draw(101),
            nonlifeline: 60_000 + self.draw(30_000),
        }
    }
}
