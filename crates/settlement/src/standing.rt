// Whether a correction is in force.
ghost use Rattle.std.specs.Prelude.{◌≡◌, Some};
ghost use Rattle.settlement.specs.Standings.{judged};
ghost use Rattle.settlement.specs.Words.{standing_word};

use crate::band::Band;
use std::fmt;

/// While a book is correcting, a correction is in force. It begins steady.
#[derive(Clone, Copy, Debug, PartialEq, Eq)]
pub enum Standing {
    Steady,
    Correcting,
}

impl Standing {
    /// A total beyond its band begins a correction, one within ends it, and between the two the standing stays.
    pub fn judge(&mut self, band: Band)
        ensures { self.new ≡ judged self.old band }
    {
        match (*self, band) {
            (Standing::Steady, Band::Beyond) => *self = Standing::Correcting,
            (Standing::Correcting, Band::Within) => *self = Standing::Steady,
            (Standing::Steady, Band::Within | Band::Between)
            | (Standing::Correcting, Band::Beyond | Band::Between) => {}
        }
    }

    /// As it is printed.
    pub fn word(self) -> &'static str
        ensures { result.now ≡ standing_word self }
    {
        match self {
            Standing::Steady => "steady",
            Standing::Correcting => "correcting",
        }
    }
}

impl fmt::Display for Standing {
    ghost output = { λ s. Some (standing_word s) };

    fn fmt<W: fmt::Write>(&self, f: &mut fmt::Formatter<W>) -> fmt::Result {
        f.write_str(self.word())
    }
}
