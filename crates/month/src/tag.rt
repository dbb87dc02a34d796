// The fields of a month file, by what they state.
ghost use Rattle.std.specs.Prelude.{◌≡◌, Some, decimal};
ghost use Rattle.month.specs.Tags.{tag_number};

use std::fmt;

/// Each is headed by a number of its own.
#[derive(Clone, Copy, Debug, PartialEq, Eq)]
pub enum Tag {
    Month = 1,
    Sources = 2,
    Pilferage = 3,
    Transmission = 4,
    Energy = 5,
    Brackets = 6,
    Sales = 7,
}

impl From<Tag> for u8 {
    ghost from_gives = { λ t n. n ≡ tag_number t };

    fn from(tag: Tag) -> u8 {
        tag as u8
    }
}

impl fmt::Display for Tag {
    ghost output = { λ t. Some (decimal (tag_number t)) };

    fn fmt<W: fmt::Write>(&self, f: &mut fmt::Formatter<W>) -> fmt::Result {
        let number = u8::from(*self);
        write!(f, "{number}")
    }
}
