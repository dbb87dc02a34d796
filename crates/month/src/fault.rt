// Why a month is refused: a fault of a field inside one of the file inside one of the month.
ghost use Rattle.std.specs.Prelude.{◌≡◌, Some};
ghost use Rattle.month.specs.Refusals.{file_refusal, month_refusal};
ghost use Rattle.month.specs.Words.{file_sentence, month_sentence, limit_words, cost_words};
ghost use Rattle.month.specs.declared.fault.FileFault.TheVariants.{Field};
ghost use Rattle.month.specs.declared.fault.MonthFault.TheVariants.{File};

use crate::tag::Tag;
use fields::{FieldFault, Layer, Refusal};
use std::error::Error;
use std::fmt;

#[derive(Clone, Copy, Debug, PartialEq, Eq)]
pub enum FileFault {
    /// A due field cannot be read.
    Field(FieldFault),
    /// Bytes follow the last field, from this offset on.
    GoesOn(usize),
}

/// All but the first hold the tag of the field that they are told of.
#[derive(Clone, Copy, Debug, PartialEq, Eq)]
pub enum MonthFault {
    /// The bytes are no month file.
    File(FileFault),
    /// A number is outside its limit.
    OutsideLimit(Tag),
    /// A discount passed on is above the discount taken.
    PassedOnAboveTaken(Tag),
    /// The source costs sum to more than a single cost may be.
    CostsTooHigh(Tag),
    /// The cost to recover is below zero.
    CostBelowZero(Tag),
    /// More than half the input is lost, or none of it is charged generation, or transmission.
    EnergyInconsistent(Tag),
    /// Nothing is sold at the full rate, or more is sold than the input that is charged.
    SalesInconsistent(Tag),
}

impl From<FileFault> for Refusal {
    ghost from_gives = { λ e r. r ≡ file_refusal e };

    fn from(fault: FileFault) -> Refusal {
        match fault {
            FileFault::Field(fault) => Refusal::from(fault),
            FileFault::GoesOn(place) => Refusal {
                number: 5,
                layer: Layer::File,
                place,
            },
        }
    }
}

impl From<MonthFault> for Refusal {
    ghost from_gives = { λ e r. r ≡ month_refusal e };

    fn from(fault: MonthFault) -> Refusal {
        let (number, tag) = match fault {
            MonthFault::File(fault) => return Refusal::from(fault),
            MonthFault::OutsideLimit(tag) => (6, tag),
            MonthFault::PassedOnAboveTaken(tag) => (7, tag),
            MonthFault::CostsTooHigh(tag) => (8, tag),
            MonthFault::CostBelowZero(tag) => (9, tag),
            MonthFault::EnergyInconsistent(tag) => (10, tag),
            MonthFault::SalesInconsistent(tag) => (11, tag),
        };
        Refusal {
            number,
            layer: Layer::Month,
            place: usize::from(u8::from(tag)),
        }
    }
}

impl From<FieldFault> for FileFault {
    ghost from_gives = { λ e r. r ≡ Field e };

    fn from(e: FieldFault) -> FileFault {
        FileFault::Field(e)
    }
}

impl From<FileFault> for MonthFault {
    ghost from_gives = { λ e r. r ≡ File e };

    fn from(e: FileFault) -> MonthFault {
        MonthFault::File(e)
    }
}

// The limits of the numbers in a field.
fn limits_of(tag: Tag) -> &'static str
    ensures { result.now ≡ limit_words tag }
{
    match tag {
        Tag::Month => "the month is 1 to 36",
        Tag::Energy => "energy goes up to 10000000 kWh",
        Tag::Brackets => "a bracket has up to 10000000 kWh, 1000000 customers and 100 percent",
        Tag::Sales => "N goes up to 10000000 kWh, R and M go up to 1000000 units",
        Tag::Sources | Tag::Pilferage | Tag::Transmission => "amounts go up to 5000000000 centavos",
    }
}

// The cost that is recovered by a field.
fn cost_of(tag: Tag) -> &'static str
    ensures { result.now ≡ cost_words tag }
{
    match tag {
        Tag::Sources => "The cost of generation G",
        _ => "The cost of transmission T",
    }
}

impl fmt::Display for FileFault {
    ghost output = { λ e. Some (file_sentence e) };

    fn fmt<W: fmt::Write>(&self, f: &mut fmt::Formatter<W>) -> fmt::Result {
        match *self {
            FileFault::Field(fault) => write!(f, "{fault}"),
            FileFault::GoesOn(at) => {
                write!(f, "The file goes on at byte {at}, after its last field.")
            }
        }
    }
}

impl fmt::Display for MonthFault {
    ghost output = { λ e. Some (month_sentence e) };

    fn fmt<W: fmt::Write>(&self, f: &mut fmt::Formatter<W>) -> fmt::Result {
        match *self {
            MonthFault::File(fault) => write!(f, "{fault}"),
            MonthFault::OutsideLimit(tag) => {
                let limits = limits_of(tag);
                write!(f, "A number in field {tag} is outside its limit: {limits}.")
            }
            MonthFault::PassedOnAboveTaken(tag) => {
                write!(
                    f,
                    "In field {tag} a discount passed on is above the discount taken."
                )
            }
            MonthFault::CostsTooHigh(tag) => {
                write!(
                    f,
                    "The source costs in field {tag} sum to more than 5000000000 centavos."
                )
            }
            MonthFault::CostBelowZero(tag) => {
                let cost = cost_of(tag);
                write!(f, "{cost} is below zero.")
            }
            MonthFault::EnergyInconsistent(tag) => {
                write!(
                    f,
                    "In field {tag} A + F is more than half of I, or X or Y is not below I."
                )
            }
            MonthFault::SalesInconsistent(tag) => {
                write!(
                    f,
                    "In field {tag} N is 0, or all sales S are more than I - X or I - Y."
                )
            }
        }
    }
}

impl Error for FileFault {}

impl Error for MonthFault {}
