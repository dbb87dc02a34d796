// The numbers of a frame that opens.
ghost use Rattle.std.specs.Prelude.{◌≡◌, ◌*◌, map, length, All, FitsSigned};
ghost use Rattle.std.specs.Int.{w64};
ghost use Rattle.book.specs.Opening.{given};
ghost use Rattle.fields.specs.Bytes.{eights};
ghost use Rattle.printed.specs.Frames.{WellFormed, given_by, opening_value, twos_complement};
ghost use Rattle.printed.specs.Frames.Framed.{Opens};

use book::Opening;
use fields::numbers_in;

/// As many starting rates and opening balances as the schedule of the four charges has mechanisms.
pub(crate) const CHARGES: usize = 4;

/// Any figures may stand here: opening asks about them. The cap on the feeder loss is in hundredths of a percent.
#[derive(Clone, Copy)]
pub struct OpeningFrame {
    pub cap: u64,
    pub spread: u64,
    pub number: u64,
    pub rates: [u64; CHARGES],
    pub balances: [i64; CHARGES],
}

// The numbers whose two's complements these are.
fn signed<const K: usize>(numbers: &[u64; K]) -> [i64; K]
    ensures count { length result ≡ K }
    ensures of { map twos_complement result ≡ numbers.now }
    ensures fit { All (FitsSigned w64) result }
{
    let mut signed = [0; K];
    for (i, number) in numbers.iter().enumerate() {
        signed[i] = number.cast_signed();
    }
    signed
}

// The numbers of eight bytes that a part is, of the length that it has.
fn numbers_of<const K: usize>(part: &[u8]) -> [u64; K]
    requires { length part.now ≡ 8 * K }
    ensures count { length result ≡ K }
    ensures states { part.now ≡ eights result }
{
    let Some(numbers) = numbers_in(part) else {
        unreachable()
    };
    numbers
}

impl OpeningFrame {
    /// The numbers that a value states.
    pub(crate) fn read(value: &[u8]) -> OpeningFrame
        requires { length value.now ≡ 88 }
        ensures states { value.now ≡ opening_value result.cap (given_by result) }
        ensures formed { WellFormed (Opens result.cap (given_by result)) }
    {
        let (terms, figures) = value.split_at(8 * 3);
        let (rates, balances) = figures.split_at(8 * CHARGES);
        let [cap, spread, number] = numbers_of::<3>(terms);
        OpeningFrame {
            cap,
            spread,
            number,
            rates: numbers_of(rates),
            balances: signed(&numbers_of(balances)),
        }
    }

    /// What a book is opened with.
    pub fn opening(&self) -> Opening<'_>
        ensures { given result ≡ given_by self.now }
    {
        Opening {
            number: self.number,
            spread: self.spread,
            rates: &self.rates,
            balances: &self.balances,
        }
    }
}
