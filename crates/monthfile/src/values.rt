// The figures in a value.
ghost use Rattle.std.specs.Prelude.{◌≡◌, ◌*◌, ◌%◌, ◌^◌, ◌<◌, ◌≤◌, length};
ghost use Rattle.std.specs.List.{flat_map};
ghost use Rattle.bounded.specs.View.{held};
ghost use Rattle.fields.specs.Bytes.{be};
ghost use Rattle.monthfile.specs.Layout.{bytes_by};

use crate::entry::Entry;
use bounded::UpTo;
use fields::{number, numbers_in};

// The number that a part is.
fn number_in(part: &[u8]) -> u64
    requires { length part.now ≤ 8 }
    ensures bytes { part.now ≡ be (length part.now) result }
    ensures bound { result < 256 ^ length part.now }
{
    let Some(n) = number(part) else { unreachable() };
    n
}

/// The month's number, in two bytes.
pub(crate) fn read_month_number(part: &[u8]) -> u16
    requires { length part.now ≡ 2 }
    ensures { part.now ≡ be 2 result }
{
    number_in(part) as u16
}

/// The figures that a part is.
pub(crate) fn read_entry<const K: usize, E: Entry<K>>(part: &[u8]) -> E
    requires { length part.now ≡ 8 * K }
    ensures { part.now ≡ bytes_by E.numbers result }
{
    let Some(numbers) = numbers_in(part) else {
        unreachable()
    };
    E::of(&numbers)
}

/// Entries of three numbers, one after another.
pub(crate) fn read_list<E: Entry<3> + Copy + Default, const N: usize>(part: &[u8]) -> UpTo<E, N>
    requires whole { length part.now % 24 ≡ 0 }
    requires few { length part.now ≤ 24 * N }
    ensures { part.now ≡ flat_map (bytes_by E.numbers) (held result) }
{
    let mut list = UpTo::new();
    for entry in part.chunks_exact(24) {
        let Ok(()) = list.push(read_entry(entry)) else {
            unreachable()
        };
    }
    list
}
