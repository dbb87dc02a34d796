// Writing a month's file into a lent buffer.
ghost use Rattle.std.specs.Prelude.{◌≡◌, ◌+◌, ◌*◌, ◌≤◌, ◌++◌, length, IfOk, MatchResult};
ghost use Rattle.std.specs.List.{flat_map};
ghost use Rattle.arrayvec.specs.ArrayVec.{array_vec_len};
ghost use Rattle.fields.specs.Bytes.{field_of};
ghost use Rattle.fields.specs.Room.{Wrote, Short};
ghost use Rattle.month.specs.Stated.{stated};
ghost use Rattle.month.specs.Tags.{tag_number};
ghost use Rattle.month.specs.View.{figures};
ghost use Rattle.monthfile.specs.Layout.{bytes_by, file_of};
ghost use Rattle.monthfile.specs.Writing.{WroteBack};

use crate::entry::Entry;
use arrayvec::ArrayVec;
use fields::{BigEndian, ShortBuffer, ask_room, head, put};
use month::{Month, Statement, Tag};

// The longest file, of eight sources and four brackets: 5 + 195 + 11 + 27 + 43 + 99 + 27 bytes.
const LONGEST: usize = 407;

// A month file while it is written, field after field.
type FileBytes = ArrayVec<u8, LONGEST>;

// Appends bytes for which there is room.
fn append(file: &mut FileBytes, bytes: &[u8])
    requires { array_vec_len file.old + length bytes.now ≤ LONGEST }
    ensures { file.new.items ≡ file.old.items ++ bytes.now }
{
    let Ok(()) = file.try_extend_from_slice(bytes) else {
        unreachable()
    };
}

// Appends the field of these entries.
fn put_field<const K: usize, E: Entry<K>>(file: &mut FileBytes, tag: Tag, entries: &[E])
    requires { array_vec_len file.old + 3 + 8 * (K * length entries.now) ≤ LONGEST }
    ensures longer { array_vec_len file.new ≡ array_vec_len file.old + 3 + 8 * (K * length entries.now) }
    ensures appended { file.new.items ≡ file.old.items ++ field_of (tag_number tag) (flat_map (bytes_by E.numbers) entries.now) }
{
    append(file, &head(u8::from(tag), 8 * (K * entries.len()) as u16));
    for entry in entries {
        for n in entry.in_order() {
            append(file, &n.be_bytes());
        }
    }
}

// The file of the statement.
fn file_of(statement: &Statement) -> FileBytes
    ensures { result.items ≡ file_of (stated statement.now) }
{
    let mut file = FileBytes::new();
    append(&mut file, &head(u8::from(Tag::Month), 2));
    append(&mut file, &statement.month.be_bytes());
    put_field(&mut file, Tag::Sources, statement.sources.as_slice());
    put_field(&mut file, Tag::Pilferage, &[statement.pilferage]);
    put_field(&mut file, Tag::Transmission, &[statement.transmission]);
    put_field(
        &mut file,
        Tag::Energy,
        &[(statement.energy, statement.exempt)],
    );
    put_field(&mut file, Tag::Brackets, statement.brackets.as_slice());
    put_field(&mut file, Tag::Sales, &[statement.sales]);
    file
}

/// Fills the start of the buffer, which is lent, with the month's file and answers its length; a short buffer is refused and left as it was.
pub fn write_month(month: &Month, buffer: &mut [u8]) -> Result<usize, ShortBuffer>
    ensures cases { MatchResult result (λ n. Wrote buffer.old buffer.new n (file_of (figures month.now))) (λ e. Short buffer.old buffer.new e) }
    ensures gives_back { IfOk result (λ n. WroteBack month.now buffer.new n) }
{
    ask_room(buffer)?;
    let file = file_of(month.statement());
    let Some(length) = put(buffer, 0, file.as_slice()) else {
        unreachable()
    };
    Ok(length)
}
