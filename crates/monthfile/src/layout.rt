// The seven fields of a month file, each value in place.
ghost use Rattle.std.specs.Prelude.{◌≡◌, Some, MatchResult};
ghost use Rattle.fields.specs.Questions.{first_no};
ghost use Rattle.month.specs.Tags.{tag_number};
ghost use Rattle.monthfile.specs.Questions.{dues, file_asked};
ghost use Rattle.monthfile.specs.Values.{MadeOf};

use fields::{Due, Reader};
use month::{FileFault, Tag};

// The due field of this tag: from `least` to `most` parts of `each` bytes.
fn due(tag: Tag, each: usize, least: usize, most: usize) -> Due
    ensures { result ≡ record { tag = tag_number tag; each = each; least = least; most = most } }
{
    Due {
        tag: u8::from(tag),
        each,
        least,
        most,
    }
}

fn due_fields() -> [Due; 7]
    ensures { result ≡ dues }
{
    [
        due(Tag::Month, 2, 1, 1),
        due(Tag::Sources, 24, 1, 8),
        due(Tag::Pilferage, 8, 1, 1),
        due(Tag::Transmission, 24, 1, 1),
        due(Tag::Energy, 40, 1, 1),
        due(Tag::Brackets, 24, 0, 4),
        due(Tag::Sales, 24, 1, 1),
    ]
}

/// The values of the fields, in the order of their tags.
#[derive(Clone, Copy)]
pub(crate) struct Values<'a> {
    pub month: &'a [u8],
    pub sources: &'a [u8],
    pub pilferage: &'a [u8],
    pub transmission: &'a [u8],
    pub energy: &'a [u8],
    pub brackets: &'a [u8],
    pub sales: &'a [u8],
}

/// The values of a file that is made of these fields and nothing else.
pub(crate) fn read_values<'a>(file: &'a [u8]) -> Result<Values<'a>, FileFault>
    ensures { MatchResult result
        (λ v. MadeOf file.now v.month.now v.sources.now v.pilferage.now v.transmission.now v.energy.now v.brackets.now v.sales.now)
        (λ e. first_no (file_asked file.now) ≡ Some e) }
{
    let mut reader = Reader::new(file);
    // Each is replaced below, by its index: no proof knows what an `iter_mut` under a `zip` wrote.
    let mut values = [file; 7];
    for (i, due) in due_fields().iter().enumerate() {
        values[i] = reader.field(*due)?;
    }
    if let Some(at) = reader.next_offset() {
        return Err(FileFault::GoesOn(at));
    }
    let [
        month,
        sources,
        pilferage,
        transmission,
        energy,
        brackets,
        sales,
    ] = values;
    Ok(Values {
        month,
        sources,
        pilferage,
        transmission,
        energy,
        brackets,
        sales,
    })
}
