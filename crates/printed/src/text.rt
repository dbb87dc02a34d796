// The text of a line.
ghost use Rattle.std.specs.Prelude.{◌≡◌, ◌+◌, ◌*◌, ◌≤◌, ◌∷◌, ◌++◌, map, length};
ghost use Rattle.std.specs.Fmt.{signed_decimal};
ghost use Rattle.arrayvec.specs.ArrayString.{array_string_len};
ghost use Rattle.fields.specs.Words.{refusal_words};
ghost use Rattle.settlement.specs.Settling.{answered};
ghost use Rattle.printed.specs.Lines.{answer_fields, spaced, line_bytes};

use crate::line::Line;
use arrayvec::ArrayString;
use book::Answer;
use fields::Refusal;
use itoa::{Buffer, Integer};
use settlement::Rate;

/// More than any line has: a letter, up to eleven numbers of up to 40 bytes, each after a space, a standing, and the end of the line. So this is the room
/// that is taken for a line before it is known what it tells.
pub(crate) const LONGEST: usize = 512;

// A line while it is written, field after field.
type Text = ArrayString<LONGEST>;

// Appends a field, after one space.
fn put_field(text: &mut Text, field: &str)
    requires { array_string_len text.old + 1 + length field.now ≤ LONGEST }
    ensures appended { text.new.bytes ≡ text.old.bytes ++ 32 ∷ field.now }
    ensures longer { array_string_len text.new ≡ array_string_len text.old + 1 + length field.now }
{
    text.push_str(" ");
    text.push_str(field);
}

// Appends a number, after one space.
fn put_number<I: Integer>(text: &mut Text, number: I)
    requires { array_string_len text.old + 41 ≤ LONGEST }
    ensures appended { text.new.bytes ≡ text.old.bytes ++ 32 ∷ I.text number }
    ensures longer { array_string_len text.new ≤ array_string_len text.old + 41 }
{
    let mut digits = Buffer::new();
    put_field(text, digits.format(number));
}

// Appends the rates, each after one space.
fn put_rates(text: &mut Text, rates: &[Rate])
    requires { array_string_len text.old + 41 * length rates.now ≤ LONGEST }
    ensures appended { text.new.bytes ≡ text.old.bytes ++ spaced (map signed_decimal (map (λ r. r.units) rates.now)) }
    ensures longer { array_string_len text.new ≤ array_string_len text.old + 41 * length rates.now }
{
    for rate in rates {
        put_number(text, rate.units);
    }
}

// Appends the fields of an answer.
fn put_answer(text: &mut Text, month: u16, answer: &Answer)
    requires { array_string_len text.old ≤ 1 }
    ensures appended { text.new.bytes ≡ text.old.bytes ++ spaced (answer_fields month (answered answer.now)) }
    ensures longer { array_string_len text.new ≤ 500 }
{
    put_number(text, month);
    put_rates(text, answer.rates.as_slice());
    put_number(text, answer.closing.total);
    put_number(text, answer.closing.revenue);
    put_field(text, answer.standing.word());
}

// Appends the words of a refusal.
fn put_refusal(text: &mut Text, refusal: &Refusal)
    requires { array_string_len text.old ≤ 1 }
    ensures appended { text.new.bytes ≡ text.old.bytes ++ 32 ∷ refusal_words refusal.now }
    ensures longer { array_string_len text.new ≤ 500 }
{
    put_field(text, "refused");
    put_number(text, refusal.number);
    put_field(text, refusal.layer.word());
    put_number(text, refusal.place);
}

pub(crate) fn text_of(line: &Line) -> Text
    ensures { result.bytes ≡ line_bytes line.now }
{
    let mut text = Text::new();
    text.push_str(line.letter());
    match line {
        Line::Opened(number) => put_number(&mut text, *number),
        Line::Entered(month, answer) | Line::Amended(month, answer) => {
            put_answer(&mut text, *month, answer)
        }
        Line::Refused(_, refusal) => put_refusal(&mut text, refusal),
        Line::NoFrame(at) => put_number(&mut text, *at),
    }
    text.push_str("\n");
    text
}
