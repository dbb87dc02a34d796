// A line of the printed run.
ghost use Rattle.std.specs.Prelude.{◌≡◌, ◌≤◌, IfOk, MatchResult};
ghost use Rattle.fields.specs.Room.{Wrote, Short};
ghost use Rattle.printed.specs.Lines.{letter, line_bytes, longest, OneLine};
ghost use Rattle.printed.specs.Numerals.{NumbersReadBack};

use crate::call::Call;
use crate::text::text_of;
use book::Answer;
use fields::{Refusal, ShortBuffer, ask_room, put};

/// What is told of a frame, or of the offset where none begins.
#[derive(Clone, Copy)]
pub enum Line {
    /// The number of the book.
    Opened(u64),
    /// The number of the month, and the book's answer.
    Entered(u16, Answer),
    /// The number of the month that was replaced, and the book's answer.
    Amended(u16, Answer),
    Refused(Call, Refusal),
    /// The offset in the stream where a frame was due.
    NoFrame(usize),
}

impl Line {
    /// What the line begins with.
    pub fn letter(&self) -> &'static str
        ensures { result.now ≡ letter self.now }
    {
        match *self {
            Line::Opened(_) => Call::Opening.letter(),
            Line::Entered(_, _) => Call::Entry.letter(),
            Line::Amended(_, _) => Call::Amendment.letter(),
            Line::Refused(call, _) => call.letter(),
            Line::NoFrame(_) => "X",
        }
    }

    /// Fills the start of the lent buffer with the line, and answers how many bytes it has; a short buffer is refused and left as it was.
    #[tactic(auto, using(crate::proofs::Numerals::numbers_read_back, crate::proofs::OneLine::one_line))]
    pub fn write(&self, buffer: &mut [u8]) -> Result<usize, ShortBuffer>
        ensures cases { MatchResult result (λ n. Wrote buffer.old buffer.new n (line_bytes self.now)) (λ e. Short buffer.old buffer.new e) }
        // No line is longer, whatever it tells.
        ensures no_longer { IfOk result (λ n. n ≤ longest) }
        // Laws of these bytes and of the decimals in them; they ask nothing of this body.
        ensures numbers { NumbersReadBack }
        ensures one_line { OneLine (line_bytes self.now) }
    {
        ask_room(buffer)?;
        let text = text_of(self);
        let Some(length) = put(buffer, 0, text.as_str().as_bytes()) else {
            unreachable()
        };
        Ok(length)
    }
}
