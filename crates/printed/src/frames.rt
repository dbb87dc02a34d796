// Reading the frames of a stream.
ghost use Rattle.std.specs.Prelude.{◌≡◌, MatchOption, MatchResult};
ghost use Rattle.printed.specs.Frames.{framed, stream, offset, AtEnd, FrameAt, NoFrameAt};

use crate::frame::Frame;
use crate::no_frame::NoFrame;
use crate::opening::{CHARGES, OpeningFrame};
use fields::{Due, Reader};

const OPENING: Due = Due {
    tag: 15,
    each: 8 * (3 + 2 * CHARGES),
    least: 1,
    most: 1,
};

// Any bytes may be a month file.
const ENTRY: Due = Due {
    tag: 16,
    each: 1,
    least: 0,
    most: 65_535,
};

// As of an entry.
const AMENDMENT: Due = Due { tag: 17, ..ENTRY };

/// A stream, and how far its frames have been read.
#[derive(Drop)]
pub struct Frames<'a> {
    reader: Reader<'a>,
}

impl<'a> Frames<'a> {
    /// The whole stream, none of it read.
    pub fn new(bytes: &'a [u8]) -> Frames<'a>
        ensures stream { stream result ≡ bytes.now }
        ensures start { offset result ≡ 0 }
    {
        Frames {
            reader: Reader::new(bytes),
        }
    }

    /// The next frame, or None at the end of the stream; where no frame is next, nothing is read.
    pub fn read(&mut self) -> Result<Option<Frame<'a>>, NoFrame>
        ensures stream { stream self.new ≡ stream self.old }
        ensures cases { MatchResult result
            (λ next. MatchOption next
            (AtEnd (stream self.old) (offset self.old) (offset self.new))
            (λ frame. FrameAt (stream self.old) (offset self.old) (offset self.new) (framed frame)))
            (λ e. NoFrameAt (stream self.old) (offset self.old) (offset self.new) e) }
    {
        let Some(tag) = self.reader.next_tag() else {
            return Ok(None);
        };
        if tag == OPENING.tag {
            let value = self.reader.field(OPENING)?;
            return Ok(Some(Frame::Opening(OpeningFrame::read(value))));
        }
        if tag == AMENDMENT.tag {
            return Ok(Some(Frame::Amendment(self.reader.field(AMENDMENT)?)));
        }
        // Any tag but that of an entry is refused by the reader.
        Ok(Some(Frame::Entry(self.reader.field(ENTRY)?)))
    }
}
