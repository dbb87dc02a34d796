// The lines that a run has told.
ghost use Rattle.std.specs.Prelude.{◌≡◌, ◌+◌, ◌<◌, ◌≤◌, ◌++◌, if◌then◌else◌, length, is_ok, vec_capacity, IsOk, OnOk, OnErr};
ghost use Rattle.printed.specs.Lines.{line_bytes, longest, written, room};

use crate::line::Line;
use crate::text::LONGEST;
use std::alloc::AllocError;

/// Bytes, with lines behind them, one after another. Nothing takes a line back, so one that was told stays told.
#[derive(Drop)]
pub struct Lines {
    bytes: Vec<u8>,
}

impl Lines {
    /// These bytes, and no line yet; the room is what they have.
    pub fn behind(before: Vec<u8>) -> Lines
        ensures bytes { written result ≡ before.items }
        ensures room { room result ≡ vec_capacity before }
    {
        Lines { bytes: before }
    }

    /// All that stands, what the lines follow included.
    pub fn as_slice(&self) -> &[u8]
        ensures { result.now ≡ written self.now }
    {
        self.bytes.as_slice()
    }

    /// The same, once no more lines are told.
    pub fn into_bytes(self) -> Vec<u8>
        ensures { result.items ≡ written self }
    {
        let Lines { bytes } = self;
        bytes
    }

    /// Takes room for a line, whatever it will tell.
    pub fn reserve_line(&mut self) -> Result<(), AllocError>
        ensures same { written self.new ≡ written self.old }
        ensures capacity { room self.old ≤ room self.new }
        ensures reserved { OnOk result (length (written self.new) + longest ≤ room self.new) }
        ensures full { OnErr result (room self.new < length (written self.new) + longest) }
    {
        self.bytes.try_reserve(LONGEST)
    }

    /// It fails only where there is no room for the line, so not where there was room for any.
    pub(crate) fn append(&mut self, line: &Line) -> Result<(), AllocError>
        ensures appended { written self.new ≡ (if is_ok result then written self.old ++ line_bytes line.now else written self.old) }
        ensures capacity { room self.old ≤ room self.new }
        ensures full { OnErr result (room self.new < length (written self.new) + length (line_bytes line.now)) }
        ensures succeeds { length (written self.old) + longest ≤ room self.old → IsOk result }
    {
        let mut buffer = [0; 1024];
        let Ok(count) = line.write(&mut buffer) else {
            unreachable()
        };
        self.bytes.try_reserve(count)?;
        self.bytes.extend_from_slice(&buffer[..count])
    }
}
