// What came of a frame.
ghost use Rattle.std.specs.Prelude.{◌≡◌, ◌+◌, ◌<◌, ◌≤◌, ◌++◌, Some, None, length, IsOk, OnErr, MatchResult};
ghost use Rattle.book.specs.Duties.{month_of};
ghost use Rattle.printed.specs.Lines.{line_bytes, longest, written, room};
ghost use Rattle.printed.specs.Runs.{line_of, duty_of};

use crate::line::Line;
use crate::lines::Lines;
use book::{Answer, Duty};

/// The line that tells it, and of an accepted entry the duty to file its month. Both are private to this module, and `tell` is the one way out: a month
/// is filed by its duty, so none is filed whose line has not been told. Since it may hold a duty, it is neither `Drop`, `Clone` nor `Copy`.
pub struct Outcome {
    line: Line,
    duty: Option<Duty>,
}

impl Outcome {
    /// Of any frame but an accepted entry.
    pub(crate) fn told(line: Line) -> Outcome
        ensures { result ≡ record { line = line; duty = None } }
    {
        Outcome { line, duty: None }
    }

    pub(crate) fn entered(duty: Duty, answer: Answer) -> Outcome
        ensures { result ≡ record { line = Line.Entered (month_of duty) answer; duty = Some duty } }
    {
        Outcome {
            line: Line::Entered(duty.month(), answer),
            duty: Some(duty),
        }
    }

    /// Appends the line, and then answers the duty. Where memory lacks, the lines are those that there were, and the outcome comes back.
    pub fn tell(self, lines: &mut Lines) -> Result<Option<Duty>, Outcome>
        ensures cases { MatchResult result
            (λ duty. (written lines.new ≡ written lines.old ++ line_bytes (line_of self)) × (duty ≡ duty_of self))
            (λ outcome. (written lines.new ≡ written lines.old) × (outcome ≡ self)) }
        ensures capacity { room lines.old ≤ room lines.new }
        // It fails only where there is no room for the line, so not where there was room for any.
        ensures full { OnErr result (room lines.new < length (written lines.new) + length (line_bytes (line_of self))) }
        ensures succeeds { length (written lines.old) + longest ≤ room lines.old → IsOk result }
    {
        let Outcome { line, duty } = self;
        match lines.append(&line) {
            Ok(()) => Ok(duty),
            Err(_) => Err(Outcome { line, duty }),
        }
    }
}
