// What a call came to.
use book::{Answer, BookFault, Duty, Marks, ReturnedDuty};

/// What the client is told: with an accepted file the marks that were read before the call, and the answer.
pub enum Outcome {
    /// The book was opened, and no call was made yet.
    Opened,
    Entered(Marks, Answer, Duty),
    /// With the number of the month that was replaced.
    Amended(Marks, Answer, u16),
    /// The duty was spent.
    Spent,
    /// The file was refused.
    Refused(BookFault),
    /// The duty was refused, and is back.
    Returned(ReturnedDuty),
}
