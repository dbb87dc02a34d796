// What a client is told, without the duty that comes with it.
ghost use Rattle.std.specs.Prelude.{◌≡◌};
ghost use Rattle.client.specs.Handing.{handed};
ghost use Rattle.clientcases.specs.Covering.{optional};

use book::{Answer, BookFault, Duty, Marks, ReturnedDuty};
use client::Outcome;

#[derive(Clone, Copy)]
pub(crate) enum Told {
    Opened,
    /// The marks before the call, and the number of the month.
    Entered(Marks, u16, Answer),
    Amended(Marks, Answer, u16),
    Spent,
    Refused(BookFault),
    /// The numbers of the duty's book and month.
    Returned(BookFault, u64, u16),
}

pub(crate) fn parted(outcome: Outcome) -> (Told, Option<Duty>)
    ensures { optional result.1 ≡ handed outcome }
{
    match outcome {
        Outcome::Opened => (Told::Opened, None),
        Outcome::Entered(marks, answer, duty) => {
            (Told::Entered(marks, duty.month(), answer), Some(duty))
        }
        Outcome::Amended(marks, answer, month) => (Told::Amended(marks, answer, month), None),
        Outcome::Spent => (Told::Spent, None),
        Outcome::Refused(fault) => (Told::Refused(fault), None),
        Outcome::Returned(ReturnedDuty { fault, duty }) => (
            Told::Returned(fault, duty.book(), duty.month()),
            Some(duty),
        ),
    }
}
