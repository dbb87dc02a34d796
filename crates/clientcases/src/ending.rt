// How runs end, and where the duties go that they leave.
ghost use Rattle.std.specs.Prelude.{[], ◌∷◌, List};
ghost use Rattle.book.specs.declared.duty.Duty.{Duty};
ghost use Rattle.clientcases.specs.Covering.{Covered};

use crate::keeper::Keeper;
use crate::told::{Told, parted};
use book::{Book, BookFault, Duty, Opening, ReturnedDuty};
use client::run;
use schedule::FourCharges;

#[derive(Clone, Copy)]
pub(crate) enum Ending {
    NotOpened(BookFault),
    ByTheClient,
    /// What the last call came to.
    CutOff(Told),
}

/// Gives the duty up with the one book, or with the other where that refuses it.
pub(crate) fn let_go(duty: Duty, one: &mut Book<FourCharges>, other: &mut Book<FourCharges>)
    requires { Covered (duty ∷ []) one.old.account other.old.account }
    ensures { (ds : List Duty) → Covered (duty ∷ ds) one.old.account other.old.account → Covered ds one.new.account other.new.account }
{
    let Err(returned) = one.give_up(duty) else {
        return;
    };
    let ReturnedDuty { fault: _, duty } = returned;
    match other.give_up(duty) {
        Ok(()) => {}
        // Its month is pending in one of them.
        Err(_returned) => unreachable(),
    }
}

/// Runs the client on the book, and tells how that ended. A duty that the client was not told of is given up.
pub(crate) fn run_through<C: Keeper>(
    opening: &Opening,
    most: usize,
    book: &mut Book<FourCharges>,
    other: &mut Book<FourCharges>,
    client: &mut C,
) -> Ending
    requires { Covered (C.keeps client.old) book.old.account other.old.account }
    ensures { Covered (C.keeps client.new) book.new.account other.new.account }
{
    match run(book, opening, client, most) {
        Err(fault) => Ending::NotOpened(fault),
        Ok(None) => Ending::ByTheClient,
        Ok(Some(untold)) => {
            let (told, duty) = parted(untold);
            if let Some(duty) = duty {
                let_go(duty, book, other);
            }
            Ending::CutOff(told)
        }
    }
}
