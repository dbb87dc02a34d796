// What is known of the clients of this program.
ghost use Rattle.std.specs.Prelude.{List, Option};
ghost use Rattle.charges.specs.Meaning.{Meaning};
ghost use Rattle.book.specs.declared.duty.Duty.{Duty};
ghost use Rattle.client.specs.Telling.{Told};
ghost use Rattle.client.specs.declared.call.Call.{Call};
ghost use Rattle.clientcases.specs.Covering.{MakesNone};

use client::Client;
use schedule::FourCharges;

/// A client that makes no duty of its own.
pub(crate) trait Keeper: Client<FourCharges> {
    // The duties that it keeps from one call to the next.
    ghost keeps: { Self → List Duty };

    ghost makes_none: { (before : Self) (row : List Meaning) (told : Told) (after : Self) (call : Option Call) → Self.answers before row told after call
        → MakesNone (keeps before) told.outcome (keeps after) call };
}
