// A client that does what its plan says.
ghost use Rattle.std.specs.Prelude.{◌≡◌, ℕ, ◌+◌, ◌≤◌, [], length};
ghost use Rattle.client.specs.Handing.{sent};
ghost use Rattle.clientcases.specs.Covering.{optional, among, Covered, MakesNone};

use crate::ending::let_go;
use crate::keeper::Keeper;
use crate::plan::Plan;
use crate::told::{Told, parted};
use book::{Book, Duty};
use client::{Call, Client, Outcome};
use schedule::FourCharges;
use std::alloc::{AllocError, Global};

pub(crate) struct Erratic {
    plan: Plan,
    // Those of a book that it called before are among them.
    duties: Vec<Duty>,
    told: Vec<Told>,
    // Whether memory lacked, which ends its runs.
    lacks: bool,
}

impl Client<FourCharges> for Erratic {
    // Nothing is said of which calls it picks.
    ghost answers = { λ before row told after call. MakesNone before.duties.items told.outcome after.duties.items call };

    // It does not read the book.
    fn next(&mut self, outcome: Outcome, _book: &Book<FourCharges>) -> Option<Call> {
        let (told, duty) = parted(outcome);
        self.plan.note(&told);
        if self.told.push(told).is_err() {
            self.lacks = true;
        }
        if let Some(duty) = duty {
            // Where memory lacks for it, it is sent on.
            if let Err(failed) = self.duties.push(duty) {
                return Some(Call::File(failed.value));
            }
        }
        self.choose()
    }
}

impl Keeper for Erratic {
    ghost keeps = { λ client. client.duties.items };

    ghost makes_none = { λ before row told after call answered. answered };
}

impl Erratic {
    pub(crate) fn new(heap: Global, seed: u64, calls: u64) -> Erratic
        ensures { result.duties.items ≡ [] }
    {
        Erratic {
            plan: Plan::new(heap, seed, calls),
            duties: Vec::new(heap),
            told: Vec::new(heap),
            lacks: false,
        }
    }

    fn held(&self) -> usize
        ensures { result ≡ length self.now.duties.items }
    {
        self.duties.len()
    }

    // One of its duties.
    fn take(&mut self) -> Option<Duty>
        ensures { (book month : ℕ) → among book month (optional result) + among book month self.new.duties.items ≡ among book month self.old.duties.items }
    {
        let held = self.held();
        if held == 0 {
            return None;
        }
        let place = self.plan.draw(held as u64) as usize;
        Some(self.duties.swap_remove(place))
    }

    fn choose(&mut self) -> Option<Call>
        ensures { (book month : ℕ) → among book month (sent result) + among book month self.new.duties.items ≤ among book month self.old.duties.items }
    {
        if self.lacks || !self.plan.goes_on() {
            return None;
        }
        let drawn = self.plan.draw(16);
        if drawn < 4
            && let Some(duty) = self.take()
        {
            return Some(if drawn < 3 {
                Call::File(duty)
            } else {
                Call::GiveUp(duty)
            });
        }
        match self.plan.send(drawn) {
            Ok(call) => Some(call),
            Err(AllocError) => {
                self.lacks = true;
                None
            }
        }
    }

    /// Gives up the duties that are left, and hands over what it was told.
    pub(crate) fn close(
        self,
        book: &mut Book<FourCharges>,
        other: &mut Book<FourCharges>,
    ) -> Result<Vec<Told>, AllocError>
        requires { Covered self.duties.items book.old.account other.old.account }
    {
        let Erratic {
            plan: _,
            mut duties,
            told,
            lacks,
        } = self;
        while let Some(duty) = duties.pop() {
            let_go(duty, book, other);
        }
        duties.destroy_empty();
        if lacks {
            return Err(AllocError);
        }
        Ok(told)
    }
}
