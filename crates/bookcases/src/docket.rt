// A book with the duties of its months that are pending. As a duty cannot be let go, a docket has to be closed.
ghost use Rattle.std.specs.Prelude.{◌≡◌, ◌+◌, [], length, None, IfOk, MatchOption};

use book::{Answer, Book, BookFault, Duty, Mark, Opening, ReturnedDuty};
use schedule::FourCharges;
use std::alloc::{AllocError, Global};
use std::marker::Model;

// In hundredths of a percent.
const CAP: u64 = 500;

// Every docket's book has this number.
const NUMBER: u64 = 1;

pub(crate) struct Docket {
    book: Book<FourCharges>,
    // The last month's is at the end.
    duties: Vec<Duty>,
}

impl Model for Docket {
    ghost use Rattle.std.specs.Prelude.{List};
    ghost use Rattle.bookcases.specs.Kept.{Keeps};
    ghost use Rattle.book.specs.declared.duty.Duty.{Duty};

    // The duties, each owed by the book.
    ghost Value = { List Duty };

    ghost view = { λ d. d.duties.items };

    ghost invariant = { λ d. Keeps d.book.account d.duties.items };
}

pub(crate) fn closed_book(heap: Global) -> anyhow::Result<Book<FourCharges>>
    ensures { IfOk result (λ b. b.account ≡ None) }
{
    Ok(Book::new(heap, FourCharges::new(CAP)?)?)
}

impl Docket {
    #[tactic(auto, using(crate::proofs::Kept::keeps_none))]
    pub(crate) fn new(heap: Global) -> anyhow::Result<Docket> {
        let book = closed_book(heap)?;
        let duties = Vec::new(heap);
        Ok(Docket { book, duties })
    }

    pub(crate) fn book(&self) -> &Book<FourCharges> {
        &self.book
    }

    pub(crate) fn open(
        &mut self,
        spread: u64,
        rates: &[u64],
        balances: &[i64],
    ) -> Result<(), BookFault> {
        self.book.open(&Opening {
            number: NUMBER,
            spread,
            rates,
            balances,
        })
    }

    /// The number of the month that was entered; its duty is kept.
    pub(crate) fn enter(
        &mut self,
        file: &[u8],
        answer: &mut Answer,
    ) -> Result<Result<u16, BookFault>, AllocError> {
        // Before there is a duty that would need a place.
        self.duties.reserve(1)?;
        match self.book.enter(file, answer) {
            Ok(duty) => {
                let month = duty.month();
                self.duties.push_reserved(duty);
                Ok(Ok(month))
            }
            Err(fault) => Ok(Err(fault)),
        }
    }

    /// The number of the month that was amended. No duty is handed out, and those that are kept stay owed.
    pub(crate) fn amend(&mut self, file: &[u8], answer: &mut Answer) -> Result<u16, BookFault> {
        self.book.amend(file, answer)
    }

    /// Files the last month that is pending, and tells its number.
    #[tactic(auto, using(crate::proofs::Kept::keeps_last))]
    pub(crate) fn file_last(&mut self) -> Option<u16>
        ensures { MatchOption result ((self.old ≡ []) × (self.new ≡ [])) (λ _. length self.new + 1 ≡ length self.old) }
    {
        let duty = self.duties.pop()?;
        let month = duty.month();
        match self.book.file(duty) {
            Ok(()) => Some(month),
            // Every duty that is kept is owed.
            Err(_returned) => unreachable(),
        }
    }

    /// Gives the last month up that is pending, and tells its number.
    #[tactic(auto, using(crate::proofs::Kept::keeps_last))]
    pub(crate) fn give_up_last(&mut self) -> Option<u16> {
        let duty = self.duties.pop()?;
        let month = duty.month();
        match self.book.give_up(duty) {
            Ok(()) => Some(month),
            // Every duty that is kept is owed.
            Err(_returned) => unreachable(),
        }
    }

    /// Offers the book a duty that was not kept, to be filed and to be given up, and tells why it is refused each time. A duty that the book would
    /// take for one of its own is not offered.
    pub(crate) fn offer(&mut self, duty: Duty) -> (Option<(BookFault, BookFault)>, Duty)
        ensures { result.1 ≡ duty }
    {
        let pending = self.book.mark(duty.month()) == Some(Mark::Pending);
        if pending && duty.book() == NUMBER {
            return (None, duty);
        }
        let Err(returned) = self.book.file(duty) else {
            // The book owes no such duty.
            unreachable()
        };
        let ReturnedDuty { fault: filed, duty } = returned;
        let Err(returned) = self.book.give_up(duty) else {
            unreachable()
        };
        let ReturnedDuty {
            fault: given_up,
            duty,
        } = returned;
        (Some((filed, given_up)), duty)
    }

    // Files every month that is pending.
    fn file_all(&mut self)
        ensures { self.new ≡ [] }
    {
        while self.file_last().is_some() {}
    }

    /// Another book, closed; the one before is filed.
    #[tactic(auto, using(crate::proofs::Kept::keeps_none))]
    pub(crate) fn begin(&mut self, heap: Global) -> anyhow::Result<()> {
        self.file_all();
        self.book = closed_book(heap)?;
        Ok(())
    }

    pub(crate) fn close(self) {
        let mut docket = self;
        docket.file_all();
        let Docket { book: _, duties } = docket;
        duties.destroy_empty();
    }
}
