// Writing a standing month.
ghost use Rattle.std.specs.Prelude.{◌≡◌, MatchResult};
ghost use Rattle.std.specs.Option.{option_map};
ghost use Rattle.month.specs.View.{figures};
ghost use Rattle.book.specs.Reading.{month_told};
ghost use Rattle.book.specs.Writing.{WroteMonth, NotWritten};

use super::Book;
use crate::fault::BookFault;
use crate::places::of_month;
use month::Month;
use monthfile::write_month;
use schedule::Schedule;

impl<S: Schedule> Book<S> {
    /// Fills the start of the lent buffer with the month's file, and answers its length. Refused by questions 12 and 16, and then the buffer is as it was.
    #[tactic(auto, using(crate::proofs::Written::wrote_month, crate::proofs::Written::not_written))]
    pub fn write(&self, month: u16, buffer: &mut [u8]) -> Result<usize, BookFault>
        ensures { MatchResult result
            (λ n. WroteMonth self.now.account month buffer.old buffer.new n)
            (λ e. NotWritten self.now.account month buffer.old buffer.new e) }
    {
        let Some(standing) = self.standing_month(month) else {
            return Err(BookFault::WrongMonth(month));
        };
        Ok(write_month(&standing, buffer)?)
    }

    // The month that stands under this number.
    #[tactic(auto, using(crate::proofs::Written::told_by_months))]
    fn standing_month(&self, month: u16) -> Option<Month>
        ensures { month_told self.now.account month ≡ option_map figures result }
    {
        of_month(self.months.as_slice(), usize::from(month))
    }
}
