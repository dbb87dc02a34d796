// Questions 1 to 13, of a file that is to be posted.
ghost use Rattle.std.specs.Prelude.{◌≡◌, ◌≤◌, length, None, MatchResult};
ghost use Rattle.fields.specs.Questions.{Asks, first_no};
ghost use Rattle.month.specs.View.{figures};
ghost use Rattle.monthfile.specs.Reading.{Accepted};
ghost use Rattle.book.specs.Postings.{fit_asked, posting_asked, PostingRefused};

use super::Book;
use crate::fault::BookFault;
use crate::kind::PostingKind;
use fields::ask;
use month::Month;
use monthfile::read_month;
use schedule::Schedule;

// Whether each of so many of the schedule's mechanisms finds the month fit, the lowest number first.
#[tactic(auto, using(crate::proofs::Asking::one_question_more, crate::proofs::Asking::first_no_numbered))]
fn ask_fit<S: Schedule>(schedule: &S, mechanisms: usize, month: &Month) -> Result<(), BookFault>
    requires few { mechanisms ≤ 8 }
    requires own { mechanisms ≤ length (S.Schedule.meaning schedule.now) }
    ensures { Asks (fit_asked (S.Schedule.meaning schedule.now) mechanisms (figures month.now)) result }
{
    for number in 0..mechanisms {
        if !schedule.is_fit(number, month) {
            return Err(BookFault::NotFit(number));
        }
    }
    Ok(())
}

impl<S: Schedule> Book<S> {
    /// The month that the file states, where questions 1 to 13 are answered yes.
    #[tactic(auto, using(crate::proofs::Admitted::no_month, crate::proofs::Admitted::not_placed, crate::proofs::Admitted::not_fit))]
    pub(super) fn admit(&self, kind: PostingKind, file: &[u8]) -> Result<Month, BookFault>
        ensures { MatchResult result
            (λ m. Accepted file.now m × (first_no (posting_asked kind (S.Schedule.meaning self.now.schedule) self.now.account (figures m)) ≡ None))
            (λ e. PostingRefused kind (S.Schedule.meaning self.now.schedule) self.now.account file.now e) }
    {
        let month = read_month(file)?;
        let number = month.statement().month;
        let Some(opened) = self.opened else {
            return Err(BookFault::WrongMonth(number));
        };
        ask(
            kind.has_place(usize::from(number), self.months.len()),
            BookFault::WrongMonth(number),
        )?;
        ask_fit(&self.schedule, opened.terms.balances.len(), &month)?;
        Ok(month)
    }
}
