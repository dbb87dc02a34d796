// What a mechanism answers for each of the months.
ghost use Rattle.std.specs.Prelude.{map, MatchOption};
ghost use Rattle.bounded.specs.View.{held};
ghost use Rattle.month.specs.View.{figures};
ghost use Rattle.schedule.specs.Rows.{MayBeAsked, numbered};
ghost use Rattle.settlement.specs.Months.{Assesses, AllLawful, AssessesLast, LawfulLast};

use bounded::UpTo;
use charges::Assessment;
use month::Month;
use schedule::Schedule;

/// The assessments of up to 36 months.
pub(crate) type Assessments = UpTo<Assessment, 36>;

// The answer of the mechanism with this number for the last of the months; None where it breaks the law of a mechanism, or no month stands.
fn assess<S: Schedule>(schedule: &S, number: usize, months: &[Month]) -> Option<Assessment>
    ensures { MayBeAsked (S.Schedule.meaning schedule.now) number → MatchOption result
        (¬ LawfulLast (numbered (S.Schedule.meaning schedule.now) number) (map figures months.now))
        (λ a. AssessesLast (numbered (S.Schedule.meaning schedule.now) number) (map figures months.now) a) }
{
    let month = months.last()?;
    let quantity = schedule.quantity(number, month);
    Assessment::new(quantity, schedule.assess(number, months))
}

/// The mechanism's answer for each month, by the months up to it; None where one breaks the law, as none does where the months can stand, or where
/// more than 36 months stand.
#[tactic(auto, using(crate::proofs::Assessed::unlawful_by))]
pub(crate) fn assessments<S: Schedule>(
    schedule: &S,
    number: usize,
    months: &[Month],
) -> Option<Assessments>
    ensures { MayBeAsked (S.Schedule.meaning schedule.now) number → MatchOption result
        (¬ AllLawful (numbered (S.Schedule.meaning schedule.now) number) (map figures months.now))
        (λ a. Assesses (numbered (S.Schedule.meaning schedule.now) number) (map figures months.now) (held a)) }
{
    let mut assessed = Assessments::new();
    for index in 0..months.len() {
        let assessment = assess(schedule, number, &months[..=index])?;
        assessed.push(assessment).ok()?;
    }
    Some(assessed)
}
