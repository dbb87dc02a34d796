// Question 15, from place 2 on, and taking over the numbers of which it is answered yes.
ghost use Rattle.std.specs.Prelude.{◌≡◌, ◌≤◌, [], true, false, Option, None, Some, length, map, pos, MatchOption, MatchResult};
ghost use Rattle.std.specs.List.{list_all};
ghost use Rattle.fields.specs.Questions.{first_no};
ghost use Rattle.settlement.specs.Settling.{units_of, opening_units};
ghost use Rattle.book.specs.Account.{Account, account_of};
ghost use Rattle.book.specs.Opening.{is_starting_rate, is_balance, is_closed, given, opening_asked, newly_opened};

use super::Opened;
use crate::fault::OpeningFault;
use crate::opening::Opening;
use fields::ask;
use settlement::{Balances, OpeningBalance, Rate, Rates, Spread, Terms};

// A book has up to this many mechanisms.
const MAX_MECHANISMS: usize = 8;

// The rates, or None where one is above its limit. All are asked about; past the eighth none is kept, since the count is then refused.
fn starting_rates(given: &[u64]) -> Option<Rates>
    ensures { MatchOption result
        (list_all is_starting_rate given.now ≡ false)
        (λ r. (list_all is_starting_rate given.now ≡ true) × (length given.now ≤ 8 → units_of r ≡ map pos given.now)) }
{
    let mut rates = Rates::new();
    for units in given {
        let _ = rates.push(Rate::starting(*units)?);
    }
    Some(rates)
}

// The same of opening balances.
fn opening_balances(given: &[i64]) -> Option<Balances>
    ensures { MatchOption result
        (list_all is_balance given.now ≡ false)
        (λ b. (list_all is_balance given.now ≡ true) × (length given.now ≤ 8 → opening_units b ≡ given.now)) }
{
    let mut balances = Balances::new();
    for units in given {
        let _ = balances.push(OpeningBalance::new(*units)?);
    }
    Some(balances)
}

impl Opened {
    /// The numbers of an opening of which question 15 is answered yes, for a schedule of so many mechanisms.
    pub(crate) fn ask(
        mechanisms: usize,
        closed: bool,
        opening: &Opening,
    ) -> Result<Opened, OpeningFault>
        ensures { (account : Option Account) → closed ≡ is_closed account → MatchResult result
            (λ o. (first_no (opening_asked mechanisms account (given opening.now)) ≡ None) × (account_of o [] [] [] ≡ newly_opened (given opening.now)))
            (λ e. first_no (opening_asked mechanisms account (given opening.now)) ≡ Some e) }
    {
        let spread = Spread::new(opening.spread).ok_or(OpeningFault::Spread)?;
        let announced = starting_rates(opening.rates).ok_or(OpeningFault::StartingRate)?;
        let balances = opening_balances(opening.balances).ok_or(OpeningFault::Balance)?;
        ask(
            1 <= mechanisms
                && mechanisms <= MAX_MECHANISMS
                && opening.rates.len() == mechanisms
                && opening.balances.len() == mechanisms,
            OpeningFault::Count,
        )?;
        ask(closed, OpeningFault::AlreadyOpen)?;
        Ok(Opened {
            number: opening.number,
            terms: Terms { spread, balances },
            announced,
        })
    }
}
