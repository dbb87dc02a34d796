// What is printed for a file.
ghost use Rattle.std.specs.Prelude.{◌≡◌, ℕ, Bool, false, List, IfOk, IfSome, string_bytes};
ghost use Rattle.month.specs.View.{figures};
ghost use Rattle.schedule.specs.Four.{four_charges, cap_of};
ghost use Rattle.monthpage.specs.Lines.{text, refusal_lines};
ghost use Rattle.monthpage.specs.Pages.{all_fit, answer_lines, Checks};

use crate::answers::put_answers;
use crate::report::{put_figure, put_line, put_month};
use fields::Refusal;
use month::Month;
use monthfile::read_month;
use schedule::FourCharges;
use std::alloc::{AllocError, Global};
use std::fmt::Display;

/// The page, and whether nothing is refused and each of the four charges finds the month fit.
#[derive(Drop)]
pub struct Checked {
    pub page: String,
    pub good: bool,
}

// The page of a refusal.
fn refused<F: Display + Drop>(
    heap: Global,
    refusal: Refusal,
    sentence: F,
) -> Result<Checked, AllocError>
    ensures lines { IfOk result (λ c. IfSome (F.output sentence) (λ words. string_bytes c.page ≡ text (refusal_lines refusal words))) }
    ensures none_good { IfOk result (λ c. c.good ≡ false) }
{
    let mut page = String::new(heap);
    put_line(&mut page, refusal)?;
    put_line(&mut page, sentence)?;
    Ok(Checked { page, good: false })
}

// The page of a file that states a month.
fn answered(
    heap: Global,
    cap: u64,
    charges: &FourCharges,
    month: &Month,
) -> Result<Checked, AllocError>
    ensures lines { IfOk result (λ c. string_bytes c.page ≡ text (answer_lines cap (four_charges (cap_of charges.now)) (figures month.now))) }
    ensures fit { IfOk result (λ c. c.good ≡ all_fit (four_charges (cap_of charges.now)) (figures month.now)) }
{
    let mut page = String::new(heap);
    put_month(&mut page, month)?;
    put_figure(
        &mut page,
        "feeder loss cap C",
        cap,
        "hundredths of a percent",
    )?;
    let good = put_answers(&mut page, charges, month)?;
    Ok(Checked { page, good })
}

/// The page of a file, by a cap in hundredths of a percent, which is asked about before the file is.
pub fn check(heap: Global, cap: u64, file: &[u8]) -> Result<Checked, AllocError>
    ensures cases { IfOk result (λ c. Checks cap file.now (string_bytes c.page) c.good) }
    // No other page is that of the file and the cap, and no other answer.
    ensures once { (page : List ℕ) (good : Bool) → Checks cap file.now page good
        → IfOk result (λ c. (string_bytes c.page ≡ page) × (c.good ≡ good)) }
{
    let charges = match FourCharges::new(cap) {
        Ok(charges) => charges,
        Err(fault) => return refused(heap, Refusal::from(fault), fault),
    };
    match read_month(file) {
        Ok(month) => answered(heap, cap, &charges, &month),
        Err(fault) => refused(heap, Refusal::from(fault), fault),
    }
}
