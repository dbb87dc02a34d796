// Reading a month from its file.
ghost use Rattle.std.specs.Prelude.{◌≡◌, Some, Err, MatchResult};
ghost use Rattle.fields.specs.Questions.{first_no};
ghost use Rattle.month.specs.declared.fault.MonthFault.TheVariants.{File};
ghost use Rattle.month.specs.Asked.{month_asked};
ghost use Rattle.month.specs.Figures.{Figures};
ghost use Rattle.month.specs.Stated.{stated};
ghost use Rattle.month.specs.Valid.{Valid};
ghost use Rattle.month.specs.View.{figures};
ghost use Rattle.monthfile.specs.Layout.{file_of};
ghost use Rattle.monthfile.specs.Questions.{file_asked};
ghost use Rattle.monthfile.specs.Reading.{States, Accepted, Refused};

use crate::layout::read_values;
use crate::values::{read_entry, read_list, read_month_number};
use month::{FileFault, Month, MonthFault, Statement};

// What the file states: questions 1 to 5.
fn read_statement(file: &[u8]) -> Result<Statement, FileFault>
    ensures { MatchResult result (λ s. file.now ≡ file_of (stated s)) (λ e. first_no (file_asked file.now) ≡ Some e) }
{
    let values = read_values(file)?;
    let (energy, exempt) = read_entry(values.energy);
    Ok(Statement {
        month: read_month_number(values.month),
        sources: read_list(values.sources),
        pilferage: read_entry(values.pilferage),
        transmission: read_entry(values.transmission),
        energy,
        exempt,
        brackets: read_list(values.brackets),
        sales: read_entry(values.sales),
    })
}

/// The month that the file states, or the first question of 1 to 11 that is answered no.
pub fn read_month(file: &[u8]) -> Result<Month, MonthFault>
    ensures cases { MatchResult result (λ m. Accepted file.now m) (λ e. Refused file.now e) }
    ensures valid_file { (f : Figures) → Valid f → file.now ≡ file_of f → MatchResult result (λ m. figures m ≡ f) (λ e. ⊥) }
    ensures month_fault { (f : Figures) (e : MonthFault) → States file.now f → first_no (month_asked f) ≡ Some e → result ≡ Err e }
    ensures file_fault { (e : FileFault) → first_no (file_asked file.now) ≡ Some e → result ≡ Err (File e) }
{
    Month::new(read_statement(file)?)
}
