// Totals over the latest months.
ghost use Rattle.std.specs.Prelude.{◌≡◌, ◌+◌, ◌*◌, ◌<◌, ◌≤◌, map, length, sum_by};
ghost use Rattle.bounded.specs.Ends.{latest};
ghost use Rattle.month.specs.View.{figures};
ghost use Rattle.charges.specs.Formulas.{twelve_months};
ghost use Rattle.charges.specs.Assessed.{allowance_of};

use crate::assessment::Assessment;
use bounded::rolling_total;
use month::{Energy, Month};

/// Input and losses of the latest twelve months, or of fewer when fewer stand.
#[tactic(auto, using(crate::specs::Energies::twelve_total, crate::specs::Energies::recent_kept))]
pub fn recent_energy(months: &[Month]) -> Energy
    ensures is { result ≡ twelve_months (map figures months.now) }
    ensures losses { 2 * (result.substation + result.feeder) ≤ result.input }
    ensures least { 0 < length months.now → 1 ≤ result.input }
    ensures most { result.input ≤ 120000000 }
{
    rolling_total(months, 12)
}

/// The allowances of the latest three months, or of fewer when fewer stand.
pub fn recent_allowances(assessments: &[Assessment]) -> u64
    ensures { result ≡ sum_by allowance_of (latest 3 assessments.now) }
{
    rolling_total(assessments, 3)
}
