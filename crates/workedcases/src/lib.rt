// Worked cases of the rules: what the definitions that the contracts cite come to at given numbers.
#![tactic(auto)]

ghost use Rattle.workedcases.specs.WorkedCases.{WorkedCases};

/// Nothing is done: the contract is the table.
#[tactic(auto, using(crate::proofs::Cases::worked_cases))]
pub fn worked_cases()
    ensures { WorkedCases }
{}
