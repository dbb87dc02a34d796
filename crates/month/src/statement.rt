// What a month file states, before anything is asked of its figures.
ghost use Rattle.std.specs.Prelude.{◌≤◌, length};
ghost use Rattle.bounded.specs.View.{held};

use crate::parts::{Bracket, Energy, Exempt, Sales, Source};
use bounded::UpTo;

/// One to eight power sources and at most four lifeline brackets, with the pilferage recovery in centavos.
#[derive(Clone, Copy)]
pub struct Statement {
    pub month: u16,
    pub sources: UpTo<Source, 8>,
    pub pilferage: u64,
    pub transmission: Source,
    pub energy: Energy,
    pub exempt: Exempt,
    pub brackets: UpTo<Bracket, 4>,
    pub sales: Sales,
    ghost some_source: { 1 ≤ length (held sources) },
}
