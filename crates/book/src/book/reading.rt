// Reading a book. A number that names nothing is answered with nothing.
ghost use Rattle.std.specs.Prelude.{◌≡◌, slice_get};
ghost use Rattle.bounded.specs.View.{held};
ghost use Rattle.settlement.specs.Settling.{units_of};
ghost use Rattle.book.specs.Account.{marks_told};
ghost use Rattle.book.specs.Reading.{outstanding_told, total_told, standing_told, announced_told, billed_told, record_told, mark_told, closing_told};

use super::{Book, Marks};
use crate::places::of_month;
use schedule::Schedule;
use settlement::{Closing, Mark, Rates, Record, Standing, outstanding, total};

// The rate of a mechanism.
fn units_at(rates: &Rates, mechanism: usize) -> Option<i64>
    ensures { result ≡ slice_get (units_of rates.now) mechanism }
{
    match rates.as_slice().get(mechanism) {
        None => None,
        Some(rate) => Some(rate.units),
    }
}

impl<S: Schedule> Book<S> {
    /// What is outstanding of a mechanism, in units: above zero it is still to be recovered, below zero to be given back. None on a closed book, and
    /// for a number that names no mechanism.
    pub fn outstanding(&self, mechanism: usize) -> Option<i64>
        ensures { result ≡ outstanding_told (S.Schedule.meaning self.now.schedule) self.now.account mechanism }
    {
        let opened = self.opened?;
        let opening = opened.terms.balances.as_slice().get(mechanism).copied()?;
        outstanding(
            &self.schedule,
            mechanism,
            opening,
            self.months.as_slice(),
            self.billed.as_slice(),
        )
    }

    /// What is outstanding of all mechanisms together, in units; None on a closed book.
    pub fn total(&self) -> Option<i64>
        ensures { result ≡ total_told (S.Schedule.meaning self.now.schedule) self.now.account }
    {
        let opened = self.opened?;
        total(
            &self.schedule,
            &opened.terms.balances,
            self.months.as_slice(),
            self.billed.as_slice(),
        )
    }

    /// The standing that the last month left; a book with no month, and a closed one, is steady.
    pub fn standing(&self) -> Standing
        ensures { result ≡ standing_told self.now.account }
    {
        match of_month(self.records.as_slice(), self.records.len()) {
            None => Standing::Steady,
            Some(record) => record.standing,
        }
    }

    /// The rate last announced for a mechanism, in units per kWh; None as for `outstanding`.
    pub fn announced(&self, mechanism: usize) -> Option<i64>
        ensures { result ≡ announced_told self.now.account mechanism }
    {
        units_at(&self.opened?.announced, mechanism)
    }

    /// The rate that a month was billed at for a mechanism, in units per kWh; None also for a month that does not stand.
    pub fn billed(&self, month: u16, mechanism: usize) -> Option<i64>
        ensures { result ≡ billed_told self.now.account month mechanism }
    {
        units_at(
            &of_month(self.billed.as_slice(), usize::from(month))?,
            mechanism,
        )
    }

    fn record(&self, month: u16) -> Option<Record>
        ensures { result ≡ record_told self.now.account month }
    {
        of_month(self.records.as_slice(), usize::from(month))
    }

    /// Whether a month's filing is pending, was made or was missed; None for a month that does not stand.
    pub fn mark(&self, month: u16) -> Option<Mark>
        ensures { result ≡ mark_told self.now.account month }
    {
        Some(self.record(month)?.mark)
    }

    /// The marks of all months that stand, in their order.
    pub fn marks(&self) -> Marks
        ensures { held result ≡ marks_told self.now.account }
    {
        let mut marks = Marks::new();
        for record in self.records.as_slice() {
            let _ = marks.push(record.mark);
        }
        marks
    }

    /// The figures that a month closed with, in units; None for a month that does not stand.
    pub fn closing(&self, month: u16) -> Option<Closing>
        ensures { result ≡ closing_told self.now.account month }
    {
        Some(self.record(month)?.closing)
    }
}
