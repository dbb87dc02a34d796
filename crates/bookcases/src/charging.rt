// A row of months, and what the four charges answer for the last of it.
use crate::figures::statement_of;
use fields::Refusal;
use month::Month;
use schedule::{FourCharges, Schedule};
use std::alloc::Global;

#[derive(Drop)]
pub(crate) struct Row {
    charges: FourCharges,
    months: Vec<Month>,
}

impl Row {
    pub(crate) fn new(heap: Global) -> anyhow::Result<Row> {
        let charges = FourCharges::new(500)?;
        let months = Vec::new(heap);
        Ok(Row { charges, months })
    }

    /// Another row, with this cap; this one goes on where the cap is refused.
    pub(crate) fn begin(&mut self, heap: Global, cap: u64) -> anyhow::Result<String> {
        match FourCharges::new(cap) {
            Ok(charges) => {
                self.charges = charges;
                self.months.clear();
                Ok(format!(in heap; "cap {cap}")?)
            }
            Err(fault) => Ok(Refusal::from(fault).to_string(heap)?),
        }
    }

    /// One month more; a refused one is not taken.
    pub(crate) fn add(&mut self, heap: Global, figures: &str) -> anyhow::Result<String> {
        match Month::new(statement_of(heap, figures)?) {
            Ok(month) => {
                self.months.push(month)?;
                charges_of(heap, &self.charges, self.months.as_slice())
            }
            Err(fault) => Ok(Refusal::from(fault).to_string(heap)?),
        }
    }
}

fn charges_of(heap: Global, charges: &FourCharges, months: &[Month]) -> anyhow::Result<String> {
    let mut answers = Vec::new(heap);
    let Some(month) = months.last() else {
        return Ok(String::new(heap));
    };
    // A schedule is asked by number, and has no iterator.
    for number in 0..4 {
        let fit = if charges.is_fit(number, month) {
            "fit"
        } else {
            "unfit"
        };
        let quantity = charges.quantity(number, month);
        let (rate, allowance) = charges.assess(number, months);
        answers.push(format!(in heap; "{fit} {quantity} {rate} {allowance}")?)?;
    }
    Ok(answers.as_slice().join(heap, " | ")?)
}
