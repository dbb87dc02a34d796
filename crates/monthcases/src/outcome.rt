// What a file is read as, in one line.
use fields::Refusal;
use month::Month;
use monthfile::{read_month, write_month};
use std::alloc::{AllocError, Global};

fn accepted(heap: Global, month: &Month, file: &[u8]) -> Result<String, AllocError> {
    let mut buffer = [0; 1024];
    let Ok(n) = write_month(month, &mut buffer) else {
        return String::from_str(heap, "accepted, and not written");
    };
    if &buffer[..n] != file {
        return String::from_str(heap, "accepted, and written otherwise");
    }
    let number = month.statement().month;
    let generation = month.generation_cost();
    let transmission = month.transmission_cost();
    let sales = month.sales();
    let discount = month.lifeline_discount();
    format!(in heap;
        "accepted month {number} G {generation} T {transmission} S {sales} D {discount} bytes {n}"
    )
}

pub(crate) fn outcome_of(heap: Global, file: &[u8]) -> Result<String, AllocError> {
    match read_month(file) {
        Ok(month) => accepted(heap, &month, file),
        Err(fault) => Refusal::from(fault).to_string(heap),
    }
}
