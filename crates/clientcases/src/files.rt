// Month files, with flaws and without.
use std::alloc::{AllocError, Global};

/// What differs from month to month.
#[derive(Clone, Copy)]
pub(crate) struct Figures {
    pub(crate) cost: u64,
    pub(crate) taken: u64,
    pub(crate) passed: u64,
    pub(crate) pilferage: u64,
    pub(crate) transmission: u64,
    pub(crate) substation: u64,
    pub(crate) feeder: u64,
    pub(crate) kwh: u64,
    pub(crate) customers: u64,
    pub(crate) percent: u64,
    pub(crate) nonlifeline: u64,
}

#[derive(Clone, Copy, PartialEq, Eq)]
pub(crate) enum Flaw {
    None,
    /// Question 13, where members have a lifeline discount.
    OneKwhSold,
    /// Question 10.
    MostIsLost,
    /// Question 1, at the last field.
    CutShort,
    /// Question 2, there too.
    WrongTag,
}

impl Flaw {
    pub(crate) fn numbered(number: u64) -> Flaw {
        match number {
            1 => Flaw::OneKwhSold,
            2 => Flaw::MostIsLost,
            3 => Flaw::CutShort,
            4 => Flaw::WrongTag,
            _ => Flaw::None,
        }
    }
}

// A field: its head, and numbers of eight bytes each.
fn put(file: &mut Vec<u8>, head: &[u8], numbers: &[u64]) -> Result<(), AllocError> {
    file.extend_from_slice(head)?;
    for number in numbers {
        file.extend_from_slice(&number.to_be_bytes())?;
    }
    Ok(())
}

pub(crate) fn file_of(
    heap: Global,
    month: u64,
    figures: &Figures,
    flaw: Flaw,
) -> Result<Vec<u8>, AllocError> {
    let feeder = if flaw == Flaw::MostIsLost {
        60_001
    } else {
        figures.feeder
    };
    let nonlifeline = if flaw == Flaw::OneKwhSold {
        1
    } else {
        figures.nonlifeline
    };
    let last_head = if flaw == Flaw::WrongTag {
        b"\x08\x00\x18"
    } else {
        b"\x07\x00\x18"
    };
    let mut file = Vec::new(heap);
    file.extend_from_slice(b"\x01\x00\x02")?;
    file.extend_from_slice(&month.to_be_bytes()[6..])?;
    put(
        &mut file,
        b"\x02\x00\x18",
        &[figures.cost, figures.taken, figures.passed],
    )?;
    put(&mut file, b"\x03\x00\x08", &[figures.pilferage])?;
    put(&mut file, b"\x04\x00\x18", &[figures.transmission, 0, 0])?;
    put(
        &mut file,
        b"\x05\x00\x28",
        &[120_000, figures.substation, feeder, 0, 0],
    )?;
    put(
        &mut file,
        b"\x06\x00\x18",
        &[figures.kwh, figures.customers, figures.percent],
    )?;
    if flaw == Flaw::CutShort {
        return Ok(file);
    }
    put(&mut file, last_head, &[nonlifeline, 80_000, 50_000])?;
    Ok(file)
}
