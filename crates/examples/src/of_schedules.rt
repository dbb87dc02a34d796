// Books over schedules and mechanisms that others may write.
use crate::flat_fee::FlatFee;
use crate::growing_fee::GrowingFee;
use crate::opened::post;
use crate::pair::Pair;
use crate::sample::SAMPLE;
use crate::sketch;
use book::{Answer, Book, BookFault, Closing, Opening, Standing};
use charges::{Assessment, Mechanism};
use schedule::{Schedule, Single};
use std::test::Fail;

// The file of the sample month as another month.
fn file_of_month(month: u8) -> [u8; 167] {
    let mut file = SAMPLE;
    file[4] = month;
    file
}

// The sample month with 90,000 kWh sold outside the bracket, 98,000 in all.
fn with_less_sold() -> [u8; 167] {
    let mut file = SAMPLE;
    file[149] = 0x5f;
    file[150] = 0x90;
    file
}

// What a schedule answers for numbers that it does not have is nothing that a book sees.
#[test]
fn careless_above_its_count(rt: HostRuntime) -> Result<(), Fail> {
    let mut book = Book::new(
        rt.alloc(),
        Pair {
            first: FlatFee::seven(),
            second: GrowingFee,
        },
    )?;
    book.open(&Opening {
        number: 1,
        spread: 6,
        rates: &[7, 250_000],
        balances: &[0, 0],
    })?;
    let mut answer = Answer::default();
    post(&mut book, &SAMPLE, &mut answer)?;
    let closing = Closing {
        total: 0,
        revenue: 27_000_756_000,
    };
    assert!(rt; answer.closing == closing);
    // Month 2 bills 250,000, and its own rate is 500,000.
    post(&mut book, &file_of_month(2), &mut answer)?;
    let closing = Closing {
        total: 27_000_000_000,
        revenue: 81_001_512_000,
    };
    assert!(rt; answer.closing == closing);
    assert!(rt; answer.standing == Standing::Correcting);
    assert!(rt; book.announced(0) == Some(7));
    // 27,000,000,000 / (6 x 108,000) above 500,000
    assert!(rt; book.announced(1) == Some(541_666));
    // Both charge month 1 for less, and it was billed so.
    assert!(rt; book.amend(&with_less_sold(), &mut answer) == Ok(1));
    let closing = Closing {
        total: 27_000_000_000,
        revenue: 78_501_442_000,
    };
    assert!(rt; answer.closing == closing);
    assert!(rt; book.outstanding(0) == Some(0));
    assert!(rt; book.outstanding(1) == Some(27_000_000_000));
    assert!(rt; book.total() == Some(27_000_000_000));
    assert!(rt; book.billed(2, 1) == Some(250_000));
    for number in [2, 7, 8] {
        assert!(rt; book.outstanding(number).is_none());
        assert!(rt; book.announced(number).is_none());
        assert!(rt; book.billed(2, number).is_none());
    }
    // The schedule itself would have answered.
    let two = Pair {
        first: FlatFee::seven(),
        second: GrowingFee,
    };
    assert!(rt; two.is_fit(2, &sketch::SAMPLE.month()?));
    Ok(())
}

// Its law holds of the 36 months that a book has room for.
#[test]
fn lawful_for_as_many_months_as_can_stand(rt: HostRuntime) -> Result<(), Fail> {
    let schedule = Single {
        mechanism: GrowingFee,
    };
    let mut book = Book::new(rt.alloc(), schedule)?;
    book.open(&Opening {
        number: 1,
        spread: 6,
        rates: &[250_000],
        balances: &[0],
    })?;
    let mut answer = Answer::default();
    for month in 1..37 {
        post(&mut book, &file_of_month(month), &mut answer)?;
    }
    let closing = Closing {
        total: 161_726_004_000,
        revenue: 2_835_000_000_000,
    };
    assert!(rt; answer.closing == closing);
    assert!(rt; answer.standing == Standing::Correcting);
    assert!(rt; book.announced(0) == Some(9_249_577));
    assert!(rt; post(&mut book, &file_of_month(37), &mut answer).is_err());
    // Of 41 months the rate would be 10,250,000.
    let month = sketch::SAMPLE.month()?;
    let of_36 = GrowingFee.assess(&[month; 36]);
    let of_41 = GrowingFee.assess(&[month; 41]);
    assert!(rt; Assessment::new(108_000, of_36).is_some());
    assert!(rt; Assessment::new(108_000, of_41).is_none());
    Ok(())
}
