// Books: what the table of books does not show.
use crate::opened::{file, opened, post};
use crate::sample::SAMPLE;
use book::{Answer, Book, BookFault, Closing, Mark, Opening, OpeningFault, ReturnedDuty, Standing};
use charges::{Generation, Lifeline};
use fields::{Layer, Refusal, ShortBuffer};
use schedule::{FourCharges, Joined, Single};
use std::test::Fail;

#[test]
fn month_written_back(rt: HostRuntime) -> Result<(), Fail> {
    let mut book = opened(rt.alloc(), 7)?;
    post(&mut book, &SAMPLE, &mut Answer::default())?;
    let mut buffer = [0xa5; 1024];
    assert_eq!(rt; book.write(1, &mut buffer)?, 167);
    assert!(rt; buffer.starts_with(&SAMPLE));
    assert!(rt; buffer.iter().skip(167).all(|byte| *byte == 0xa5));
    Ok(())
}

// The sample month without pilferage recovery.
fn without_recovery() -> [u8; 167] {
    let mut file = SAMPLE;
    file[41] = 0;
    file[42] = 0;
    file
}

// As the file that it was amended by.
#[test]
fn amended_month_written_back(rt: HostRuntime) -> Result<(), Fail> {
    let mut book = opened(rt.alloc(), 7)?;
    let mut answer = Answer::default();
    post(&mut book, &SAMPLE, &mut answer)?;
    assert!(rt; book.amend(&without_recovery(), &mut answer) == Ok(1));
    let closing = Closing {
        total: -99_905_398,
        revenue: 7_294_094_602,
    };
    assert!(rt; answer.closing == closing);
    assert!(rt; book.closing(1) == Some(closing));
    let mut buffer = [0xa5; 1024];
    assert_eq!(rt; book.write(1, &mut buffer)?, 167);
    assert!(rt; buffer.starts_with(&without_recovery()));
    assert!(rt; buffer.iter().skip(167).all(|byte| *byte == 0xa5));
    Ok(())
}

// Question 12 comes before 16, and neither touches the buffer.
#[test]
fn buffer_too_short(rt: HostRuntime) -> Result<(), Fail> {
    let mut book = opened(rt.alloc(), 7)?;
    post(&mut book, &SAMPLE, &mut Answer::default())?;
    let mut buffer = [0xa5; 1023];
    let short = BookFault::Buffer(ShortBuffer { length: 1023 });
    let told = Refusal {
        number: 16,
        layer: Layer::Book,
        place: 1023,
    };
    assert!(rt; book.write(1, &mut buffer) == Err(short));
    assert!(rt; Refusal::from(short) == told);
    for month in [0, 2, 37] {
        assert!(rt; book.write(month, &mut buffer) == Err(BookFault::WrongMonth(month)));
    }
    assert!(rt; buffer.iter().all(|byte| *byte == 0xa5));
    Ok(())
}

// The month is pending in both books. The duty comes back, and its own book takes it.
#[test]
fn duty_of_another_book(rt: HostRuntime) -> Result<(), Fail> {
    let mut answer = Answer::default();
    let mut own = opened(rt.alloc(), 7)?;
    let mut other = opened(rt.alloc(), 8)?;
    let kept = other.enter(&SAMPLE, &mut answer)?;
    let Ok(duty) = own.enter(&SAMPLE, &mut answer) else {
        panic!(rt; "not entered");
    };
    let Err(returned) = other.file(duty) else {
        panic!(rt; "filed");
    };
    let ReturnedDuty { fault, duty } = returned;
    assert!(rt; fault == BookFault::NotPending(1));
    assert_eq!(rt; duty.book(), 7);
    assert_eq!(rt; duty.month(), 1);
    assert!(rt; other.mark(1) == Some(Mark::Pending));
    file(&rt, &mut own, duty);
    file(&rt, &mut other, kept);
    assert!(rt; own.mark(1) == Some(Mark::Filed));
    assert!(rt; other.mark(1) == Some(Mark::Filed));
    Ok(())
}

// Books of one number take each other's duties, as nothing else tells them apart. The month is then pending no more.
#[test]
fn books_of_one_number(rt: HostRuntime) -> Result<(), Fail> {
    let mut answer = Answer::default();
    let mut own = opened(rt.alloc(), 7)?;
    let mut other = opened(rt.alloc(), 7)?;
    let theirs = other.enter(&SAMPLE, &mut answer)?;
    let Ok(ours) = own.enter(&SAMPLE, &mut answer) else {
        panic!(rt; "not entered");
    };
    match own.give_up(theirs) {
        Ok(()) => {}
        Err(_returned) => panic!(rt; "not given up"),
    }
    let Err(ReturnedDuty { fault, duty }) = own.file(ours) else {
        panic!(rt; "filed");
    };
    assert!(rt; fault == BookFault::NotPending(1));
    file(&rt, &mut other, duty);
    assert!(rt; own.mark(1) == Some(Mark::Missed));
    assert!(rt; other.mark(1) == Some(Mark::Filed));
    Ok(())
}

// In any order, and the months that stand have their marks in theirs.
#[test]
fn marks_of_all_months(rt: HostRuntime) -> Result<(), Fail> {
    let mut answer = Answer::default();
    let mut book = opened(rt.alloc(), 7)?;
    assert_eq!(rt; book.marks().len(), 0);
    let first = book.enter(&SAMPLE, &mut answer)?;
    let mut later = SAMPLE;
    later[4] = 2;
    let Ok(second) = book.enter(&later, &mut answer) else {
        panic!(rt; "not entered");
    };
    later[4] = 3;
    let Ok(third) = book.enter(&later, &mut answer) else {
        panic!(rt; "not entered");
    };
    assert!(rt; book.marks().as_slice() == [Mark::Pending; 3].as_slice());
    file(&rt, &mut book, second);
    match book.give_up(first) {
        Ok(()) => {}
        Err(_returned) => panic!(rt; "not given up"),
    }
    let marked = [Mark::Missed, Mark::Filed, Mark::Pending];
    assert!(rt; book.marks().as_slice() == marked.as_slice());
    assert!(rt; book.amend(&SAMPLE, &mut answer) == Ok(1));
    assert!(rt; book.marks().as_slice() == marked.as_slice());
    file(&rt, &mut book, third);
    Ok(())
}

#[test]
fn numbers_that_name_nothing(rt: HostRuntime) -> Result<(), Fail> {
    let mut book = opened(rt.alloc(), 7)?;
    post(&mut book, &SAMPLE, &mut Answer::default())?;
    assert!(rt; book.outstanding(3).is_some());
    assert!(rt; book.announced(3).is_some());
    assert!(rt; book.billed(1, 3).is_some());
    for mechanism in [4, 8, usize::MAX] {
        assert!(rt; book.outstanding(mechanism).is_none());
        assert!(rt; book.announced(mechanism).is_none());
        assert!(rt; book.billed(1, mechanism).is_none());
    }
    for month in [0, 2, 36, 37, u16::MAX] {
        assert!(rt; book.billed(month, 0).is_none());
        assert!(rt; book.mark(month).is_none());
        assert!(rt; book.closing(month).is_none());
    }
    Ok(())
}

// Whatever the question that is answered no, of an entry and of an amendment.
#[test]
fn refusals_leave_the_answer(rt: HostRuntime) -> Result<(), Fail> {
    let mut book = opened(rt.alloc(), 7)?;
    let mut answer = Answer::default();
    answer.closing = Closing {
        total: -5,
        revenue: 7,
    };
    answer.standing = Standing::Correcting;
    let lent = answer.closing;
    let mut second = SAMPLE;
    second[4] = 2;
    let mut unfit = SAMPLE;
    // 2^32 centavos more, at which generation costs too much
    unfit[11] = 1;
    for file in [&SAMPLE[..166], &second[..], &unfit[..]] {
        assert!(rt; post(&mut book, file, &mut answer).is_err());
        assert!(rt; book.amend(file, &mut answer).is_err());
        assert!(rt; answer.closing == lent);
    }
    post(&mut book, &SAMPLE, &mut Answer::default())?;
    for file in [&SAMPLE[..166], &second[..], &unfit[..]] {
        assert!(rt; book.amend(file, &mut answer).is_err());
        assert!(rt; answer.closing == lent);
        assert!(rt; answer.standing == Standing::Correcting);
        assert_eq!(rt; answer.rates.len(), 0);
    }
    Ok(())
}

// Generation of the sample month alone: base rate 49,791 and allowance 5,377,500,000.
#[test]
fn one_mechanism(rt: HostRuntime) -> Result<(), Fail> {
    let schedule = Single {
        mechanism: Generation::new(),
    };
    let mut book = Book::new(rt.alloc(), schedule)?;
    book.open(&Opening {
        number: 1,
        spread: 6,
        rates: &[40_000],
        balances: &[1_000_000],
    })?;
    let mut answer = Answer::default();
    post(&mut book, &SAMPLE, &mut answer)?;
    let closing = Closing {
        total: 1_058_500_000,
        revenue: 5_377_500_000,
    };
    assert!(rt; answer.closing == closing);
    assert!(rt; book.outstanding(0) == Some(1_058_500_000));
    assert!(rt; book.announced(0) == Some(51_424));
    assert!(rt; book.announced(1).is_none());
    // G is 5,980,000,000 now.
    assert!(rt; book.amend(&without_recovery(), &mut answer) == Ok(1));
    assert!(rt; book.outstanding(0) == Some(1_063_000_000));
    assert!(rt; book.announced(0) == Some(51_473));
    Ok(())
}

fn four() -> Result<FourCharges, Fail> {
    Ok(FourCharges::new(500)?)
}

#[test]
fn eight_mechanisms_and_nine(rt: HostRuntime) -> Result<(), Fail> {
    let mut eight = Book::new(
        rt.alloc(),
        Joined {
            first: four()?,
            second: four()?,
        },
    )?;
    eight.open(&Opening {
        number: 1,
        spread: 6,
        rates: &[0; 8],
        balances: &[0; 8],
    })?;
    assert!(rt; eight.announced(7) == Some(0));
    let nine = Joined {
        first: Single {
            mechanism: Lifeline,
        },
        second: Joined {
            first: four()?,
            second: four()?,
        },
    };
    let mut nine = Book::new(rt.alloc(), nine)?;
    let refused = nine.open(&Opening {
        number: 1,
        spread: 6,
        rates: &[0; 9],
        balances: &[0; 9],
    });
    assert!(rt; refused == Err(BookFault::Opening(OpeningFault::Count)));
    assert!(rt; nine.announced(0).is_none());
    Ok(())
}
