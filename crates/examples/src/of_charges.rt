// The four charges, schedules, and totals over the latest months.
use crate::flat_fee::FlatFee;
use crate::sketch::{SAMPLE, Sketch};
use bounded::rolling_total;
use charges::{Assessment, CapTooHigh, Loss, Transmission, recent_allowances, recent_energy};
use fields::{Layer, Refusal};
use month::{Bracket, Energy, Month, Sales, Source};
use schedule::{FourCharges, Joined, Schedule, Single};
use std::alloc::Global;
use std::process::Abort;
use std::test::Fail;

fn four(cap: u64) -> Result<FourCharges, Fail> {
    Ok(FourCharges::new(cap)?)
}

fn check_answer<S: Schedule>(
    rt: &impl Abort,
    schedule: &S,
    number: usize,
    months: &[Month],
    told: (u64, u64, u64),
) -> Result<(), Fail> {
    let Some(month) = months.last() else {
        return Err(Fail::new("no month"));
    };
    assert!(rt; schedule.is_fit(number, month));
    let (rate, allowance) = schedule.assess(number, months);
    assert_eq!(rt; schedule.quantity(number, month), told.0);
    assert_eq!(rt; rate, told.1);
    assert_eq!(rt; allowance, told.2);
    Ok(())
}

#[test]
fn sample_month(rt: HostRuntime) -> Result<(), Fail> {
    let charges = four(500)?;
    let months = [SAMPLE.month()?];
    assert_eq!(rt; charges.count(), 4);
    check_answer(&rt, &charges, 0, &months, (108_000, 49_791, 5_377_500_000))?;
    check_answer(&rt, &charges, 1, &months, (108_000, 10_000, 1_080_000_000))?;
    check_answer(&rt, &charges, 2, &months, (108_000, 4_645, 501_742_155))?;
    check_answer(&rt, &charges, 3, &months, (100_000, 3_300, 330_000_000))
}

// Each answer keeps the law, and together the allowances are the revenue of a first month.
#[test]
fn sample_assessed(rt: HostRuntime) -> Result<(), Fail> {
    let charges = four(500)?;
    let months = [SAMPLE.month()?];
    let mut total = 0u64;
    for number in 0..4 {
        let quantity = charges.quantity(number, &months[0]);
        let Some(assessment) = Assessment::new(quantity, charges.assess(number, &months)) else {
            return Err(Fail::new("the law is broken"));
        };
        total = total.saturating_add(recent_allowances(&[assessment]));
    }
    assert_eq!(rt; total, 7_289_242_155);
    Ok(())
}

#[test]
fn no_month_stands(rt: HostRuntime) -> Result<(), Fail> {
    let charges = four(500)?;
    let months: [Month; 0] = [];
    for number in 0..5 {
        let (rate, allowance) = charges.assess(number, &months);
        assert_eq!(rt; rate, 0);
        assert_eq!(rt; allowance, 0);
    }
    Ok(())
}

// 1,000 kWh of input, of which 900 are sold.
fn priced(generation: u64, transmission: u64) -> Sketch {
    Sketch {
        source: Source {
            cost: generation,
            taken: 0,
            passed: 0,
        },
        pilferage: 0,
        transmission,
        energy: Energy {
            input: 1_000,
            substation: 0,
            feeder: 0,
        },
        bracket: Bracket {
            kwh: 0,
            customers: 0,
            percent: 0,
        },
        sales: Sales {
            nonlifeline: 900,
            rate: 0,
            metering: 0,
        },
    }
}

// Month k has 1,000 + k kWh of input, of which k and 2 k are lost.
fn months_of_differing_energy(heap: Global) -> Result<Vec<Month>, Fail> {
    let mut months = Vec::new(heap);
    for k in 1..=36 {
        let sketch = Sketch {
            energy: Energy {
                input: 1_000 + k,
                substation: k,
                feeder: 2 * k,
            },
            ..priced(1, 1)
        };
        months.push(sketch.month()?)?;
    }
    Ok(months)
}

#[test]
fn windows_of_twelve_months(rt: HostRuntime) -> Result<(), Fail> {
    let months = months_of_differing_energy(rt.alloc())?;
    let rows = [
        (1, 1_001, 1),
        (3, 3_006, 6),
        (11, 11_066, 66),
        (12, 12_078, 78),
        (13, 12_090, 90),
        (36, 12_366, 366),
    ];
    for (standing, input, substation) in rows {
        assert!(rt; standing <= months.len());
        let total = recent_energy(&months.as_slice()[..standing]);
        let told = Energy {
            input,
            substation,
            feeder: 2 * substation,
        };
        assert_eq!(rt; total, told);
    }
    Ok(())
}

// Month k has an allowance of 10 k + 3 units.
fn assessments_of_differing_allowance(heap: Global) -> Result<Vec<Assessment>, Fail> {
    let mut assessments = Vec::new(heap);
    for k in 1..=36 {
        let Some(assessment) = Assessment::new(10, (k, 10 * k + 3)) else {
            return Err(Fail::new("no answer of a mechanism"));
        };
        assessments.push(assessment)?;
    }
    Ok(assessments)
}

#[test]
fn windows_of_three_months(rt: HostRuntime) -> Result<(), Fail> {
    let assessments = assessments_of_differing_allowance(rt.alloc())?;
    let rows = [
        (1, 13),
        (3, 69),
        (11, 309),
        (12, 339),
        (13, 369),
        (36, 1_059),
    ];
    for (standing, total) in rows {
        assert!(rt; standing <= assessments.len());
        assert_eq!(rt;
            recent_allowances(&assessments.as_slice()[..standing]),
            total
        );
    }
    Ok(())
}

#[test]
fn windows_of_none_and_of_more_than_36(rt: HostRuntime) -> Result<(), Fail> {
    let Some(assessment) = Assessment::new(10, (1, 13)) else {
        return Err(Fail::new("no answer of a mechanism"));
    };
    let assessments = [assessment; 40];
    assert_eq!(rt; rolling_total::<u64, Assessment>(&assessments, 0), 0);
    assert_eq!(rt; rolling_total::<u64, Assessment>(&assessments, 35), 455);
    assert_eq!(rt; rolling_total::<u64, Assessment>(&assessments, 36), 468);
    assert_eq!(rt; rolling_total::<u64, Assessment>(&assessments, 40), 468);
    Ok(())
}

#[test]
fn answers_that_break_the_law(rt: HostRuntime) {
    assert!(rt; Assessment::new(10, (5, 50)).is_some());
    assert!(rt; Assessment::new(10, (5, 59)).is_some());
    assert!(rt; Assessment::new(10, (5, 49)).is_none());
    assert!(rt; Assessment::new(10, (5, 60)).is_none());
    assert!(rt; Assessment::new(0, (0, 0)).is_none());
    assert!(rt; Assessment::new(10_000_000, (10_000_000, 100_000_009_999_999)).is_some());
    assert!(rt; Assessment::new(10_000_001, (0, 0)).is_none());
    assert!(rt; Assessment::new(1, (10_000_001, 10_000_001)).is_none());
}

#[test]
fn nine_mechanisms(rt: HostRuntime) -> Result<(), Fail> {
    let nine = Joined {
        first: Single {
            mechanism: FlatFee::seven(),
        },
        second: Joined {
            first: four(500)?,
            second: four(0)?,
        },
    };
    let months = [SAMPLE.month()?];
    assert_eq!(rt; nine.count(), 9);
    check_answer(&rt, &nine, 0, &months, (108_000, 7, 756_000))?;
    check_answer(&rt, &nine, 3, &months, (108_000, 4_645, 501_742_155))?;
    check_answer(&rt, &nine, 7, &months, (108_000, 1_327, 143_354_901))
}

#[test]
fn own_mechanism_beside_the_four(rt: HostRuntime) -> Result<(), Fail> {
    let five = Joined {
        first: four(500)?,
        second: Single {
            mechanism: FlatFee::seven(),
        },
    };
    let months = [SAMPLE.month()?];
    assert_eq!(rt; five.count(), 5);
    check_answer(&rt, &five, 3, &months, (100_000, 3_300, 330_000_000))?;
    check_answer(&rt, &five, 4, &months, (108_000, 7, 756_000))
}

#[test]
fn loss_over_another_price(rt: HostRuntime) -> Result<(), Fail> {
    let schedule = Single {
        mechanism: Loss::new(Transmission::new(), FlatFee::seven(), 500)?,
    };
    // U is 84,000,000 / 108,000, rounded down to 777: 10,007 x 777 / 10,000.
    check_answer(
        &rt,
        &schedule,
        0,
        &[SAMPLE.month()?],
        (108_000, 777, 83_974_741),
    )
}

#[test]
fn cap_at_its_limit(rt: HostRuntime) -> Result<(), Fail> {
    assert!(rt; FourCharges::new(5_000).is_ok());
    let Err(fault) = FourCharges::new(5_001) else {
        return Err(Fail::new("made"));
    };
    assert!(rt; fault == CapTooHigh { cap: 5_001 });
    let told = Refusal {
        number: 15,
        layer: Layer::Book,
        place: 1,
    };
    assert!(rt; Refusal::from(fault) == told);
    Ok(())
}
