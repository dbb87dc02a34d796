// Month files and what lies under them: fields and short lists.
use crate::sample::SAMPLE;
use bounded::UpTo;
use fields::{Due, Layer, Reader, Refusal, head, number, put};
use monthfile::{read_month, write_month};
use std::test::Fail;

fn refusal_of(file: &[u8]) -> Option<Refusal> {
    read_month(file).err().map(Refusal::from)
}

#[test]
fn sample_amounts(rt: HostRuntime) -> Result<(), Fail> {
    let month = read_month(&SAMPLE)?;
    assert_eq!(rt; month.statement().month, 1);
    assert_eq!(rt; month.generation_cost(), 5_975_000_000);
    assert_eq!(rt; month.transmission_cost(), 1_200_000_000);
    assert_eq!(rt; month.sales(), 108_000);
    assert_eq!(rt; month.lifeline_discount(), 330_000_000);
    Ok(())
}

#[test]
fn empty_file(rt: HostRuntime) {
    let told = Refusal {
        number: 1,
        layer: Layer::File,
        place: 0,
    };
    assert!(rt; refusal_of(b"") == Some(told));
}

#[test]
fn written_back(rt: HostRuntime) -> Result<(), Fail> {
    let month = read_month(&SAMPLE)?;
    let mut buffer = [7; 1025];
    let n = write_month(&month, &mut buffer)?;
    assert_eq!(rt; n, 167);
    assert!(rt; &buffer[0..167] == SAMPLE.as_slice());
    assert!(rt; &buffer[167..] == &[7; 858][..]);
    Ok(())
}

#[test]
fn short_buffer(rt: HostRuntime) -> Result<(), Fail> {
    let month = read_month(&SAMPLE)?;
    let mut buffer = [7; 1023];
    let Err(fault) = write_month(&month, &mut buffer) else {
        return Err(Fail::new("written"));
    };
    let told = Refusal {
        number: 16,
        layer: Layer::Book,
        place: 1023,
    };
    assert!(rt; Refusal::from(fault) == told);
    assert!(rt; &buffer[..] == &[7; 1023][..]);
    Ok(())
}

#[test]
fn full_list(rt: HostRuntime) {
    let mut list: UpTo<u8, 2> = UpTo::new();
    assert!(rt; list.push(5).is_ok() && list.push(6).is_ok());
    assert!(rt; list.push(7) == Err(7));
    assert!(rt; list.len() == 2 && list.as_slice() == &[5, 6][..]);
}

#[test]
fn field_by_field(rt: HostRuntime) -> Result<(), Fail> {
    let mut reader = Reader::new(b"\x10\x00\x02\xab\xcd\x11");
    let any = Due {
        tag: 16,
        each: 1,
        least: 0,
        most: 65535,
    };
    assert!(rt; reader.next_offset() == Some(0));
    let value = reader.field(any)?;
    assert!(rt; value == b"\xab\xcd".as_slice() && number(value) == Some(43981));
    assert!(rt; reader.next_offset() == Some(5));
    let Err(fault) = reader.field(any) else {
        return Err(Fail::new("a field"));
    };
    let refusal = Refusal::from(fault);
    assert!(rt; refusal.number == 1 && refusal.place == 5);
    assert!(rt; reader.next_offset() == Some(5));
    Ok(())
}

#[test]
fn written_head(rt: HostRuntime) {
    let mut buffer = [7; 5];
    assert!(rt; put(&mut buffer, 1, &head(2, 258)) == Some(4));
    assert!(rt; put(&mut buffer, 3, &head(2, 258)) == None);
    assert!(rt; put(&mut buffer, 9, &head(2, 258)) == None);
    assert!(rt; &buffer[..] == b"\x07\x02\x01\x02\x07".as_slice());
}
