// Printed runs: what the table of runs does not show.
use crate::frames::{ENTRY, OPENING};
use crate::opened::file;
use book::{Book, Mark};
use bounded::UpTo;
use fields::{Layer, Refusal, ShortBuffer};
use printed::{Call, Frame, Frames, Line, Lines, NoFrame, closed_book, work, write_run};
use schedule::FourCharges;
use settlement::{Answer, Closing, Rate, Standing};
use std::alloc::AllocError;
use std::process::Abort;
use std::test::Fail;

// What a buffer is filled with, to be told from what is written.
const FILL: u8 = 0xa5;

fn check_written(rt: &impl Abort, line: &Line, text: &str, buffer: &mut [u8]) {
    assert!(rt; line.write(buffer) == Ok(text.len()), "{text}");
    assert!(rt; buffer.starts_with(text.as_bytes()), "{text}");
    let kept = buffer.iter().skip(text.len()).all(|byte| *byte == FILL);
    assert!(rt; kept, "{text}");
}

fn check_line(rt: &impl Abort, line: &Line, text: &str) {
    let mut buffer = [FILL; 1023];
    let short = ShortBuffer { length: 1023 };
    assert!(rt; line.write(&mut buffer) == Err(short), "{text}");
    assert!(rt; buffer == [FILL; 1023], "{text}");
    check_written(rt, line, text, &mut [FILL; 1024]);
    check_written(rt, line, text, &mut [FILL; 2000]);
    let letter = text.split_once(' ').map(|(letter, _)| letter);
    assert!(rt; letter == Some(line.letter()), "{text}");
}

// Lines of each kind, with small numbers and with the greatest.
#[test]
fn lines_in_buffers(rt: HostRuntime) -> Result<(), Fail> {
    let full_book = Refusal {
        number: 12,
        layer: Layer::Book,
        place: 36,
    };
    let losses_too_high = Refusal {
        number: 10,
        layer: Layer::Month,
        place: 5,
    };
    let far_in_a_file = Refusal {
        number: u8::MAX,
        layer: Layer::File,
        place: usize::MAX,
    };
    for (line, text) in [
        (Line::Opened(0), "O 0\n"),
        (Line::Opened(u64::MAX), "O 18446744073709551615\n"),
        (
            Line::Refused(Call::Opening, full_book),
            "O refused 12 book 36\n",
        ),
        (
            Line::Refused(Call::Entry, losses_too_high),
            "E refused 10 month 5\n",
        ),
        (
            Line::Refused(Call::Entry, far_in_a_file),
            "E refused 255 file 18446744073709551615\n",
        ),
        (
            Line::Refused(Call::Amendment, full_book),
            "A refused 12 book 36\n",
        ),
        (Line::Entered(0, Answer::default()), "E 0 0 0 steady\n"),
        (Line::Amended(0, Answer::default()), "A 0 0 0 steady\n"),
        (Line::NoFrame(0), "X 0\n"),
        (Line::NoFrame(usize::MAX), "X 18446744073709551615\n"),
    ] {
        check_line(&rt, &line, text);
    }
    Ok(())
}

// As many rates as there can be.
#[test]
fn rates_and_totals_below_zero(rt: HostRuntime) -> Result<(), Fail> {
    let mut rates = UpTo::new();
    for units in [
        -1_000_000, 11_000_000, -1, 0, -1_000_000, -1_000_000, -10, -100,
    ] {
        assert!(rt; rates.push(Rate { units }).is_ok());
    }
    let closing = Closing {
        total: i64::MIN,
        revenue: u64::MAX,
    };
    let answer = Answer {
        rates,
        closing,
        standing: Standing::Correcting,
    };
    for (line, text) in [
        (
            Line::Entered(u16::MAX, answer),
            "E 65535 -1000000 11000000 -1 0 -1000000 -1000000 -10 -100 -9223372036854775808 18446744073709551615 correcting\n",
        ),
        (
            Line::Amended(u16::MAX, answer),
            "A 65535 -1000000 11000000 -1 0 -1000000 -1000000 -10 -100 -9223372036854775808 18446744073709551615 correcting\n",
        ),
    ] {
        check_line(&rt, &line, text);
    }
    Ok(())
}

// No fault moves them on, and neither does the end.
#[test]
fn frames_stay_where_they_are(rt: HostRuntime) -> Result<(), Fail> {
    for fault in [
        b"\x10".as_slice(),
        b"\x0f\x00",
        b"\x11\x00",
        b"\x12\x00\x00",
        b"\x0f\x00\x57\x00",
        b"\x10\x00\x02\x00",
        b"\x11\x00\x02\x00",
    ] {
        let stream = [OPENING.as_slice(), &ENTRY, fault].concat(rt.alloc())?;
        let mut frames = Frames::new(stream.as_slice());
        assert!(rt; frames.read()?.is_some() && frames.read()?.is_some());
        for _ in 0..3 {
            assert!(rt;
                frames.read().err() == Some(NoFrame { at: 261 }),
                "{fault:?}"
            );
        }
    }
    let mut frames = Frames::new(&ENTRY);
    assert!(rt; frames.read()?.is_some());
    for _ in 0..3 {
        assert!(rt; frames.read()?.is_none());
    }
    Ok(())
}

const OPENED_AND_ENTERED: &str = "\
    O 7\n\
    E 1 49791 10000 4645 3300 -104757845 7289242155 steady\n";

// The sample month amended to a pilferage recovery of 0, whose lowest bytes are these two.
fn amendment() -> [u8; 170] {
    let mut frame = ENTRY;
    frame[0] = 17;
    frame[44] = 0;
    frame[45] = 0;
    frame
}

// Works a frame as a caller of its own would: room for any line is taken first, and the duty comes once the line is told. The month is pending till then.
fn exchange(
    rt: &impl Abort,
    book: &mut Book<FourCharges>,
    frame: &Frame,
    lines: &mut Lines,
) -> Result<(), AllocError> {
    lines.reserve_line()?;
    match work(book, frame).tell(lines) {
        Ok(Some(duty)) => {
            assert_eq!(rt; duty.book(), 7);
            assert_eq!(rt; duty.month(), 1);
            assert!(rt; book.mark(1) == Some(Mark::Pending));
            assert!(rt; lines.as_slice() == OPENED_AND_ENTERED.as_bytes());
            file(rt, book, duty);
        }
        Ok(None) => {}
        // No line is longer.
        Err(_outcome) => unreachable(),
    }
    Ok(())
}

#[test]
fn frame_by_frame(rt: HostRuntime) -> Result<(), Fail> {
    let stream = [OPENING.as_slice(), &ENTRY, &amendment()].concat(rt.alloc())?;
    let mut frames = Frames::new(stream.as_slice());
    let mut book = closed_book(rt.alloc())?;
    let mut lines = Lines::behind(Vec::new(rt.alloc()));
    for _ in 0..3 {
        let Some(frame) = frames.read()? else {
            return Err(Fail::new("no frame"));
        };
        exchange(&rt, &mut book, &frame, &mut lines)?;
    }
    assert!(rt; book.mark(1) == Some(Mark::Filed));
    let amended = format!(in rt.alloc();
        "{OPENED_AND_ENTERED}A 1 49833 10000 4649 3300 -99905398 7294094602 steady\n"
    )?;
    assert_eq!(rt;
        String::from_utf8(lines.into_bytes())?.as_str(),
        amended.as_str()
    );
    Ok(())
}

// A run on a book that is open goes on with it, and with the output; offsets are those of its own stream.
#[test]
fn run_goes_on(rt: HostRuntime) -> Result<(), Fail> {
    let first = [OPENING.as_slice(), &ENTRY].concat(rt.alloc())?;
    let mut next_month = ENTRY;
    next_month[7] = 2;
    let second = [next_month.as_slice(), b"\x10\x00"].concat(rt.alloc())?;
    let mut book = closed_book(rt.alloc())?;
    let mut output = Lines::behind(Vec::from_slice(rt.alloc(), b"here before\n")?);
    write_run(&mut book, first.as_slice(), &mut output)?;
    write_run(&mut book, second.as_slice(), &mut output)?;
    let lines = format!(in rt.alloc();
        "here before\n{OPENED_AND_ENTERED}E 2 49791 10000 4645 3300 -104603690 14578484310 steady\nX 170\n"
    )?;
    assert_eq!(rt;
        String::from_utf8(output.into_bytes())?.as_str(),
        lines.as_str()
    );
    Ok(())
}

const AMENDED: &str = "A 1 49833 10000 4649 3300 -99905398 7294094602 steady\n";

const AMENDED_BACK: &str = "A 1 49791 10000 4645 3300 -104757845 7289242155 steady\n";

const STANDS_ALREADY: &str = "E refused 12 book 1\n";

// More output than any table of the gate has: 60,003 lines, in 2.6 MB, of a stream of 10.2 MB.
#[test]
fn long_run(rt: HostRuntime) -> Result<(), Fail> {
    let mut back = ENTRY;
    back[0] = 17;
    let round = [amendment().as_slice(), &back, &ENTRY].concat(rt.alloc())?;
    let mut stream = [OPENING.as_slice(), &ENTRY].concat(rt.alloc())?;
    for _ in 0..20_000 {
        stream.extend_from_slice(round.as_slice())?;
    }
    stream.push(10)?;
    let mut book = closed_book(rt.alloc())?;
    let mut output = Lines::behind(Vec::new(rt.alloc()));
    write_run(&mut book, stream.as_slice(), &mut output)?;
    let output = output.as_slice();
    assert_eq!(rt; output.len(), 2_580_070);
    assert!(rt; output.starts_with(OPENED_AND_ENTERED.as_bytes()));
    assert!(rt; output.ends_with(b"X 10200261\n"));
    let lines = format!(in rt.alloc(); "{AMENDED}{AMENDED_BACK}{STANDS_ALREADY}")?;
    let rounds = output[OPENED_AND_ENTERED.len()..].chunks_exact(129);
    assert_eq!(rt; rounds.len(), 20_000);
    for told in rounds {
        assert!(rt; told == lines.as_str().as_bytes());
    }
    Ok(())
}

// The lines of all frames stand, or those of the first that were worked, and the book has their months and no other: with `rt try --test --fail-alloc N`
// the Nth allocation fails, and a book has the first three.
#[test]
fn lines_before_memory_lacks(rt: HostRuntime) -> Result<(), Fail> {
    let mut stream = [0; 91 + 36 * 170];
    stream[..91].copy_from_slice(&OPENING);
    for (month, frame) in (1..37).zip(stream[91..].chunks_exact_mut(170)) {
        frame.copy_from_slice(&ENTRY);
        frame[7] = month;
    }
    let Ok(mut book) = closed_book(rt.alloc()) else {
        return Ok(());
    };
    let mut output = Lines::behind(Vec::new(rt.alloc()));
    let ran = write_run(&mut book, &stream, &mut output);
    let ends = output.as_slice().iter().filter(|byte| **byte == b'\n');
    let lines = ends.count();
    assert_eq!(rt; lines == 37, ran.is_ok());
    for month in 1..37 {
        let mark = (usize::from(month) < lines).then_some(Mark::Filed);
        assert!(rt; book.mark(month) == mark);
    }
    Ok(())
}
