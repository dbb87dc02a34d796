// One line of the table, and what it is answered.
use crate::answers::{entry_of, month_of, refusal_of, state_of};
use crate::charging::Row;
use crate::docket::Docket;
use crate::figures::statement_of;
use crate::numbers::{integers_of, naturals_of};
use crate::offering;
use anyhow::{anyhow, bail};
use book::{Answer, PostingKind};
use fields::Refusal;
use month::Month;
use monthfile::write_month;
use std::alloc::Global;

// The spread; the starting rates; the opening balances.
fn open(heap: Global, docket: &mut Docket, text: &str) -> anyhow::Result<String> {
    let Some((spread, lists)) = text.split_once(';') else {
        return Err(anyhow!("an opening has three parts"));
    };
    let Some((rates, balances)) = lists.split_once(';') else {
        return Err(anyhow!("an opening has three parts"));
    };
    let rates = naturals_of(heap, rates)?;
    let balances = integers_of(heap, balances)?;
    let spread = spread.parse::<u64>()?;
    match docket.open(spread, rates.as_slice(), balances.as_slice()) {
        Ok(()) => state_of(heap, docket.book()),
        Err(fault) => refusal_of(heap, fault),
    }
}

fn enter_file(heap: Global, docket: &mut Docket, file: &[u8]) -> anyhow::Result<String> {
    let mut answer = Answer::default();
    match docket.enter(file, &mut answer)? {
        Ok(month) => entry_of(heap, month, &answer),
        Err(fault) => refusal_of(heap, fault),
    }
}

fn amend_file(heap: Global, docket: &mut Docket, file: &[u8]) -> anyhow::Result<String> {
    let mut answer = Answer::default();
    match docket.amend(file, &mut answer) {
        Ok(month) => entry_of(heap, month, &answer),
        Err(fault) => refusal_of(heap, fault),
    }
}

// By the figures of the month, which its file states.
fn post(
    heap: Global,
    docket: &mut Docket,
    kind: PostingKind,
    text: &str,
) -> anyhow::Result<String> {
    let month = match Month::new(statement_of(heap, text)?) {
        Ok(month) => month,
        Err(fault) => return Ok(Refusal::from(fault).to_string(heap)?),
    };
    let mut buffer = [0; 1024];
    let Ok(length) = write_month(&month, &mut buffer) else {
        bail!("a file longer than its buffer");
    };
    match kind {
        PostingKind::Entry => enter_file(heap, docket, &buffer[..length]),
        PostingKind::Amendment => amend_file(heap, docket, &buffer[..length]),
    }
}

fn file(heap: Global, docket: &mut Docket) -> anyhow::Result<String> {
    match docket.file_last() {
        Some(month) => Ok(format!(in heap; "filed {month}")?),
        None => Ok(String::from_str(heap, "nothing pending")?),
    }
}

fn give_up(heap: Global, docket: &mut Docket) -> anyhow::Result<String> {
    match docket.give_up_last() {
        Some(month) => Ok(format!(in heap; "gave up {month}")?),
        None => Ok(String::from_str(heap, "nothing pending")?),
    }
}

// The number of the book and of the month.
fn offer(heap: Global, docket: &mut Docket, text: &str) -> anyhow::Result<String> {
    let Some((number, month)) = text.split_once(' ') else {
        return Err(anyhow!("a duty has two numbers"));
    };
    let number = number.parse::<u64>()?;
    let month = month.parse::<u8>()?;
    match offering::offer(heap, docket, number, month)? {
        Some((filed, given_up)) => {
            let filed = Refusal::from(filed);
            let given_up = Refusal::from(given_up);
            Ok(format!(in heap; "{filed} | {given_up}")?)
        }
        None => Ok(String::from_str(heap, "not offered")?),
    }
}

pub(crate) fn play_line(
    heap: Global,
    row: &mut Row,
    docket: &mut Docket,
    line: &str,
) -> anyhow::Result<String> {
    let (word, text) = line.split_once(' ').unwrap_or((line, ""));
    match word {
        "#" => Ok(String::from_str(heap, line)?),
        "cap" => row.begin(heap, text.parse::<u64>()?),
        "charges" => row.add(heap, text),
        "new" => {
            docket.begin(heap)?;
            Ok(String::from_str(heap, line)?)
        }
        "open" => open(heap, docket, text),
        "enter" => post(heap, docket, PostingKind::Entry, text),
        "amend" => post(heap, docket, PostingKind::Amendment, text),
        "bytes" => enter_file(heap, docket, hex::decode(heap, text)?.as_slice()),
        "file" => file(heap, docket),
        "give-up" => give_up(heap, docket),
        "offer" => offer(heap, docket, text),
        "state" => state_of(heap, docket.book()),
        "month" => month_of(heap, docket.book(), text.parse::<u16>()?),
        _ => bail!("a line begins with no word that is known"),
    }
}
