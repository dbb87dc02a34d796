// A month's figures, as a line of the table has them: the single figures, the sources and the brackets, parted by semicolons.
use crate::numbers::naturals_of;
use anyhow::anyhow;
use bounded::UpTo;
use month::{Bracket, Energy, Exempt, Sales, Source, Statement};
use std::alloc::Global;

// A list whose entries have three numbers each, and what is said of an entry without three, or of one too many.
fn list_of<T: Copy + Default, const N: usize, F: Fn(u64, u64, u64) -> T>(
    numbers: &[u64],
    entry: F,
    not_three: &'static str,
    too_many: &'static str,
) -> anyhow::Result<UpTo<T, N>>
    requires { F.IsAlwaysCallable entry }
{
    let mut list = UpTo::new();
    for three in numbers.chunks(3) {
        let [first, second, third] = *three else {
            return Err(anyhow!(not_three));
        };
        let Ok(()) = list.push(entry(first, second, third)) else {
            return Err(anyhow!(too_many));
        };
    }
    Ok(list)
}

fn sources_of(numbers: &[u64]) -> anyhow::Result<UpTo<Source, 8>> {
    let source = |cost, taken, passed| Source {
        cost,
        taken,
        passed,
    };
    list_of(
        numbers,
        source,
        "a source has three numbers",
        "more than eight sources",
    )
}

fn brackets_of(numbers: &[u64]) -> anyhow::Result<UpTo<Bracket, 4>> {
    let bracket = |kwh, customers, percent| Bracket {
        kwh,
        customers,
        percent,
    };
    list_of(
        numbers,
        bracket,
        "a bracket has three numbers",
        "more than four brackets",
    )
}

pub(crate) fn statement_of(heap: Global, line: &str) -> anyhow::Result<Statement> {
    let Some((single, lists)) = line.split_once(';') else {
        return Err(anyhow!("a line has three parts"));
    };
    let Some((sources, brackets)) = lists.split_once(';') else {
        return Err(anyhow!("a line has three parts"));
    };
    let numbers = naturals_of(heap, single)?;
    let [
        month,
        pilferage,
        cost,
        taken,
        passed,
        input,
        substation,
        feeder,
        no_generation,
        no_transmission,
        nonlifeline,
        rate,
        metering,
    ] = *numbers.as_slice()
    else {
        return Err(anyhow!("a month has thirteen single figures"));
    };
    let sources = sources_of(naturals_of(heap, sources)?.as_slice())?;
    if sources.len() == 0 {
        return Err(anyhow!("no source"));
    }
    Ok(Statement {
        month: u16::try_from(month)?,
        sources,
        pilferage,
        transmission: Source {
            cost,
            taken,
            passed,
        },
        energy: Energy {
            input,
            substation,
            feeder,
        },
        exempt: Exempt {
            generation: no_generation,
            transmission: no_transmission,
        },
        brackets: brackets_of(naturals_of(heap, brackets)?.as_slice())?,
        sales: Sales {
            nonlifeline,
            rate,
            metering,
        },
    })
}
