// The outcomes of every prefix of a file.
use crate::outcome::outcome_of;

pub(crate) fn print_prefixes(rt: &HostRuntime, name: &str, file: &[u8]) -> anyhow::Result<()> {
    let mut first = 0;
    let mut run = outcome_of(rt.alloc(), b"")?;
    for length in 1..=file.len() {
        let outcome = outcome_of(rt.alloc(), &file[..length])?;
        if outcome != run {
            println!(rt; "{name} {first}-{} {run}", length - 1)?;
            first = length;
            run = outcome;
        }
    }
    println!(rt; "{name} {first}-{} {run}", file.len())?;
    Ok(())
}
