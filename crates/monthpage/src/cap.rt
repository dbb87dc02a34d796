// The cap on the feeder loss, which no month file states.
ghost use Rattle.std.specs.Prelude.{map, string_bytes};
ghost use Rattle.monthpage.specs.Caps.{GivesCap};

use anyhow::{Context, bail};

// Where no argument gives one, in hundredths of a percent.
const USUAL_CAP: u64 = 500;

/// The cap that the arguments give: one number, or none for the usual cap.
pub fn cap_of(words: &[String]) -> anyhow::Result<u64>
    ensures { GivesCap (map string_bytes words.now) result }
{
    match words {
        [] => Ok(USUAL_CAP),
        [word] => word.as_str().parse().context(
            "the argument is the feeder loss cap, in hundredths of a percent",
        ),
        _ => bail!("more than one argument"),
    }
}
