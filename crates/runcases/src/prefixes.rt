// The runs of every prefix of a stream.
use crate::lines::{lines_of, print_lines};

pub(crate) fn print_prefixes(rt: &HostRuntime, name: &str, stream: &[u8]) -> anyhow::Result<()> {
    let mut first = 0;
    let mut row = lines_of(rt.alloc(), b"")?;
    for length in 1..=stream.len() {
        let lines = lines_of(rt.alloc(), &stream[..length])?;
        if lines.as_slice() != row.as_slice() {
            print_lines(
                rt,
                format_args!("{name} {first}-{}", length - 1),
                row.as_slice(),
            )?;
            first = length;
            row = lines;
        }
    }
    print_lines(
        rt,
        format_args!("{name} {first}-{}", stream.len()),
        row.as_slice(),
    )
}
