// The lines of a run.
use printed::{Lines, closed_book, write_run};
use std::alloc::{AllocError, Global};
use std::fmt::Display;
use std::io::Write;

/// The run has a book of its own, closed at first.
pub(crate) fn lines_of(heap: Global, stream: &[u8]) -> Result<Vec<u8>, AllocError> {
    let mut book = closed_book(heap)?;
    let mut lines = Lines::behind(Vec::new(heap));
    write_run(&mut book, stream, &mut lines)?;
    Ok(lines.into_bytes())
}

/// The lines, below a heading.
pub(crate) fn print_lines(
    rt: &HostRuntime,
    heading: impl Display + Drop,
    lines: &[u8],
) -> anyhow::Result<()> {
    rt.println(heading)?;
    rt.stdout().write_all(lines)?;
    Ok(())
}
