// What a frame asks for.
use crate::opening::OpeningFrame;

#[derive(Clone, Copy)]
pub enum Frame<'a> {
    Opening(OpeningFrame),
    /// The value, where a month file is due.
    Entry(&'a [u8]),
    Amendment(&'a [u8]),
}
