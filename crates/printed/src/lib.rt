// The printed run: frames read from a stream, each worked on a book, and a line told of each.
#![tactic(auto)]

mod call;
mod closed;
mod frame;
mod frames;
mod line;
mod lines;
mod new_book;
mod no_frame;
mod opening;
mod outcome;
mod run;
mod text;
mod working;

pub use call::Call;
pub use closed::closed_book;
pub use frame::Frame;
pub use frames::Frames;
pub use line::Line;
pub use lines::Lines;
pub use new_book::NewBook;
pub use no_frame::NoFrame;
pub use opening::OpeningFrame;
pub use outcome::Outcome;
pub use run::write_run;
pub use working::work;
