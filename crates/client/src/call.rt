// What is asked of a book.
use book::Duty;

pub enum Call {
    /// The file of a month to enter.
    Enter(Vec<u8>),
    /// The file of a month to put in place of the one that stands under its number.
    Amend(Vec<u8>),
    /// A duty to file, whichever book it is of.
    File(Duty),
    /// A duty to give up.
    GiveUp(Duty),
}
