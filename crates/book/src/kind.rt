// What the file of a posting does.
ghost use Rattle.std.specs.Prelude.{◌≡◌, ◌≤◌};
ghost use Rattle.book.specs.Postings.{has_place};

/// A posting is a file that the book accepted. Public, since the contracts of other crates speak of it.
#[derive(Clone, Copy, Debug, PartialEq, Eq)]
pub enum PostingKind {
    /// It adds its month.
    Entry,
    /// It replaces the month that stands under its number.
    Amendment,
}

impl PostingKind {
    /// Whether the book has a place for a month of this number, where so many stand.
    pub(crate) fn has_place(self, month: usize, standing: usize) -> bool
        requires { standing ≤ 36 }
        ensures { result ≡ has_place self month standing }
    {
        match self {
            PostingKind::Entry => month == standing + 1,
            PostingKind::Amendment => 1 <= month && month <= standing,
        }
    }
}
