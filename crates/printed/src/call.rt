// The calls that frames ask for.
ghost use Rattle.std.specs.Prelude.{◌≡◌};
ghost use Rattle.printed.specs.Lines.{call_letter};

#[derive(Clone, Copy, Debug, PartialEq, Eq)]
pub enum Call {
    Opening,
    Entry,
    Amendment,
}

impl Call {
    /// What a line begins with that tells of the call.
    pub fn letter(self) -> &'static str
        ensures { result.now ≡ call_letter self }
    {
        match self {
            Call::Opening => "O",
            Call::Entry => "E",
            Call::Amendment => "A",
        }
    }
}
