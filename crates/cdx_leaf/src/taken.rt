//! What became of a child.

ghost use Rattle.std.specs.Prelude.{◌≡◌};
ghost use Rattle.cdx_leaf.specs.NextChild.{is_unknown};

/// What became of a child element.
#[derive(Clone, Copy)]
pub enum Taken {
    /// It was read to its end.
    Read,
    /// No child that the version knows has its name. Nothing was read.
    Unknown,
    /// It is a second one where one may stand. Nothing was read.
    Second,
}

impl Taken {
    /// Whether no child that the version knows has the name.
    pub fn is_unknown(self) -> bool
        ensures { result ≡ is_unknown self }
    {
        match self {
            Taken::Read => false,
            Taken::Unknown => true,
            Taken::Second => false,
        }
    }
}
