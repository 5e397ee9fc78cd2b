//! Why a document is refused.

ghost use Rattle.std.specs.Prelude.{◌≡◌};
ghost use Rattle.ntx_doc.specs.Why.{why_text};

/// What is wrong with a line, or with the document as a whole.
#[derive(Clone, Copy, Debug, PartialEq, Eq)]
pub enum DocWhy {
    /// A byte that a line may not hold: any other than 32 to 126 and the tab.
    Byte,
    /// A first field that is no command, or a command that may not stand in this place.
    Command,
    /// A number of fields that the command does not have, or a word after `hbox` other than `to` and `spread`.
    Fields,
    /// A name after `set` or `setglue` that no parameter of that sort has.
    Name,
    /// A field that is not a number. A number is an optional `-` and 1 to 10 decimal digits.
    Number,
    /// A number outside its field's range.
    Range,
    /// A font number that is not below the number of fonts, or `char`, `space` or `text` if there are no fonts.
    Font,
    /// A 21st open box.
    Depth,
    /// The document ends and a box is not closed.
    Open,
    /// More bytes than a document may have. No call of this crate gives it: the caller that reads the bytes does.
    Size,
}

impl DocWhy {
    /// The name of the reason, as a fault line prints it.
    pub fn name(&self) -> &'static str
        ensures { result.now ≡ why_text self.now }
    {
        match self {
            DocWhy::Byte => "Byte",
            DocWhy::Command => "Command",
            DocWhy::Fields => "Fields",
            DocWhy::Name => "Name",
            DocWhy::Number => "Number",
            DocWhy::Range => "Range",
            DocWhy::Font => "Font",
            DocWhy::Depth => "Depth",
            DocWhy::Open => "Open",
            DocWhy::Size => "Size",
        }
    }
}

/// A refused document: the line, and what is wrong there.
#[derive(Clone, Copy, Debug, PartialEq, Eq)]
pub struct DocFault {
    /// The number of the line, from 1; 0 if the document as a whole is too large.
    pub line: u64,
    /// What is wrong there.
    pub why: DocWhy,
}
