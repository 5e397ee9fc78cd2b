//! Why a script is refused.

ghost use Rattle.std.specs.Prelude.{◌≡◌};
ghost use Rattle.ntx_syntax.specs.Why.{why_text};

/// What is wrong with a script.
#[derive(Clone, Copy, Debug, PartialEq, Eq)]
pub enum SyntaxWhy {
    /// A byte that is no blank and begins no token, outside of texts and comments.
    Byte,
    /// A decimal numeral above 2^63-1, or a numeral directly followed by a letter, `_` or `.`.
    Number,
    /// A text that its line does not close, or with an escape that is none.
    Text,
    /// A long comment that is not closed.
    Comment,
    /// One of `...`, `::`, `:`, `/`, `^`, `[[` and `[=`, which are no symbols of this language.
    Symbol,
    /// A token that cannot follow those before it, or the end where a token is missing.
    Expected,
    /// `break` outside of a loop.
    Break,
    /// A token that lies in more than 200 of these: blocks (the script's own not counted), bodies of functions, tables, parts
    /// in `( )` or `[ ]`, operands of unary and right operands of binary operators.
    Depth,
    /// More named locals of one function in scope at once than there may be: 201.
    Locals,
    /// More bytes than a script may have.
    Size,
}

impl SyntaxWhy {
    /// The name of the reason, as a fault line prints it.
    pub fn name(&self) -> &'static str
        ensures { result.now ≡ why_text self.now }
    {
        match self {
            SyntaxWhy::Byte => "Byte",
            SyntaxWhy::Number => "Number",
            SyntaxWhy::Text => "Text",
            SyntaxWhy::Comment => "Comment",
            SyntaxWhy::Symbol => "Symbol",
            SyntaxWhy::Expected => "Expected",
            SyntaxWhy::Break => "Break",
            SyntaxWhy::Depth => "Depth",
            SyntaxWhy::Locals => "Locals",
            SyntaxWhy::Size => "Size",
        }
    }
}

/// A refused script: the line, and what is wrong there.
#[derive(Clone, Copy, Debug, PartialEq, Eq)]
pub struct SyntaxFault {
    /// The number of the line, from 1; 0 is for a script that is too large as a whole.
    pub line: u64,
    /// What is wrong there.
    pub why: SyntaxWhy,
}
