//! Tokens.

/// What a token is (Lua 5.3 Reference Manual, section 3.1).
#[derive(Clone, Copy, Debug, PartialEq, Eq)]
pub enum Sort {
    /// Letters, digits and `_`, not beginning with a digit and not a keyword.
    Name,
    /// One of the 22 reserved words of Lua 5.3.
    Keyword,
    /// Decimal digits that write 2^63-1 at most, or `0x` and hexadecimal digits.
    Numeral,
    /// A text between quotes.
    Text,
    /// An operator or a mark.
    Symbol,
}

/// A token, and where it stands in the script.
#[derive(Clone, Copy, Debug, PartialEq, Eq)]
pub struct Token {
    /// What it is.
    pub sort: Sort,
    /// The number of bytes before it.
    pub start: u64,
    /// The number of bytes up to its end. Its bytes are those from `start` to `end`.
    pub end: u64,
    /// The number of its line, from 1.
    pub line: u64,
}
