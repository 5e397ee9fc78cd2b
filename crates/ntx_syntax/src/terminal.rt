//! Terminals: what the grammar tells apart.

ghost use Rattle.std.specs.Prelude.{◌≡◌, map, Some};
ghost use Rattle.ntx_syntax.specs.Pieces.{piece_of};
ghost use Rattle.ntx_syntax.specs.Terminals as terminals;
ghost use Rattle.ntx_syntax.specs.declared.piece.Piece.TheVariants.{Token};

use crate::token::Sort;

/// What a token is to the grammar: each keyword and each symbol is one of its own, and all names, numerals and texts are
/// one each (Lua 5.3 Reference Manual, sections 3.1 and 9).
#[derive(Clone, Copy, Debug, PartialEq, Eq)]
pub enum Terminal {
    /// A name.
    Name,
    /// A numeral.
    Numeral,
    /// A text.
    Text,
    /// `and`
    And,
    /// `break`
    Break,
    /// `do`
    Do,
    /// `else`
    Else,
    /// `elseif`
    Elseif,
    /// `end`
    End,
    /// `false`
    False,
    /// `for`
    For,
    /// `function`
    Function,
    /// `goto`, which no script has
    Goto,
    /// `if`
    If,
    /// `in`
    In,
    /// `local`
    Local,
    /// `nil`
    Nil,
    /// `not`
    Not,
    /// `or`
    Or,
    /// `repeat`
    Repeat,
    /// `return`
    Return,
    /// `then`
    Then,
    /// `true`
    True,
    /// `until`
    Until,
    /// `while`
    While,
    /// `+`
    Plus,
    /// `-`
    Minus,
    /// `*`
    Star,
    /// `//`
    DoubleSlash,
    /// `%`
    Percent,
    /// `&`
    Ampersand,
    /// `~`
    Tilde,
    /// `|`
    Bar,
    /// `<<`
    ShiftLeft,
    /// `>>`
    ShiftRight,
    /// `#`
    Hash,
    /// `==`
    Equal,
    /// `~=`
    NotEqual,
    /// `<=`
    LessEqual,
    /// `>=`
    GreaterEqual,
    /// `<`
    Less,
    /// `>`
    Greater,
    /// `=`
    Assign,
    /// `(`
    LeftParenthesis,
    /// `)`
    RightParenthesis,
    /// `{`
    LeftBrace,
    /// `}`
    RightBrace,
    /// `[`
    LeftBracket,
    /// `]`
    RightBracket,
    /// `;`
    Semicolon,
    /// `,`
    Comma,
    /// `.`
    Dot,
    /// `..`
    DoubleDot,
}

/// The reserved words (Lua 5.3 Reference Manual, section 3.1).
const KEYWORDS: [(&[u8], Terminal); 22] = [
    (b"and", Terminal::And),
    (b"break", Terminal::Break),
    (b"do", Terminal::Do),
    (b"else", Terminal::Else),
    (b"elseif", Terminal::Elseif),
    (b"end", Terminal::End),
    (b"false", Terminal::False),
    (b"for", Terminal::For),
    (b"function", Terminal::Function),
    (b"goto", Terminal::Goto),
    (b"if", Terminal::If),
    (b"in", Terminal::In),
    (b"local", Terminal::Local),
    (b"nil", Terminal::Nil),
    (b"not", Terminal::Not),
    (b"or", Terminal::Or),
    (b"repeat", Terminal::Repeat),
    (b"return", Terminal::Return),
    (b"then", Terminal::Then),
    (b"true", Terminal::True),
    (b"until", Terminal::Until),
    (b"while", Terminal::While),
];

/// The symbols of the language.
const SYMBOLS: [(&[u8], Terminal); 28] = [
    (b"+", Terminal::Plus),
    (b"-", Terminal::Minus),
    (b"*", Terminal::Star),
    (b"//", Terminal::DoubleSlash),
    (b"%", Terminal::Percent),
    (b"&", Terminal::Ampersand),
    (b"~", Terminal::Tilde),
    (b"|", Terminal::Bar),
    (b"<<", Terminal::ShiftLeft),
    (b">>", Terminal::ShiftRight),
    (b"#", Terminal::Hash),
    (b"==", Terminal::Equal),
    (b"~=", Terminal::NotEqual),
    (b"<=", Terminal::LessEqual),
    (b">=", Terminal::GreaterEqual),
    (b"<", Terminal::Less),
    (b">", Terminal::Greater),
    (b"=", Terminal::Assign),
    (b"(", Terminal::LeftParenthesis),
    (b")", Terminal::RightParenthesis),
    (b"{", Terminal::LeftBrace),
    (b"}", Terminal::RightBrace),
    (b"[", Terminal::LeftBracket),
    (b"]", Terminal::RightBracket),
    (b";", Terminal::Semicolon),
    (b",", Terminal::Comma),
    (b".", Terminal::Dot),
    (b"..", Terminal::DoubleDot),
];

/// What stands in a table for this spelling, if it is there.
fn entry_of(mut table: &[(&[u8], Terminal)], spelled: &[u8]) -> Option<Terminal>
    ensures { result ≡ terminals.entry_of (map (λ entry. (entry.0.now, entry.1)) table.entry.now) spelled.now }
{
    while let [entry, rest @ ..] = table {
        if entry.0 == spelled {
            return Some(entry.1);
        }
        table = rest;
    }
    None
}

/// The keyword that these bytes spell, if they spell one.
pub fn keyword_of(spelled: &[u8]) -> Option<Terminal>
    ensures { result ≡ terminals.entry_of terminals.keywords spelled.now }
{
    entry_of(&KEYWORDS, spelled)
}

/// The symbol that these bytes spell, if they spell one.
pub fn symbol_of(spelled: &[u8]) -> Option<Terminal>
    ensures { result ≡ terminals.entry_of terminals.symbols spelled.now }
{
    entry_of(&SYMBOLS, spelled)
}

/// What a token of this sort is that these bytes spell.
pub fn terminal_of(sort: Sort, spelled: &[u8]) -> Terminal
    requires { piece_of spelled.now ≡ Some (Token sort) }
    ensures { result ≡ terminals.terminal_of sort spelled.now }
{
    match sort {
        Sort::Name => Terminal::Name,
        Sort::Numeral => Terminal::Numeral,
        Sort::Text => Terminal::Text,
        Sort::Keyword => match keyword_of(spelled) {
            Some(terminal) => terminal,
            // Each keyword is in its table.
            None => unreachable!(),
        },
        Sort::Symbol => match symbol_of(spelled) {
            Some(terminal) => terminal,
            // Each symbol is in its table.
            None => unreachable!(),
        },
    }
}
