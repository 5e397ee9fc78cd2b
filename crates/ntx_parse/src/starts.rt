//! What statements begin with, and what ends `return`.

ghost use Rattle.std.specs.Prelude.{◌≡◌};
ghost use Rattle.ntx_parse.specs.inner.Reading as reading;

use ntx_syntax::Terminal;

/// Whether a statement begins with this, `return` aside.
pub fn begins_statement(terminal: Terminal) -> bool
    ensures { result ≡ reading.begins_statement terminal }
{
    match terminal {
        Terminal::Semicolon
        | Terminal::Break
        | Terminal::Do
        | Terminal::While
        | Terminal::Repeat
        | Terminal::If
        | Terminal::For
        | Terminal::Function
        | Terminal::Local
        | Terminal::Name
        | Terminal::LeftParenthesis => true,
        _ => false,
    }
}

/// Whether this begins no expression after `return`, but ends it or its block.
pub fn ends_return(terminal: Terminal) -> bool
    ensures { result ≡ reading.ends_return terminal }
{
    match terminal {
        Terminal::End | Terminal::Else | Terminal::Elseif | Terminal::Until | Terminal::Semicolon =>
            true,
        _ => false,
    }
}
