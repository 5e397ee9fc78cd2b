//! Symbols.

ghost use Rattle.std.specs.Prelude.{◌≡◌, ◌<◌, length, map};
ghost use Rattle.ntx_syntax.specs.Pieces.{is_among, symbol_piece};
ghost use Rattle.ntx_syntax.specs.inner.Front.{IsFrontOf, symbol_at};

use crate::fault::SyntaxWhy;
use crate::piece::Piece;
use crate::terminal::symbol_of;
use crate::token::Sort;

/// Symbols and beginnings of long brackets of Lua that the language does not have.
const REFUSED_SYMBOLS: [&[u8]; 7] = [b"...", b"::", b":", b"/", b"^", b"[[", b"[="];

/// Whether a word is in a table.
fn is_among(mut table: &[&[u8]], word: &[u8]) -> bool
    ensures { result ≡ is_among (map (λ entry. entry.now) table.entry.now) word.now }
{
    while let [entry, rest @ ..] = table {
        if *entry == word {
            return true;
        }
        table = rest;
    }
    false
}

/// What bytes spell that begin no blank, comment, word, numeral or text, if they spell one piece.
fn symbol_piece(bytes: &[u8]) -> Option<Piece>
    ensures { result ≡ symbol_piece bytes.now }
{
    if symbol_of(bytes).is_some() {
        Some(Piece::Token(Sort::Symbol))
    } else if is_among(&REFUSED_SYMBOLS, bytes) {
        Some(Piece::Wrong(SyntaxWhy::Symbol))
    } else if bytes.len() == 1 {
        Some(Piece::Wrong(SyntaxWhy::Byte))
    } else {
        None
    }
}

/// What so many bytes at the beginning spell as a symbol, if there are so many.
fn symbol_at(len: usize, bytes: &[u8]) -> Option<Piece>
    ensures { result ≡ symbol_at len bytes.now }
{
    if len <= bytes.len() {
        symbol_piece(&bytes[..len])
    } else {
        None
    }
}

/// The symbol at the beginning, the longest that stands there, or the byte there that begins nothing.
pub fn symbol(bytes: &[u8]) -> (Piece, usize)
    requires { 0 < length bytes.now }
    ensures { IsFrontOf symbol_piece bytes.now result.1 result.0 }
{
    match symbol_at(3, bytes) {
        Some(piece) => (piece, 3),
        None => match symbol_at(2, bytes) {
            Some(piece) => (piece, 2),
            None => match symbol_at(1, bytes) {
                Some(piece) => (piece, 1),
                // Each byte alone spells a symbol or is wrong.
                None => unreachable!(),
            },
        },
    }
}
