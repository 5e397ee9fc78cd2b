//! The tokens of a script.

ghost use Rattle.std.specs.Prelude.{◌≡◌, ◌<◌, ◌≤◌, ℕ, List, length, IfOk};
ghost use Rattle.ntx_num.specs.Answer.{Answers, result_map};
ghost use Rattle.ntx_syntax.specs.Lexes.{lexed_of, line_ends, Lexes, IsRefused, StandInOrder};
ghost use Rattle.ntx_syntax.specs.inner.Front.{IsFront};

use crate::bytes::{begins_name, is_blank, is_quote};
use crate::comment::{begins_comment, comment};
use crate::fault::SyntaxFault;
use crate::numeral::numeral;
use crate::piece::Piece;
use crate::symbol::symbol;
use crate::text::text;
use crate::token::Token;
use crate::word::word;
use ntx_num::Fail;
use std::alloc::Global;

/// The piece at the beginning, the longest that is spelled there, and its length in bytes.
fn front(bytes: &[u8]) -> (Piece, usize)
    requires { 0 < length bytes.now }
    ensures { IsFront bytes.now result.1 result.0 }
{
    let first = bytes[0];
    if is_blank(first) {
        (Piece::Gap, 1)
    } else if begins_name(first) {
        word(bytes)
    } else if first.is_ascii_digit() {
        numeral(bytes)
    } else if is_quote(first) {
        text(bytes)
    } else if begins_comment(bytes) {
        comment(bytes)
    } else {
        symbol(bytes)
    }
}

/// How many lines end in these bytes.
pub fn line_ends(bytes: &[u8]) -> usize
    ensures value { result ≡ line_ends bytes.now }
    ensures within { result ≤ length bytes.now }
{
    bytes.iter().filter(|b| **b == b'\n').count()
}

/// The tokens of a script, or its first fault.
fn lex(alloc: Global, bytes: &[u8]) -> Result<Vec<Token>, Fail<SyntaxFault>>
    ensures { Answers (result_map (λ tokens. tokens.items) result) (lexed_of bytes.now) }
{
    let mut found = Vec::new(alloc);
    let mut start = 0;
    let mut line = 1;
    while start < bytes.len() {
        let rest = &bytes[start..];
        let (piece, len) = front(rest);
        let end = start + len;
        match piece {
            Piece::Gap => {}
            Piece::Token(sort) => found.push(Token {
                sort,
                start: start as u64,
                end: end as u64,
                line,
            })?,
            Piece::Wrong(why) => return Err(Fail::Is(SyntaxFault { line, why })),
        }
        line += line_ends(&rest[..len]) as u64;
        start = end;
    }
    Ok(found)
}

/// The tokens of a script (Lua 5.3 Reference Manual, section 3.1), each with its slice of the bytes and its line.
///
/// # Refusals
///
/// A script is refused at the first place where something may not stand in it, with the line on which that begins: Byte,
/// Number, Text, Comment or Symbol.
pub fn tokens(alloc: Global, bytes: &[u8]) -> Result<Vec<Token>, Fail<SyntaxFault>>
    // What it gives are the script's tokens, and each stands in the script.
    ensures lexes { IfOk result (λ tokens. Lexes bytes.now tokens.items) }
    ensures stand { IfOk result (λ tokens. StandInOrder bytes.now 0 tokens.items) }
    // A script that has tokens is given them, unless memory runs out.
    ensures only { (found : List Token) → Lexes bytes.now found → Answers (result_map (λ tokens. tokens.items) result) (Ok found) }
    // A script that has none is refused with its first fault, unless memory runs out.
    ensures refused { (fault : SyntaxFault) → IsRefused bytes.now fault → Answers (result_map (λ tokens. tokens.items) result) (Err fault) }
    // Both are computed.
    ensures answer { Answers (result_map (λ tokens. tokens.items) result) (lexed_of bytes.now) }
{
    lex(alloc, bytes)
}
