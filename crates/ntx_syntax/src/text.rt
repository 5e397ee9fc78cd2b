//! Texts.

ghost use Rattle.std.specs.Prelude.{◌≡◌, ◌<◌, ◌≤◌, [], ◌∷◌, length, IfSome, IsSome, option_map, slice_index, true};
ghost use Rattle.std.specs.Char.{is_ascii_digit};
ghost use Rattle.ntx_num.specs.Answer.{Gives, result_map};
ghost use Rattle.ntx_syntax.specs.Bytes.{is_quote};
ghost use Rattle.ntx_syntax.specs.Values as value;
ghost use Rattle.ntx_syntax.specs.Pieces.{text_piece};
ghost use Rattle.ntx_syntax.specs.inner.Front.{IsFrontOf, quoted_len, character};

use crate::bytes::{byte, hex_value};
use crate::fault::SyntaxWhy;
use crate::piece::Piece;
use crate::token::Sort;
use ntx_num::NoMemory;
use std::alloc::Global;

/// The byte that a letter or a mark after a backslash represents.
fn plain_escape(c: u8) -> Option<u8>
    ensures { result ≡ value.plain_escape c }
{
    match c {
        b'a' => Some(7),
        b'b' => Some(8),
        b'f' => Some(12),
        b'n' => Some(10),
        b'r' => Some(13),
        b't' => Some(9),
        b'v' => Some(11),
        b'\\' | b'"' | b'\'' => Some(c),
        _ => None,
    }
}

/// The byte that the digits `c`, `d` and `e` write, as far as they are digits, and how many they are. It is 255 at most.
fn decimal_escape(c: u8, d: u8, e: u8) -> Option<(u8, usize)>
    requires { is_ascii_digit c ≡ true }
    ensures { result ≡ value.decimal_escape (c ∷ d ∷ e ∷ []) }
{
    let one = c - b'0';
    if !d.is_ascii_digit() {
        return Some((one, 1));
    }
    let two = one * 10 + (d - b'0');
    if !e.is_ascii_digit() {
        return Some((two, 2));
    }
    let three = two as u32 * 10 + (e - b'0') as u32;
    if three <= 255 {
        Some((three as u8, 3))
    } else {
        None
    }
}

/// The byte that two hexadecimal digits write after `x`.
fn hexadecimal_escape(high: u8, low: u8) -> Option<(u8, usize)>
    ensures { result ≡ value.hexadecimal_escape high low }
{
    if high.is_ascii_hexdigit() && low.is_ascii_hexdigit() {
        Some((hex_value(high) * 16 + hex_value(low), 3))
    } else {
        None
    }
}

/// The byte that the escape after a backslash represents, and how many bytes it takes.
fn escape(bytes: &[u8]) -> Option<(u8, usize)>
    ensures value { result ≡ value.escape bytes.now }
    ensures within { IfSome result (λ e. (0 < e.1) × (e.1 ≤ length bytes.now)) }
{
    let c = byte(bytes, 0);
    let d = byte(bytes, 1);
    let e = byte(bytes, 2);
    if c == b'x' {
        hexadecimal_escape(d, e)
    } else if c.is_ascii_digit() {
        decimal_escape(c, d, e)
    } else {
        let value = plain_escape(c)?;
        Some((value, 1))
    }
}

/// How many bytes after a backslash its escape takes.
fn escape_len(bytes: &[u8]) -> Option<usize>
    ensures value { result ≡ option_map (λ e. e.1) (value.escape bytes.now) }
    ensures within { IfSome result (λ len. len ≤ length bytes.now) }
{
    let (_, len) = escape(bytes)?;
    Some(len)
}

/// How many bytes after an opening quote its text takes, the closing quote among them.
fn quoted_len(quote: u8, bytes: &[u8]) -> Option<usize>
    ensures value { result ≡ quoted_len quote 0 bytes.now }
    ensures within { IfSome result (λ len. len ≤ length bytes.now) }
{
    let mut at = 0;
    while at < bytes.len() {
        let b = bytes[at];
        at += 1;
        if b == quote {
            return Some(at);
        }
        if b == b'\n' {
            return None;
        }
        if b == b'\\' {
            at += escape_len(&bytes[at..])?;
        }
    }
    None
}

/// The text at the beginning, wrong where its line does not close it or where an escape is none.
pub fn text(bytes: &[u8]) -> (Piece, usize)
    requires { is_quote (slice_index bytes.now 0) ≡ true }
    ensures { IsFrontOf text_piece bytes.now result.1 result.0 }
{
    match quoted_len(bytes[0], &bytes[1..]) {
        Some(len) => (Piece::Token(Sort::Text), len + 1),
        None => (Piece::Wrong(SyntaxWhy::Text), 1),
    }
}

/// The character at the beginning of bytes within a text, and how many bytes spell it.
fn character(bytes: &[u8]) -> Option<(u8, usize)>
    requires { 0 < length bytes.now }
    ensures value { result ≡ character bytes.now }
    ensures within { IfSome result (λ found. (0 < found.1) × (found.1 ≤ length bytes.now)) }
{
    if bytes[0] == b'\\' {
        let (value, len) = escape(&bytes[1..])?;
        Some((value, len + 1))
    } else {
        Some((bytes[0], 1))
    }
}

/// The bytes that a text represents, of those that spell it with its quotes.
///
/// `bytes` spell one text from its opening quote to its closing one, as those of a token of sort `Text` do.
pub fn text_value(alloc: Global, bytes: &[u8]) -> Result<Vec<u8>, NoMemory>
    requires { IsSome (value.text_value bytes.now) }
    ensures { Gives (result_map (λ found. Some found.items) result) (value.text_value bytes.now) }
{
    let mut found = Vec::new(alloc);
    let quote = byte(bytes, 0);
    let mut at = 1;
    while byte(bytes, at) != quote {
        match character(&bytes[at..]) {
            Some((value, len)) => {
                found.push(value)?;
                at += len;
            }
            // A text has nothing but characters before its closing quote.
            None => unreachable!(),
        }
    }
    Ok(found)
}
