//! Comments.

ghost use Rattle.std.specs.Prelude.{◌≡◌, ◌<◌, ◌≤◌, ◌+◌, ◌^◌, length, drop, IfSome, true};
ghost use Rattle.ntx_syntax.specs.Pieces.{bracket_level, begins_comment, comment_piece};
ghost use Rattle.ntx_syntax.specs.inner.Front.{IsFrontOf, IsCommentRest, bracketed_len};

use crate::bytes::{Class, byte, run};
use crate::fault::SyntaxWhy;
use crate::piece::Piece;

/// The level of the long bracket at the beginning: the mark, as many `=` as the level says, and the mark again.
fn bracket_level(mark: u8, bytes: &[u8]) -> Option<usize>
    requires { 0 < mark }
    ensures value { result ≡ bracket_level mark bytes.now }
    ensures within { IfSome result (λ level. level + 2 ≤ length bytes.now) }
{
    if byte(bytes, 0) != mark {
        return None;
    }
    let level = run(Class::EqualSign, &bytes[1..]);
    if byte(bytes, level + 1) == mark {
        Some(level)
    } else {
        None
    }
}

/// How many bytes stand up to the end of the first closing bracket of this level.
fn bracketed_len(level: usize, bytes: &[u8]) -> Option<usize>
    ensures value { result ≡ bracketed_len level bytes.now }
    ensures within { IfSome result (λ len. len ≤ length bytes.now) }
{
    for at in 0..bytes.len() {
        if bracket_level(b']', &bytes[at..]) == Some(level) {
            return Some(at + (level + 2));
        }
    }
    None
}

/// The comment whose two dashes stand before these bytes, and how many of them it takes. A long comment that is not
/// closed is wrong.
fn comment_rest(bytes: &[u8]) -> (Piece, usize)
    ensures { IsCommentRest bytes.now result.1 result.0 }
{
    match bracket_level(b'[', bytes) {
        None => (Piece::Gap, run(Class::Line, bytes)),
        Some(level) => {
            let opening = level + 2;
            match bracketed_len(level, &bytes[opening..]) {
                None => (Piece::Wrong(SyntaxWhy::Comment), opening),
                Some(len) => (Piece::Gap, opening + len),
            }
        }
    }
}

/// Whether two dashes stand at the beginning.
pub fn begins_comment(bytes: &[u8]) -> bool
    ensures { result ≡ begins_comment bytes.now }
{
    byte(bytes, 0) == b'-' && byte(bytes, 1) == b'-'
}

/// The comment at the beginning.
pub fn comment(bytes: &[u8]) -> (Piece, usize)
    requires { begins_comment bytes.now ≡ true }
    ensures front { IsFrontOf (λ part. comment_piece (drop 2 part)) bytes.now result.1 result.0 }
    ensures dashes { 2 ≤ result.1 }
{
    let (piece, len) = comment_rest(&bytes[2..]);
    (piece, len + 2)
}
