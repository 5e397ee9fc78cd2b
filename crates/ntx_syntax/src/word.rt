//! Names and keywords.

ghost use Rattle.std.specs.Prelude.{◌≡◌, slice_index, true};
ghost use Rattle.ntx_syntax.specs.Bytes.{begins_name};
ghost use Rattle.ntx_syntax.specs.Pieces.{word_sort, word_piece};
ghost use Rattle.ntx_syntax.specs.inner.Front.{IsFrontOf};

use crate::bytes::{Class, run};
use crate::piece::Piece;
use crate::terminal::keyword_of;
use crate::token::Sort;

/// What a word is.
fn word_sort(word: &[u8]) -> Sort
    ensures { result ≡ word_sort word.now }
{
    match keyword_of(word) {
        Some(_) => Sort::Keyword,
        None => Sort::Name,
    }
}

/// The name or the keyword at the beginning.
pub fn word(bytes: &[u8]) -> (Piece, usize)
    requires { begins_name (slice_index bytes.now 0) ≡ true }
    ensures { IsFrontOf word_piece bytes.now result.1 result.0 }
{
    let len = run(Class::Word, bytes);
    (Piece::Token(word_sort(&bytes[..len])), len)
}
