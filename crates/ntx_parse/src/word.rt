//! The words of a script.

ghost use Rattle.std.specs.Prelude.{◌≡◌, ◌≤◌, length, map, slice_range, IfOk, Some};
ghost use Rattle.ntx_syntax.specs.Lexes.{StandInOrder};
ghost use Rattle.ntx_syntax.specs.Pieces.{piece_of};
ghost use Rattle.ntx_syntax.specs.declared.piece.Piece.TheVariants as piece;
ghost use Rattle.ntx_parse.specs.Words as words;
ghost use Rattle.ntx_parse.specs.inner.Input.{seen};

use ntx_syntax::{Terminal, Token, terminal_of};
use std::alloc::{AllocError, Global};

/// A token: what it is to the grammar, the bytes that spell it, and its line, from 1.
#[derive(Clone, Copy)]
pub struct Word<'a> {
    /// What it is.
    pub is: Terminal,
    /// The bytes that spell it.
    pub spelled: &'a [u8],
    /// The number of its line, from 1.
    pub line: u64,
}

/// The word that a token is.
fn word_of<'a>(bytes: &'a [u8], token: Token) -> Word<'a>
    requires start { token.start ≤ token.end }
    requires end { token.end ≤ length bytes.now }
    requires spells { piece_of (slice_range bytes.now token.start token.end) ≡ Some (piece.Token token.sort) }
    ensures { seen result ≡ words.word_of bytes.now token }
{
    let spelled = &bytes[token.start as usize..token.end as usize];
    Word {
        is: terminal_of(token.sort, spelled),
        spelled,
        line: token.line,
    }
}

/// The words that the tokens are.
pub fn words_of<'a>(
    alloc: Global,
    bytes: &'a [u8],
    tokens: &[Token],
) -> Result<Vec<Word<'a>>, AllocError>
    requires { StandInOrder bytes.now 0 tokens.now }
    ensures { IfOk result (λ found. map seen found.items ≡ words.words_of bytes.now tokens.now) }
{
    let mut found = Vec::new(alloc);
    for token in tokens {
        found.push(word_of(bytes, *token))?;
    }
    Ok(found)
}
