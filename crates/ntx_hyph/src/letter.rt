//! The letters of a list, and the gaps between them.

ghost use Rattle.std.specs.Prelude.{◌≡◌};
ghost use Rattle.ntx_hyph.specs.Words.{letter_of, letter_at};

use ntx_nodes::{Contents, Nodes};

/// A glyph whose code is a letter, A to Z or a to z.
#[derive(Clone, Copy, Debug, PartialEq, Eq)]
pub struct Letter {
    /// The name of its node.
    pub name: u64,
    /// Its code.
    pub code: u8,
    /// Its font.
    pub font: u8,
}

/// A gap between two letters of one font that stand next to each other.
#[derive(Clone, Copy, Debug, PartialEq, Eq)]
pub struct Gap {
    /// The name of the glyph before the gap.
    pub before: u64,
    /// The name of the glyph after it.
    pub after: u64,
    /// Their font.
    pub font: u8,
}

/// The node of this name and contents as a letter, if it is one.
fn letter_of(n: u64, contents: Contents) -> Option<Letter>
    ensures { result ≡ letter_of n contents }
{
    match contents {
        Contents::Glyph(g) if g.char.is_ascii_alphabetic() => Some(Letter {
            name: n,
            code: g.char,
            font: g.font,
        }),
        _ => None,
    }
}

/// A node as a letter, if it is one.
pub(crate) fn letter_at<N: Nodes>(nodes: &N, n: u64) -> Option<Letter>
    ensures { result ≡ letter_at (N.heap nodes.now) n }
{
    match nodes.fields(n) {
        Ok(fields) => letter_of(n, fields.contents),
        Err(_) => None,
    }
}
