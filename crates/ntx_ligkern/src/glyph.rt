//! Glyphs of a heap, and what their fonts say of two of them.

ghost use Rattle.std.specs.Prelude.{◌≡◌};
ghost use Rattle.ntx_ligkern.specs.Glyphs.{glyph_of, glyph_at, pair_of_glyphs, pair_between};
ghost use Rattle.ntx_ligkern.specs.inner.Sound.{IsFitPair};

use ntx_nodes::{Contents, Nodes};
use ntx_pairs::{Pair, pair};
use ntx_tfm::Font;

/// A glyph, by its character.
#[derive(Clone, Copy)]
pub struct Glyph {
    /// The code of its character.
    pub code: u8,
    /// Its font.
    pub font: u8,
}

/// The contents of a node as a glyph, if it is one.
fn glyph_of(contents: Contents) -> Option<Glyph>
    ensures { result ≡ glyph_of contents }
{
    match contents {
        Contents::Glyph(g) => Some(Glyph {
            code: g.char,
            font: g.font,
        }),
        _ => None,
    }
}

/// A node as a glyph, if it is one.
pub(crate) fn glyph_at<N: Nodes>(nodes: &N, n: u64) -> Option<Glyph>
    ensures { result ≡ glyph_at (N.heap nodes.now) n }
{
    match nodes.fields(n) {
        Ok(fields) => glyph_of(fields.contents),
        Err(_) => None,
    }
}

/// What their font says of two glyphs: nothing where they have two fonts, or the font is not there.
fn pair_of_glyphs(fonts: &[Font], left: Glyph, right: Glyph) -> Pair
    ensures value { result ≡ pair_of_glyphs fonts.now left right }
    ensures good { IsFitPair result }
{
    if left.font != right.font {
        return Pair::None;
    }
    match fonts.get(usize::from(left.font)) {
        Some(font) => pair(font, left.code, right.code),
        None => Pair::None,
    }
}

/// What their font says of two nodes that stand side by side: nothing unless both are there and are glyphs.
pub(crate) fn pair_between<N: Nodes>(
    nodes: &N,
    fonts: &[Font],
    left: Option<u64>,
    right: Option<u64>,
) -> Pair
    ensures value { result ≡ pair_between fonts.now (N.heap nodes.now) left right }
    ensures good { IsFitPair result }
{
    let Some(left) = left else {
        return Pair::None;
    };
    let Some(right) = right else {
        return Pair::None;
    };
    let Some(left) = glyph_at(nodes, left) else {
        return Pair::None;
    };
    let Some(right) = glyph_at(nodes, right) else {
        return Pair::None;
    };
    pair_of_glyphs(fonts, left, right)
}
