//! Ligatures, as fonts have them.

ghost use Rattle.std.specs.Prelude.{◌≡◌};
ghost use Rattle.ntx_ligkern.specs.Ligatures.{passes_over, keeps_left, keeps_right, lig_of, lig_between};

use crate::glyph::pair_between;
use ntx_nodes::Nodes;
use ntx_pairs::Pair;
use ntx_tfm::Font;

/// A ligature: its operation and its character.
#[derive(Clone, Copy, Debug, PartialEq, Eq)]
pub struct Lig {
    /// 4a + 2b + q: the cursor passes over a glyphs, b is 1 where the left one stays, and q where the right one does.
    pub op: u8,
    /// The code of its character.
    pub code: u8,
}

impl Lig {
    /// How many glyphs of the result the cursor passes over.
    pub(crate) fn passes_over(self) -> u8
        ensures { result ≡ passes_over self }
    {
        self.op / 4
    }

    /// Whether the left glyph stays.
    pub(crate) fn keeps_left(self) -> bool
        ensures { result ≡ keeps_left self }
    {
        self.op / 2 % 2 == 1
    }

    /// Whether the right glyph stays.
    pub(crate) fn keeps_right(self) -> bool
        ensures { result ≡ keeps_right self }
    {
        self.op % 2 == 1
    }
}

/// A pair as a ligature, if it is one.
fn lig_of(pair: Pair) -> Option<Lig>
    ensures { result ≡ lig_of pair }
{
    match pair {
        Pair::Lig(op, code) => Some(Lig { op, code }),
        _ => None,
    }
}

/// The ligature of two nodes that stand side by side, if their font has one.
pub(crate) fn lig_between<N: Nodes>(
    nodes: &N,
    fonts: &[Font],
    left: Option<u64>,
    right: Option<u64>,
) -> Option<Lig>
    ensures { result ≡ lig_between fonts.now (N.heap nodes.now) left right }
{
    lig_of(pair_between(nodes, fonts, left, right))
}
