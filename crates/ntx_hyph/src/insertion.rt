//! Making discretionaries in the gaps of a list.

ghost use Rattle.std.specs.Prelude.{◌≡◌, All, OnOk};
ghost use Rattle.ntx_num.specs.Trace.{each_in_turn, EndsAs};
ghost use Rattle.ntx_lists.specs.MadeNodes.{RefusesMakings, KeepLinks};
ghost use Rattle.ntx_hyph.specs.Hyphenation.{disc_fields, hyphen_fields, hyphenated};
ghost use Rattle.ntx_hyph.specs.inner.Sound.{IsSound};

use crate::letter::Gap;
use ntx_lists::make_linked;
use ntx_nodes::{Contents, DiscFields, Field, Fields, GlyphFields, Nodes, Trouble};
use ntx_num::Fail;

/// The subtype of a regular discretionary.
const REGULAR: u8 = 3;

/// The fields of a discretionary in a gap, with no lists yet.
fn disc_fields(gap: Gap) -> Fields
    ensures { result ≡ disc_fields gap }
{
    Fields {
        subtype: REGULAR,
        next: Some(gap.after),
        contents: Contents::Disc(DiscFields {
            pre: None,
            post: None,
            replace: None,
        }),
    }
}

/// The fields of the hyphen in a gap.
fn hyphen_fields(char: u8, gap: Gap) -> Fields
    ensures { result ≡ hyphen_fields char gap }
{
    Fields {
        subtype: 0,
        next: None,
        contents: Contents::Glyph(GlyphFields {
            char,
            font: gap.font,
        }),
    }
}

/// Makes a discretionary in a gap, and its hyphen. Refuses as the making of a node.
fn hyphenate_gap<N: Nodes>(nodes: &mut N, char: u8, gap: Gap) -> Result<(), Fail<Trouble>>
    requires { IsSound (N.heap nodes.old) gap }
    ensures traced { EndsAs result (N.heap nodes.new) (hyphenated char gap (N.heap nodes.old)) }
    ensures refused { RefusesMakings result }
    ensures keep { OnOk result (KeepLinks (N.heap nodes.old) (N.heap nodes.new)) }
{
    let disc = make_linked(nodes, disc_fields(gap), gap.before, gap.before, Field::Next)?;
    make_linked(
        nodes,
        hyphen_fields(char, gap),
        gap.before,
        disc,
        Field::Pre,
    )?;
    Ok(())
}

/// The same in each of some gaps, one after another.
pub(crate) fn hyphenate_gaps<N: Nodes>(
    nodes: &mut N,
    char: u8,
    gaps: &[Gap],
) -> Result<(), Fail<Trouble>>
    requires { All (IsSound (N.heap nodes.old)) gaps.now }
    ensures traced { EndsAs result (N.heap nodes.new) (each_in_turn (hyphenated char) gaps.now (N.heap nodes.old)) }
    ensures refused { RefusesMakings result }
{
    for gap in gaps {
        hyphenate_gap(nodes, char, *gap)?;
    }
    Ok(())
}
