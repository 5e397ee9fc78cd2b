//! Making kerns in their places.

ghost use Rattle.std.specs.Prelude.{◌≡◌, All, OnOk};
ghost use Rattle.ntx_num.specs.Trace.{each_in_turn, EndsAs};
ghost use Rattle.ntx_lists.specs.MadeNodes.{RefusesMakings, KeepLinks};
ghost use Rattle.ntx_ligkern.specs.Kerning.{kern_fields, kern_made};
ghost use Rattle.ntx_ligkern.specs.inner.Sound.{IsWide, IsPlaced};

use crate::place::Kerning;
use ntx_lists::make_linked;
use ntx_nodes::{Contents, Fields, Nodes, Trouble};
use ntx_num::Fail;

/// The fields of a kern of a font.
fn kern_fields(k: Kerning) -> Fields
    ensures { result ≡ kern_fields k }
{
    Fields {
        subtype: 0,
        next: k.place.next,
        contents: Contents::Kern(k.width),
    }
}

/// Makes a kern with the attributes of the glyph on its left, in its place. Refuses as the making of a node.
fn make_kern<N: Nodes>(nodes: &mut N, k: Kerning) -> Result<(), Fail<Trouble>>
    requires wide { IsWide k }
    requires placed { IsPlaced (N.heap nodes.old) k }
    ensures traced { EndsAs result (N.heap nodes.new) (kern_made k (N.heap nodes.old)) }
    ensures refused { RefusesMakings result }
    ensures keep { OnOk result (KeepLinks (N.heap nodes.old) (N.heap nodes.new)) }
{
    make_linked(nodes, kern_fields(k), k.left, k.place.at, k.place.field)?;
    Ok(())
}

/// The same of several kerns, one after another.
pub(crate) fn make_kerns<N: Nodes>(nodes: &mut N, kerns: &[Kerning]) -> Result<(), Fail<Trouble>>
    requires wide { All IsWide kerns.now }
    requires placed { All (IsPlaced (N.heap nodes.old)) kerns.now }
    ensures traced { EndsAs result (N.heap nodes.new) (each_in_turn kern_made kerns.now (N.heap nodes.old)) }
    ensures refused { RefusesMakings result }
{
    for k in kerns {
        make_kern(nodes, *k)?;
    }
    Ok(())
}
