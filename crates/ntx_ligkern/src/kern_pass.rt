//! The pass that puts kerns into a list.

ghost use Rattle.ntx_num.specs.Answer.{Traces};
ghost use Rattle.ntx_num.specs.Trace.{states, EndsAs};
ghost use Rattle.ntx_lists.specs.MadeNodes.{RefusesAs};
ghost use Rattle.ntx_ligkern.specs.Kerning.{kerned_list};

use crate::finding::kerns_of;
use crate::insertion::make_kerns;
use crate::listing::along;
use ntx_nodes::{ListKind, Nodes, Trouble, Way, visit_list};
use ntx_num::Fail;
use ntx_tfm::Font;
use std::alloc::Global;

/// Makes the walk that checks the list, and then the pass over it.
fn kern_list<N: Nodes>(
    alloc: Global,
    nodes: &mut N,
    fonts: &[Font],
    head: u64,
) -> Result<u64, Fail<Trouble>>
    ensures traced { EndsAs result (N.heap nodes.new) (kerned_list fonts.now head (N.heap nodes.old)) }
    ensures refused { RefusesAs (N.heap nodes.old) head result }
{
    match visit_list(nodes, Way::Checked, Some(head), ListKind::H) {
        Ok(()) => {}
        Err(why) => return Err(Fail::Is(why)),
    }
    nodes.lawful();
    let names = along(alloc, nodes, Some(head))?;
    let kerns = kerns_of(alloc, nodes, fonts, &names)?;
    make_kerns(nodes, &kerns)?;
    Ok(head)
}

/// Puts kerns into the list at a head, from the left to the right, and gives the head, which stays. Between two glyphs of
/// one font that stand side by side, and for which the font has a kern, a kern of subtype 0 with the attributes of the
/// left glyph is made. The number of a font is its place in `fonts`, counted from 0; a font that is not there has no kerns.
///
/// At a discretionary each of its lists is kerned by itself: `pre`, `post` and `replace`. Then these kerns come in this
/// order, each if a font has it:
///
/// 1. the kern of the node before the discretionary and the first of `pre`, at the beginning of `pre`;
/// 2. the kern of the node before it and the first of `replace`, at the beginning of `replace`; if `replace` is empty, the
///    kern of the nodes before and after the discretionary, into `replace`;
/// 3. the kern of the last of `post` and the node after it, at the end of `post`;
/// 4. the kern of the last of `replace` and the node after it, at the end of `replace`.
///
/// # Refusals
///
/// - Those of `check`: at each node of the walk through the list and all lists in it `Stale` if it is dead, `Loop` if the
///   walk reached it before, `Nest` at depth 101, and `WrongKind` if its list may not hold its kind, in this order.
/// - `NodesFull` if 2^18 nodes are live where a kern is to be made, else `NamesOut` if the next name is 2^48.
///
/// After a refusal, and after running out of memory, what was made before stands in the list.
pub fn kern<N: Nodes>(
    alloc: Global,
    nodes: &mut N,
    fonts: &[Font],
    head: u64,
) -> Result<u64, Fail<Trouble>>
    ensures traced { let pass = kerned_list fonts.now head (N.heap nodes.old) in Traces result (N.heap nodes.new) (states pass) pass.ending }
    ensures refused { RefusesAs (N.heap nodes.old) head result }
{
    kern_list(alloc, nodes, fonts, head)
}
