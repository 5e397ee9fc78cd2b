//! Making nodes in their places.

ghost use Rattle.std.specs.Prelude.{◌≡◌, true, OnOk, IfOk};
ghost use Rattle.ntx_num.specs.Trace.{EndsAs};
ghost use Rattle.ntx_nodes.specs.Heap.{is_live};
ghost use Rattle.ntx_nodes.specs.Writing.{AreMakable};
ghost use Rattle.ntx_lists.specs.MadeNodes.{made_and_linked, RefusesMakings, HasFields, TakesLink, KeepLinks};

use ntx_nodes::{Field, FieldValue, Fields, Nodes, Trouble, make_like, write};
use ntx_num::Fail;

/// Makes a node with these fields and the attributes of the node `like`, sets the link `f` of the node `n` to it, and gives
/// its name.
///
/// # Refusals
///
/// `NodesFull` if 2^18 nodes are live, else `NamesOut` if the next name is 2^48. The heap is then as it was. After running
/// out of memory it is as after one of the steps, or as before them.
pub fn make_linked<N: Nodes>(
    nodes: &mut N,
    fields: Fields,
    like: u64,
    n: u64,
    f: Field,
) -> Result<u64, Fail<Trouble>>
    requires makable { AreMakable (N.heap nodes.old) fields }
    requires like { is_live (N.heap nodes.old) like ≡ true }
    requires linkable { TakesLink (N.heap nodes.old) n f }
    ensures traced { EndsAs result (N.heap nodes.new) (made_and_linked fields like n f (N.heap nodes.old)) }
    ensures refused { RefusesMakings result }
    ensures keep { OnOk result (KeepLinks (N.heap nodes.old) (N.heap nodes.new)) }
    ensures made { IfOk result (λ new. HasFields (N.heap nodes.new) new fields) }
{
    nodes.lawful();
    let new = make_like(nodes, fields, like)?;
    write(nodes, n, f, FieldValue::Link(Some(new)));
    Ok(new)
}
