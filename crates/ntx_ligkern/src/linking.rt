//! Nodes changed in the middle of a pass, step by step.

ghost use Rattle.std.specs.Prelude.{pos};
ghost use Rattle.ntx_num.specs.Trace.{EndsAs};
ghost use Rattle.ntx_ligkern.specs.Ligatures.{set_to, linked, put_in, copied, let_die};

use ntx_nodes::{Field, FieldValue, Nodes, Trouble};
use ntx_num::Fail;

/// Sets a field of a node. Refuses as `Nodes::set`.
fn set<N: Nodes>(nodes: &mut N, n: u64, f: Field, v: FieldValue) -> Result<(), Fail<Trouble>>
    ensures { EndsAs result (N.heap nodes.new) (set_to n f v (N.heap nodes.old)) }
{
    match nodes.set(n, f, v) {
        Ok(()) => Ok(()),
        Err(why) => Err(Fail::Is(why)),
    }
}

/// Sets a field of a node to a number.
pub(crate) fn set_number<N: Nodes>(
    nodes: &mut N,
    n: u64,
    f: Field,
    x: u8,
) -> Result<(), Fail<Trouble>>
    ensures { EndsAs result (N.heap nodes.new) (set_to n f (FieldValue.Number (pos x)) (N.heap nodes.old)) }
{
    set(nodes, n, f, FieldValue::Number(i64::from(x)))
}

/// Sets a link of a node.
pub(crate) fn link<N: Nodes>(
    nodes: &mut N,
    n: u64,
    f: Field,
    to: Option<u64>,
) -> Result<(), Fail<Trouble>>
    ensures { EndsAs result (N.heap nodes.new) (linked n f to (N.heap nodes.old)) }
{
    set(nodes, n, f, FieldValue::Link(to))
}

/// Puts a node of no list before `next`, where the link `f` of the node `n` leads to it.
pub(crate) fn put_in<N: Nodes>(
    nodes: &mut N,
    new: u64,
    n: u64,
    f: Field,
    next: Option<u64>,
) -> Result<(), Fail<Trouble>>
    ensures { EndsAs result (N.heap nodes.new) (put_in new n f next (N.heap nodes.old)) }
{
    link(nodes, new, Field::Next, next)?;
    link(nodes, n, f, Some(new))
}

/// Copies a node. Refuses as `Nodes::copy_one`.
pub(crate) fn copy<N: Nodes>(nodes: &mut N, n: u64) -> Result<u64, Fail<Trouble>>
    ensures { EndsAs result (N.heap nodes.new) (copied n (N.heap nodes.old)) }
{
    nodes.copy_one(n)
}

/// Frees a node. Refuses as `Nodes::free_one`.
pub(crate) fn free<N: Nodes>(nodes: &mut N, n: u64) -> Result<(), Fail<Trouble>>
    ensures { EndsAs result (N.heap nodes.new) (let_die n (N.heap nodes.old)) }
{
    match nodes.free_one(n) {
        Ok(()) => Ok(()),
        Err(why) => Err(Fail::Is(why)),
    }
}
