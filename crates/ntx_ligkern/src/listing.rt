//! The nodes of a list, one after another.

ghost use Rattle.std.specs.Prelude.{◌≡◌};
ghost use Rattle.ntx_num.specs.Answer.{Gives, result_map};
ghost use Rattle.ntx_ligkern.specs.Along.{next_of, along, AlongIsTheWalk};

use ntx_nodes::Nodes;
use ntx_num::NoMemory;
use std::alloc::Global;

/// What follows a node, and nothing after a dead one.
pub(crate) fn next_of<N: Nodes>(nodes: &N, n: u64) -> Option<u64>
    ensures { result ≡ next_of (N.heap nodes.now) n }
{
    match nodes.fields(n) {
        Ok(fields) => fields.next,
        Err(_) => None,
    }
}

/// The names of the list that a link leads to, no more than there are live nodes and one.
pub(crate) fn along<N: Nodes>(
    alloc: Global,
    nodes: &N,
    to: Option<u64>,
) -> Result<Vec<u64>, NoMemory>
    ensures { Gives (result_map (λ names. names.items) result) (along (N.heap nodes.now) to) }
{
    nodes.lawful();
    let mut names = Vec::new(alloc);
    let mut at = to;
    let mut most = nodes.live() + 1;
    while most > 0 {
        let Some(n) = at else {
            return Ok(names);
        };
        names.push(n)?;
        at = next_of(nodes, n);
        most -= 1;
    }
    Ok(names)
}

/// Does nothing. Its contract tells the law that the nodes of a list, one after another, are those that a flat walk reaches, if
/// it ends well.
pub fn lists_are_walked()
    ensures { AlongIsTheWalk }
{}
