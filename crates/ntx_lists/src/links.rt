//! The inner lists of a node, and the way through them.

ghost use Rattle.std.specs.Prelude.{◌≡◌};
ghost use Rattle.ntx_num.specs.Answer.{result_map};
ghost use Rattle.ntx_nodes.specs.Walk.{tree_walk};
ghost use Rattle.ntx_lists.specs.Lists.{next_of};
ghost use Rattle.ntx_lists.specs.Trees.{inner_at};

use ntx_nodes::{InnerLists, ListKind, Nodes, Trouble, Way, visit_on};

/// The inner lists of a node, and none of a dead one.
pub(crate) fn inner_lists<N: Nodes>(nodes: &N, n: u64) -> InnerLists
    ensures { result ≡ inner_at (N.heap nodes.now) n }
{
    match nodes.fields(n) {
        Ok(fields) => fields.contents.inner_lists(),
        Err(_) => InnerLists::none(),
    }
}

/// What follows a node, and nothing after a dead one.
pub(crate) fn following<N: Nodes>(nodes: &N, n: u64) -> Option<u64>
    ensures { result ≡ next_of (N.heap nodes.now) n }
{
    match nodes.fields(n) {
        Ok(fields) => fields.next,
        Err(_) => None,
    }
}

/// Walks a node with its inner lists, without what follows it. Takes no memory.
///
/// At each node it refuses with Stale where it is dead, Loop where the walk reached it before, and Nest at depth 101.
pub(crate) fn visit_tree<N: Nodes>(nodes: &mut N, n: u64) -> Result<(), Trouble>
    ensures same { N.heap nodes.new ≡ N.heap nodes.old }
    ensures answer { result ≡ result_map (λ _. tt) (tree_walk (N.heap nodes.old) n) }
{
    nodes.begin_walk();
    nodes.visit(n)?;
    let lists = inner_lists(nodes, n);
    visit_on(nodes, Way::Plain, lists.first, 1, ListKind::H)?;
    visit_on(nodes, Way::Plain, lists.second, 1, ListKind::H)?;
    visit_on(nodes, Way::Plain, lists.third, 1, ListKind::H)
}
