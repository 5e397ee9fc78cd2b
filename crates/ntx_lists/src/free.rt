//! Freeing lists.

ghost use Rattle.std.specs.Prelude.{◌≡◌, ◌+◌, ◌≤◌};
ghost use Rattle.std.specs.FinMap as map;
ghost use Rattle.ntx_num.specs.Answer.{StepsAtOnce};
ghost use Rattle.ntx_nodes.specs.Walk.{max_depth};
ghost use Rattle.ntx_lists.specs.Trees.{Frees, free_tree_step, flush_list_step};

use crate::links::{following, inner_lists, visit_tree};
use ntx_nodes::{ListKind, MAX_DEPTH, Nodes, Trouble, Way, visit_list};

/// Frees all that the list at a head reaches, where a walk has come to its end before.
fn free_list<N: Nodes>(nodes: &mut N, head: Option<u64>, depth: u64)
    requires { depth ≤ max_depth + 1 }
    ensures frees { Frees (N.heap nodes.old) (N.heap nodes.new) head depth }
    ensures fewer { map.len (N.heap nodes.new).nodes ≤ map.len (N.heap nodes.old).nodes }
{
    let mut at = head;
    while let Some(n) = at {
        let lists = inner_lists(nodes, n);
        at = following(nodes, n);
        if depth > MAX_DEPTH {
            return;
        }
        match nodes.free_one(n) {
            Ok(()) => {}
            Err(_) => return,
        }
        free_list(nodes, lists.first, depth + 1);
        free_list(nodes, lists.second, depth + 1);
        free_list(nodes, lists.third, depth + 1);
    }
}

/// Frees a node with its inner lists, and not what follows it.
///
/// At each node it refuses with Stale where it is dead, Loop where the walk reached it before, and Nest at depth 101, in
/// this order, and frees nothing then.
pub fn free_tree<N: Nodes>(nodes: &mut N, n: u64) -> Result<(), Trouble>
    ensures step { StepsAtOnce result (N.heap nodes.old) (N.heap nodes.new) (free_tree_step n (N.heap nodes.old)) }
{
    visit_tree(nodes, n)?;
    let lists = inner_lists(nodes, n);
    nodes.free_one(n)?;
    free_list(nodes, lists.first, 1);
    free_list(nodes, lists.second, 1);
    free_list(nodes, lists.third, 1);
    Ok(())
}

/// Frees all that the list at a head reaches, with the lists inside it. Refuses as `free_tree`.
pub fn flush_list<N: Nodes>(nodes: &mut N, head: Option<u64>) -> Result<(), Trouble>
    ensures step { StepsAtOnce result (N.heap nodes.old) (N.heap nodes.new) (flush_list_step head (N.heap nodes.old)) }
{
    visit_list(nodes, Way::Plain, head, ListKind::H)?;
    free_list(nodes, head, 0);
    Ok(())
}
