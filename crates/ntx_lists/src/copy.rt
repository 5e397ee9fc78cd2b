//! Copying lists.

ghost use Rattle.std.specs.Prelude.{◌≡◌, ◌+◌, ◌≤◌, ◌<◌, ◌^◌};
ghost use Rattle.ntx_nodes.specs.Walk.{max_depth, plain_walk, tree_walk};
ghost use Rattle.ntx_lists.specs.Copies.{copy_list_step, copy_tree_step, Copies};
ghost use Rattle.ntx_lists.specs.Copying.{Makes, MakesRest, FreesRun, SetsLink, SetsParts, SetsListsOf, SetsLists, is_box, is_disc, SetsLinks, link_to, Links, LinksRest, CopiesNode};

use crate::links::{following, inner_lists, visit_tree};
use ntx_nodes::{
    Field, FieldValue, InnerLists, Kind, ListKind, MAX_DEPTH, Nodes, Trouble, Way, visit_list,
};
use ntx_num::Fail;
use std::alloc::Global;

/// Copies all that the list at a head reaches, one node after another in the order of the walk, with no links yet, where a
/// walk has come to its end before. It stops at the first copy that cannot be made.
fn make_list<N: Nodes>(nodes: &mut N, head: Option<u64>, depth: u64) -> Result<(), Fail<Trouble>>
    requires { depth ≤ max_depth + 1 }
    ensures makes { Makes (N.heap nodes.old) (N.heap nodes.new) head depth result }
    ensures grows { (N.heap nodes.old).next ≤ (N.heap nodes.new).next }
{
    let mut at = head;
    while let Some(n) = at {
        if depth > MAX_DEPTH {
            return Err(Fail::Is(Trouble::Nest));
        }
        let lists = inner_lists(nodes, n);
        at = following(nodes, n);
        nodes.lawful();
        nodes.copy_one(n)?;
        make_list(nodes, lists.first, depth + 1)?;
        make_list(nodes, lists.second, depth + 1)?;
        make_list(nodes, lists.third, depth + 1)?;
    }
    Ok(())
}

/// Frees the nodes from a name on, one name after another, as far as they are live.
fn free_run<N: Nodes>(nodes: &mut N, first: u64)
    ensures { FreesRun (N.heap nodes.old) (N.heap nodes.new) first }
{
    let mut n = first;
    nodes.lawful();
    while let Ok(()) = nodes.free_one(n) {
        nodes.lawful();
        n += 1;
    }
}

/// Sets a link of a node, where it has one, to a live node or to nothing.
fn set_link<N: Nodes>(nodes: &mut N, n: u64, f: Field, to: Option<u64>)
    ensures sets { SetsLink (N.heap nodes.old) (N.heap nodes.new) n f to }
    ensures names { (N.heap nodes.new).next ≡ (N.heap nodes.old).next }
{
    let _done = nodes.set(n, f, FieldValue::Link(to));
}

/// Sets the lists of a discretionary.
fn set_parts<N: Nodes>(nodes: &mut N, n: u64, lists: InnerLists)
    ensures sets { SetsParts (N.heap nodes.old) (N.heap nodes.new) n lists }
    ensures names { (N.heap nodes.new).next ≡ (N.heap nodes.old).next }
{
    set_link(nodes, n, Field::Pre, lists.first);
    set_link(nodes, n, Field::Post, lists.second);
    set_link(nodes, n, Field::Replace, lists.third);
}

/// Whether a node of this kind holds one list.
fn is_box(kind: Kind) -> bool
    ensures { result ≡ is_box kind }
{
    matches!(kind, Kind::Hlist | Kind::Vlist)
}

/// Whether a node of this kind holds three lists.
fn is_disc(kind: Kind) -> bool
    ensures { result ≡ is_disc kind }
{
    matches!(kind, Kind::Disc)
}

/// Sets the inner lists of a node of this kind, as many as it has.
fn set_lists_of<N: Nodes>(nodes: &mut N, n: u64, kind: Kind, lists: InnerLists)
    ensures sets { SetsListsOf (N.heap nodes.old) (N.heap nodes.new) n kind lists }
    ensures names { (N.heap nodes.new).next ≡ (N.heap nodes.old).next }
{
    if is_box(kind) {
        set_link(nodes, n, Field::List, lists.first);
    } else if is_disc(kind) {
        set_parts(nodes, n, lists);
    }
}

/// Sets the inner lists of a node, as many as it has.
fn set_lists<N: Nodes>(nodes: &mut N, n: u64, lists: InnerLists)
    ensures sets { SetsLists (N.heap nodes.old) (N.heap nodes.new) n lists }
    ensures names { (N.heap nodes.new).next ≡ (N.heap nodes.old).next }
{
    if let Ok((kind, _)) = nodes.kind_of(n) {
        set_lists_of(nodes, n, kind, lists);
    }
}

/// Sets the inner lists of a node, and what follows it.
fn set_links<N: Nodes>(nodes: &mut N, n: u64, lists: InnerLists, next: Option<u64>)
    ensures sets { SetsLinks (N.heap nodes.old) (N.heap nodes.new) n lists next }
    ensures names { (N.heap nodes.new).next ≡ (N.heap nodes.old).next }
{
    set_lists(nodes, n, lists);
    set_link(nodes, n, Field::Next, next);
}

/// The link to a copy, where there is something that was copied.
fn link_to(to: Option<u64>, copy: u64) -> Option<u64>
    ensures { result ≡ link_to to copy }
{
    match to {
        Some(_) => Some(copy),
        None => None,
    }
}

/// Links the copies of all that the list at a head reaches, whose names follow one another from `first` on, as the nodes
/// themselves are linked. Gives the name after the last.
fn link_list<N: Nodes>(nodes: &mut N, head: Option<u64>, depth: u64, first: u64) -> u64
    requires { depth ≤ max_depth + 1 }
    ensures links { Links (N.heap nodes.old) (N.heap nodes.new) head depth first result }
    ensures further { first ≤ result }
    ensures names { (N.heap nodes.new).next ≡ (N.heap nodes.old).next }
{
    let mut at = head;
    let mut copy = first;
    while let Some(n) = at {
        nodes.lawful();
        if depth > MAX_DEPTH || nodes.kind_of(copy).is_err() {
            return copy;
        }
        let lists = inner_lists(nodes, n);
        at = following(nodes, n);
        let second = link_list(nodes, lists.first, depth + 1, copy + 1);
        let third = link_list(nodes, lists.second, depth + 1, second);
        let after = link_list(nodes, lists.third, depth + 1, third);
        let copies = InnerLists {
            first: link_to(lists.first, copy + 1),
            second: link_to(lists.second, second),
            third: link_to(lists.third, third),
            kind: lists.kind,
        };
        set_links(nodes, copy, copies, link_to(at, after));
        copy = after;
    }
    copy
}

/// Copies what lies in a node and what follows it, with no links yet, after the node itself.
fn make_rest<N: Nodes>(
    nodes: &mut N,
    lists: InnerLists,
    next: Option<u64>,
) -> Result<(), Fail<Trouble>>
    ensures { MakesRest (N.heap nodes.old) (N.heap nodes.new) lists next result }
{
    make_list(nodes, lists.first, 1)?;
    make_list(nodes, lists.second, 1)?;
    make_list(nodes, lists.third, 1)?;
    make_list(nodes, next, 0)
}

/// Links the copies that `make_rest` made after `first`, and that one.
fn link_rest<N: Nodes>(nodes: &mut N, lists: InnerLists, next: Option<u64>, first: u64)
    requires { first < 2 ^ 48 }
    ensures links { LinksRest (N.heap nodes.old) (N.heap nodes.new) lists next first }
{
    let second = link_list(nodes, lists.first, 1, first + 1);
    let third = link_list(nodes, lists.second, 1, second);
    let after = link_list(nodes, lists.third, 1, third);
    let copies = InnerLists {
        first: link_to(lists.first, first + 1),
        second: link_to(lists.second, second),
        third: link_to(lists.third, third),
        kind: lists.kind,
    };
    set_links(nodes, first, copies, link_to(next, after));
    link_list(nodes, next, 0, after);
}

/// Copies a node with its inner lists and the list `next`, where a walk has come to its end before, and gives the name of
/// the node's copy. Where a copy cannot be made, those before it are freed again.
fn copy_node<N: Nodes>(nodes: &mut N, n: u64, next: Option<u64>) -> Result<u64, Fail<Trouble>>
    ensures { CopiesNode (N.heap nodes.old) (N.heap nodes.new) n next result }
{
    let lists = inner_lists(nodes, n);
    nodes.lawful();
    let first = nodes.copy_one(n)?;
    let made = make_rest(nodes, lists, next);
    nodes.lawful();
    match made {
        Ok(()) => {
            link_rest(nodes, lists, next, first);
            Ok(first)
        }
        Err(why) => {
            free_run(nodes, first);
            Err(why)
        }
    }
}

/// Copies all that the list at a head reaches, with the lists inside it, and gives the copy of the head, or nothing where
/// there is no head. The copies take one name after another, in the order of the walk. A link that the walk followed leads
/// from copy to copy, and a copy has no other link. The heap itself takes the memory for the copies, and the allocator is
/// not used.
///
/// The walk comes first. At each node it refuses with Stale where the node is dead, Loop where the walk reached it before,
/// and Nest at depth 101, in this order, and makes nothing then. Memory is taken for the copies alone, after the walk: what
/// the walk refuses it refuses with or without memory. After it, copying refuses with NodesFull where 2^18 nodes are live at
/// the making of a copy, else with NamesOut where the next name is 2^48 then. The copies made until then are freed again,
/// also where memory runs out, and their names are not given a second time.
pub fn copy_list<N: Nodes>(
    _alloc: Global,
    nodes: &mut N,
    head: Option<u64>,
) -> Result<Option<u64>, Fail<Trouble>>
    ensures copies { Copies result (N.heap nodes.old) (N.heap nodes.new) (plain_walk (N.heap nodes.old) head) (copy_list_step head (N.heap nodes.old)) }
{
    match visit_list(nodes, Way::Plain, head, ListKind::H) {
        Ok(()) => {}
        Err(why) => return Err(Fail::Is(why)),
    }
    match head {
        Some(n) => {
            let next = following(nodes, n);
            Ok(Some(copy_node(nodes, n, next)?))
        }
        None => Ok(None),
    }
}

/// Copies a node with its inner lists, without what follows it, and gives its copy, which nothing follows. Refuses as
/// `copy_list`; what follows the node itself is not looked at.
pub fn copy_tree<N: Nodes>(_alloc: Global, nodes: &mut N, n: u64) -> Result<u64, Fail<Trouble>>
    ensures copies { Copies result (N.heap nodes.old) (N.heap nodes.new) (tree_walk (N.heap nodes.old) n) (copy_tree_step n (N.heap nodes.old)) }
{
    match visit_tree(nodes, n) {
        Ok(()) => {}
        Err(why) => return Err(Fail::Is(why)),
    }
    copy_node(nodes, n, None)
}
