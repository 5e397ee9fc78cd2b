//! Walks through the lists of a heap.

ghost use Rattle.std.specs.Prelude.{◌≡◌, ◌≢◌, ◌+◌, ◌≤◌, ◌<◌, None, OnOk, IfOk, Ok, Err, false};
ghost use Rattle.ntx_num.specs.Answer.{result_map, Answers};
ghost use Rattle.ntx_nodes.specs.Walk.{max_depth, is_too_deep, walk_from, checked_walk};
ghost use Rattle.ntx_nodes.specs.declared.kind.Way.TheVariants.{Flat};
ghost use Rattle.ntx_nodes.specs.Walker.{Reaches, Walks, unvisited, Keeps, WalksOn, NamesOn, Marks};

use crate::reached::Reached;
use crate::{InnerLists, ListKind, Nodes, Trouble, Way};
use ntx_num::Fail;
use std::alloc::Global;

/// Where a walk goes on at a node: the lists that it enters, and what follows the node in its own list.
#[derive(Clone, Copy, Debug, PartialEq, Eq)]
struct Onward {
    lists: InnerLists,
    next: Option<u64>,
}

/// Comes to a node in a list of a kind at a depth: tests it, marks it as visited and adds its name to those reached.
fn reach<N: Nodes>(
    nodes: &mut N,
    way: Way,
    n: u64,
    depth: u64,
    k: ListKind,
    names: &mut Reached,
) -> Result<Onward, Fail<Trouble>>
    ensures same { N.heap nodes.new ≡ N.heap nodes.old }
    ensures reaches { Reaches (N.heap nodes.old) way n depth k (N.visited nodes.old) names.old (N.visited nodes.new) names.new result }
    ensures shallow { OnOk result (is_too_deep way depth ≡ false) }
    ensures fewer { OnOk result (unvisited (N.heap nodes.old) (N.visited nodes.new) < unvisited (N.heap nodes.old) (N.visited nodes.old)) }
    ensures keeps { OnOk result (Keeps (N.visited nodes.old) (N.visited nodes.new)) }
    ensures uncollected { names.old ≡ None → names.new ≡ None }
    ensures memory { names.old ≡ None → result ≢ Err Fail.NoMemory }
{
    let fields = match nodes.fields(n) {
        Ok(fields) => fields,
        Err(why) => return Err(Fail::Is(why)),
    };
    match nodes.visit(n) {
        Ok(true) => {}
        Ok(false) => return Err(Fail::Is(Trouble::Loop(n))),
        Err(why) => return Err(Fail::Is(why)),
    }
    if way.is_too_deep(depth) {
        return Err(Fail::Is(Trouble::Nest));
    }
    if !way.admits(k, fields.contents.kind()) {
        return Err(Fail::Is(Trouble::WrongKind(n)));
    }
    names.take(n)?;
    Ok(Onward {
        lists: way.entered(&fields.contents),
        next: fields.next,
    })
}

/// Walks along a list of a kind at a depth, which it does not look at, from the nodes that are visited already.
fn walk_along<N: Nodes>(
    nodes: &mut N,
    head: Option<u64>,
    depth: u64,
    k: ListKind,
    names: &mut Reached,
) -> Result<(), Fail<Trouble>>
    ensures same { N.heap nodes.new ≡ N.heap nodes.old }
    ensures walks { Walks (N.heap nodes.old) Flat head depth k (N.visited nodes.old) names.old (N.visited nodes.new) names.new result }
    ensures uncollected { names.old ≡ None → names.new ≡ None }
    ensures memory { names.old ≡ None → result ≢ Err Fail.NoMemory }
{
    let mut at = head;
    while let Some(n) = at {
        at = reach(nodes, Way::Flat, n, depth, k, names)?.next;
    }
    Ok(())
}

/// Walks a list of a kind at a depth with the lists inside it, from the nodes that are visited already.
fn walk_inside<N: Nodes>(
    nodes: &mut N,
    way: Way,
    head: Option<u64>,
    depth: u64,
    k: ListKind,
    names: &mut Reached,
) -> Result<(), Fail<Trouble>>
    requires depth { depth ≤ max_depth + 1 }
    requires way { way ≢ Flat }
    ensures same { N.heap nodes.new ≡ N.heap nodes.old }
    ensures walks { Walks (N.heap nodes.old) way head depth k (N.visited nodes.old) names.old (N.visited nodes.new) names.new result }
    ensures keeps { OnOk result (Keeps (N.visited nodes.old) (N.visited nodes.new)) }
    ensures uncollected { names.old ≡ None → names.new ≡ None }
    ensures memory { names.old ≡ None → result ≢ Err Fail.NoMemory }
{
    let mut at = head;
    while let Some(n) = at {
        let onward = reach(nodes, way, n, depth, k, names)?;
        let lists = onward.lists;
        walk_inside(nodes, way, lists.first, depth + 1, lists.kind, names)?;
        walk_inside(nodes, way, lists.second, depth + 1, lists.kind, names)?;
        walk_inside(nodes, way, lists.third, depth + 1, lists.kind, names)?;
        at = onward.next;
    }
    Ok(())
}

/// Walks a list of a kind at a depth, from the nodes that are visited already.
fn walk_list<N: Nodes>(
    nodes: &mut N,
    way: Way,
    head: Option<u64>,
    depth: u64,
    k: ListKind,
    names: &mut Reached,
) -> Result<(), Fail<Trouble>>
    requires { depth ≤ max_depth + 1 }
    ensures same { N.heap nodes.new ≡ N.heap nodes.old }
    ensures walks { Walks (N.heap nodes.old) way head depth k (N.visited nodes.old) names.old (N.visited nodes.new) names.new result }
    ensures uncollected { names.old ≡ None → names.new ≡ None }
    ensures memory { names.old ≡ None → result ≢ Err Fail.NoMemory }
{
    match way {
        Way::Flat => walk_along(nodes, head, depth, k, names),
        _ => walk_inside(nodes, way, head, depth, k, names),
    }
}

/// Walks a list at a depth of at most 101 from the nodes that are visited already, which count as reached. Takes no memory.
///
/// Refuses as `visit_list`, with Loop too where it reaches one of them. A flat walk is never refused with Nest.
pub fn visit_on<N: Nodes>(
    nodes: &mut N,
    way: Way,
    head: Option<u64>,
    depth: u64,
    k: ListKind,
) -> Result<(), Trouble>
    requires { depth ≤ max_depth + 1 }
    ensures same { N.heap nodes.new ≡ N.heap nodes.old }
    ensures walks { WalksOn (N.heap nodes.old) way head depth k (N.visited nodes.old) (N.visited nodes.new) result }
{
    let mut names = Reached::uncollected();
    match walk_list(nodes, way, head, depth, k, &mut names) {
        Ok(()) => Ok(()),
        Err(Fail::Is(why)) => Err(why),
        Err(Fail::NoMemory) => unreachable!(),
    }
}

/// Walks as `visit_on`, at a depth of at most 101, and puts the names that it reaches at the end of others. Refuses as
/// `visit_on`.
pub fn names_on<N: Nodes>(
    alloc: Global,
    nodes: &mut N,
    way: Way,
    head: Option<u64>,
    depth: u64,
    k: ListKind,
    old_names: Vec<u64>,
) -> Result<Vec<u64>, Fail<Trouble>>
    requires { depth ≤ max_depth + 1 }
    ensures same { N.heap nodes.new ≡ N.heap nodes.old }
    ensures names { NamesOn (N.heap nodes.old) way head depth k (N.visited nodes.old) old_names.items (N.visited nodes.new) (result_map (λ names. names.items) result) }
{
    let mut names = Reached::after(old_names);
    walk_list(nodes, way, head, depth, k, &mut names)?;
    Ok(names.into_names(alloc))
}

/// Walks the list at a head, without memory, and leaves the nodes that it reaches as those visited.
///
/// At each node it refuses with Stale where it is dead, Loop where the walk reached it before, Nest at depth 101 unless
/// it is flat, and on a checked way WrongKind where the list may not hold its kind, in this order.
pub fn visit_list<N: Nodes>(
    nodes: &mut N,
    way: Way,
    head: Option<u64>,
    k: ListKind,
) -> Result<(), Trouble>
    ensures same { N.heap nodes.new ≡ N.heap nodes.old }
    ensures answer { result ≡ result_map (λ _. tt) (walk_from (N.heap nodes.old) way head k) }
    ensures marks { IfOk (walk_from (N.heap nodes.old) way head k) (λ names. Marks (N.visited nodes.new) names) }
{
    nodes.begin_walk();
    visit_on(nodes, way, head, 0, k)
}

/// The names that a walk of the list at a head reaches, in its order. Refuses as `visit_list`.
pub fn names_reached<N: Nodes>(
    alloc: Global,
    nodes: &mut N,
    way: Way,
    head: Option<u64>,
    k: ListKind,
) -> Result<Vec<u64>, Fail<Trouble>>
    ensures same { N.heap nodes.new ≡ N.heap nodes.old }
    ensures answer { Answers (result_map (λ names. names.items) result) (walk_from (N.heap nodes.old) way head k) }
{
    nodes.begin_walk();
    names_on(alloc, nodes, way, head, 0, k, Vec::new(alloc))
}

/// The names that the list at a head reaches, in the order of the walk, where each list holds only what it may.
///
/// At each node it refuses with Stale where it is dead, Loop where the walk reached it before, Nest at depth 101, and
/// WrongKind where the list may not hold its kind, in this order.
pub fn check<N: Nodes>(
    alloc: Global,
    nodes: &mut N,
    head: Option<u64>,
    k: ListKind,
) -> Result<Vec<u64>, Fail<Trouble>>
    ensures same { N.heap nodes.new ≡ N.heap nodes.old }
    ensures answer { Answers (result_map (λ names. names.items) result) (checked_walk (N.heap nodes.old) head k) }
{
    names_reached(alloc, nodes, Way::Checked, head, k)
}
