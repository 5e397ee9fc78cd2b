//! Calls along one list.

ghost use Rattle.std.specs.Prelude.{◌≡◌, ℕ, List};
ghost use Rattle.ntx_num.specs.Answer.{StepsAtOnce};
ghost use Rattle.ntx_lists.specs.Lists.{tail_answer, length_answer, insert_before_step, insert_after_step, remove_step};
ghost use Rattle.ntx_nodes.specs.Walker.{Marks};
ghost use Rattle.ntx_lists.specs.Survey.{Finds, FindsIn, FindsRoom, Follows, FollowsAt};

use crate::links::following;
use crate::survey::go_along;
use ntx_nodes::{Field, FieldValue, Nodes, Trouble};

/// The last node of a list.
///
/// Along the list it refuses with Stale where a node is dead, and Loop where the list comes to it a second time.
pub fn tail<N: Nodes>(nodes: &mut N, head: u64) -> Result<u64, Trouble>
    ensures same { N.heap nodes.new ≡ N.heap nodes.old }
    ensures answer { result ≡ tail_answer head (N.heap nodes.old) }
{
    nodes.begin_walk();
    let seen = go_along(nodes, head, head)?;
    Ok(seen.last.unwrap_or(head))
}

/// The last node of a list: nodes here have no links back that would have to be set. Refuses as `tail`.
pub fn slide<N: Nodes>(nodes: &mut N, head: u64) -> Result<u64, Trouble>
    ensures same { N.heap nodes.new ≡ N.heap nodes.old }
    ensures answer { result ≡ tail_answer head (N.heap nodes.old) }
{
    tail(nodes, head)
}

/// How many nodes a list has, which may be none. Refuses as `tail`.
pub fn length<N: Nodes>(nodes: &mut N, head: Option<u64>) -> Result<u64, Trouble>
    ensures same { N.heap nodes.new ≡ N.heap nodes.old }
    ensures answer { result ≡ length_answer head (N.heap nodes.old) }
{
    nodes.begin_walk();
    match head {
        Some(head) => Ok(go_along(nodes, head, head)?.length),
        None => Ok(0),
    }
}

/// The node before `cur` in a list, from the nodes that are visited already. Refuses as `tail`, with Loop too where the
/// list comes to one of those, and else with NotInList where `cur` is not in the list.
fn find<N: Nodes>(nodes: &mut N, head: u64, cur: u64) -> Result<Option<u64>, Trouble>
    ensures same { N.heap nodes.new ≡ N.heap nodes.old }
    ensures finds { (others : List ℕ) → Marks (N.visited nodes.old) others → Finds (N.heap nodes.old) head cur others result }
{
    let seen = go_along(nodes, head, cur)?;
    nodes.lawful();
    if !seen.found {
        return Err(Trouble::NotInList(cur));
    }
    Ok(seen.before)
}

/// Makes the tests of a removal, and gives the node before `cur`.
fn find_in<N: Nodes>(nodes: &mut N, head: u64, cur: u64) -> Result<Option<u64>, Trouble>
    ensures same { N.heap nodes.new ≡ N.heap nodes.old }
    ensures finds { FindsIn (N.heap nodes.old) head cur result }
{
    nodes.kind_of(head)?;
    nodes.kind_of(cur)?;
    nodes.begin_walk();
    find(nodes, head, cur)
}

/// Makes the tests of an insertion, and gives the node before `cur`.
fn find_room<N: Nodes>(nodes: &mut N, head: u64, cur: u64, new: u64) -> Result<Option<u64>, Trouble>
    ensures same { N.heap nodes.new ≡ N.heap nodes.old }
    ensures finds { FindsRoom (N.heap nodes.old) head cur new result }
{
    nodes.kind_of(head)?;
    nodes.kind_of(cur)?;
    nodes.kind_of(new)?;
    nodes.begin_walk();
    nodes.visit(new)?;
    find(nodes, head, cur)
}

/// Lets a node be followed by another, or by nothing.
fn set_next<N: Nodes>(nodes: &mut N, n: u64, to: Option<u64>) -> Result<(), Trouble>
    ensures { Follows (N.heap nodes.old) (N.heap nodes.new) n to result }
{
    nodes.set(n, Field::Next, FieldValue::Link(to))
}

/// The same of a node that may be none, where nothing is done.
fn set_next_at<N: Nodes>(nodes: &mut N, at: Option<u64>, to: Option<u64>) -> Result<(), Trouble>
    ensures { FollowsAt (N.heap nodes.old) (N.heap nodes.new) at to result }
{
    match at {
        Some(n) => set_next(nodes, n, to),
        None => Ok(()),
    }
}

/// Puts `new` into a list before `cur`, and gives the head that the list has then.
///
/// Refuses in this order with Stale of `head`, of `cur` and of `new`; along the list with Stale where a node is dead, and
/// Loop where the list comes to it a second time or it is `new`; and NotInList where `cur` is not in the list.
pub fn insert_before<N: Nodes>(nodes: &mut N, head: u64, cur: u64, new: u64) -> Result<u64, Trouble>
    ensures step { StepsAtOnce result (N.heap nodes.old) (N.heap nodes.new) (insert_before_step head cur new (N.heap nodes.old)) }
{
    let before = find_room(nodes, head, cur, new)?;
    set_next(nodes, new, Some(cur))?;
    set_next_at(nodes, before, Some(new))?;
    Ok(if head == cur { new } else { head })
}

/// Puts `new` into a list after `cur`, and gives the head, which stays. Refuses as `insert_before`.
pub fn insert_after<N: Nodes>(nodes: &mut N, head: u64, cur: u64, new: u64) -> Result<u64, Trouble>
    ensures step { StepsAtOnce result (N.heap nodes.old) (N.heap nodes.new) (insert_after_step head cur new (N.heap nodes.old)) }
{
    find_room(nodes, head, cur, new)?;
    let after = following(nodes, cur);
    set_next(nodes, new, after)?;
    set_next(nodes, cur, Some(new))?;
    Ok(head)
}

/// Takes `cur` out of a list, so that nothing follows it, and gives the head that the list has then, and the node that
/// followed `cur`. The node `cur` stays live.
///
/// Refuses in this order with Stale of `head` and of `cur`; along the list with Stale where a node is dead, and Loop where
/// the list comes to it a second time; and NotInList where `cur` is not in the list.
pub fn remove<N: Nodes>(
    nodes: &mut N,
    head: u64,
    cur: u64,
) -> Result<(Option<u64>, Option<u64>), Trouble>
    ensures step { StepsAtOnce result (N.heap nodes.old) (N.heap nodes.new) (remove_step head cur (N.heap nodes.old)) }
{
    let before = find_in(nodes, head, cur)?;
    let after = following(nodes, cur);
    set_next_at(nodes, before, after)?;
    set_next(nodes, cur, None)?;
    Ok((if head == cur { after } else { Some(head) }, after))
}
