//! The pass that puts ligatures into a list.

ghost use Rattle.std.specs.Prelude.{◌≡◌, ℕ, ◌<◌, ◌∷◌, [], reverse, slice_get, Some, None, IfOk};
ghost use Rattle.ntx_num.specs.Answer.{Traces, result_map};
ghost use Rattle.ntx_num.specs.Trace.{states};
ghost use Rattle.ntx_ligkern.specs.Ligatures.{moved_on, lig_between};
ghost use Rattle.ntx_ligkern.specs.Ligaturing.{Chore, disc_at, head_after, from_spot, first_chores, ligatured, finished};
ghost use Rattle.ntx_ligkern.specs.inner.Cursors.{spot_of, spot_from};
ghost use Rattle.ntx_ligkern.specs.inner.Chores.{Runs, ReachesFrom, left_from};

use crate::cursor::{Cursor, nearest, second, take_next};
use crate::discs::{disc_at, draw_before, reversed_along};
use crate::lig::lig_between;
use crate::ligaturing::step;
use crate::parts::ligature_disc;
use ntx_nodes::{ListKind, Nodes, Trouble, Way, visit_list};
use ntx_num::Fail;
use ntx_tfm::Font;
use std::alloc::Global;

/// How far a pass has come.
#[derive(Clone, Copy, Debug, PartialEq, Eq)]
pub struct Progress {
    /// The head of the list.
    pub head: u64,
    /// Where the pass goes on, unless it is over.
    pub at: Option<Cursor>,
}

/// The head of a list after a node took the place of the first after `before`.
fn head_after(head: u64, before: Option<u64>, n: u64) -> u64
    ensures { result ≡ head_after head before n }
{
    match before {
        Some(_) => head,
        None => n,
    }
}

/// The cursor moves on, and the head stays.
fn move_on(head: u64, cursor: Cursor, ahead: &mut Vec<u64>) -> Progress
    ensures at { spot_from ahead.new.items result.at ≡ moved_on (spot_of cursor ahead.old.items) }
    ensures head { result.head ≡ head }
{
    Progress {
        head,
        at: take_next(Some(cursor.at), 0, ahead),
    }
}

/// One turn at a node that is no discretionary and makes no ligature with the next one: the glyph goes into a discretionary,
/// whose lists are then gone through, or the cursor moves on.
fn before_disc<N: Nodes>(
    alloc: Global,
    nodes: &mut N,
    fonts: &[Font],
    head: u64,
    cursor: Cursor,
    ahead: &mut Vec<u64>,
) -> Result<Progress, Fail<Trouble>>
    requires disc { disc_at (N.heap nodes.old) cursor.at ≡ None }
    requires lig { lig_between fonts.now (N.heap nodes.old) (Some cursor.at) (slice_get (reverse ahead.old.items) 0) ≡ None }
    ensures done { ReachesFrom fonts.now head (Chore.InList (spot_of cursor ahead.old.items) ∷ []) (N.heap nodes.old) result (λ p. p.head) (λ p. from_spot Chore.InList (spot_from ahead.new.items p.at)) (N.heap nodes.new) }
    ensures fewer { IfOk result (λ p. left_from (N.heap nodes.new) (spot_from ahead.new.items p.at) < left_from (N.heap nodes.old) (Some (spot_of cursor ahead.old.items))) }
{
    let Some(disc) = nearest(ahead) else {
        return Ok(move_on(head, cursor, ahead));
    };
    let Some(d) = disc_at(nodes, disc) else {
        return Ok(move_on(head, cursor, ahead));
    };
    let Some(_lig) = lig_between(nodes, fonts, Some(cursor.at), d.replace.or(second(ahead))) else {
        return Ok(move_on(head, cursor, ahead));
    };
    draw_before(nodes, cursor.before, cursor.at, disc, d)?;
    let _disc = take_next(None, 0, ahead);
    let at = ligature_disc(alloc, nodes, fonts, disc, ahead)?;
    Ok(Progress {
        head: head_after(head, cursor.before, disc),
        at,
    })
}

/// One turn at a node that is no discretionary: a ligature step, or as above.
fn glyph_turn<N: Nodes>(
    alloc: Global,
    nodes: &mut N,
    fonts: &[Font],
    head: u64,
    cursor: Cursor,
    ahead: &mut Vec<u64>,
) -> Result<Progress, Fail<Trouble>>
    requires { disc_at (N.heap nodes.old) cursor.at ≡ None }
    ensures done { ReachesFrom fonts.now head (Chore.InList (spot_of cursor ahead.old.items) ∷ []) (N.heap nodes.old) result (λ p. p.head) (λ p. from_spot Chore.InList (spot_from ahead.new.items p.at)) (N.heap nodes.new) }
    ensures fewer { IfOk result (λ p. left_from (N.heap nodes.new) (spot_from ahead.new.items p.at) < left_from (N.heap nodes.old) (Some (spot_of cursor ahead.old.items))) }
{
    let Some(lig) = lig_between(nodes, fonts, Some(cursor.at), nearest(ahead)) else {
        return before_disc(alloc, nodes, fonts, head, cursor, ahead);
    };
    let Some(right) = ahead.pop() else {
        return Ok(Progress { head, at: None });
    };
    let at = step(nodes, cursor, lig, right, ahead)?;
    nodes.lawful();
    Ok(Progress { head, at })
}

/// One turn at a node, with the lists of a discretionary gone through.
fn list_turn<N: Nodes>(
    alloc: Global,
    nodes: &mut N,
    fonts: &[Font],
    head: u64,
    cursor: Cursor,
    ahead: &mut Vec<u64>,
) -> Result<Progress, Fail<Trouble>>
    ensures done { ReachesFrom fonts.now head (Chore.InList (spot_of cursor ahead.old.items) ∷ []) (N.heap nodes.old) result (λ p. p.head) (λ p. from_spot Chore.InList (spot_from ahead.new.items p.at)) (N.heap nodes.new) }
    ensures fewer { IfOk result (λ p. left_from (N.heap nodes.new) (spot_from ahead.new.items p.at) < left_from (N.heap nodes.old) (Some (spot_of cursor ahead.old.items))) }
{
    let Some(_disc) = disc_at(nodes, cursor.at) else {
        return glyph_turn(alloc, nodes, fonts, head, cursor, ahead);
    };
    let at = ligature_disc(alloc, nodes, fonts, cursor.at, ahead)?;
    Ok(Progress { head, at })
}

/// Goes through a list that was checked, and gives its new head.
fn ligature_list<N: Nodes>(
    alloc: Global,
    nodes: &mut N,
    fonts: &[Font],
    head: u64,
) -> Result<u64, Fail<Trouble>>
    ensures { Runs fonts.now head (first_chores head (N.heap nodes.old)) (N.heap nodes.old) result (N.heap nodes.new) }
{
    let mut ahead = reversed_along(alloc, nodes, Some(head))?;
    let mut head = head;
    let mut at = take_next(None, 0, &mut ahead);
    while let Some(cursor) = at {
        let done = list_turn(alloc, nodes, fonts, head, cursor, &mut ahead)?;
        head = done.head;
        at = done.at;
    }
    Ok(head)
}

/// Puts ligatures into the list at a head, and gives the new head. A cursor goes from the head to the right. The number of a
/// font is its place in `fonts`, counted from 0; a font that is not there has no ligatures.
///
/// - If the cursor is at a glyph, and the next node is a glyph of the same font with which it makes a ligature, this is one
///   step. The ligature's operation is 4a + 2b + q. If b is 0, the glyph at the cursor becomes the ligature, with subtype 2.
///   If b is 1, the ligature is a new glyph of subtype 2 after it, with its font and attributes. If q is 0, the next glyph is
///   freed. The cursor passes over a glyphs of the result.
/// - If the cursor is at a glyph, the next node is a discretionary, and the glyph makes a ligature with the first node of
///   `replace` (with the node after the discretionary, if `replace` is empty), then a copy of the glyph comes to the front of
///   `pre`, the glyph itself moves to the front of `replace`, and the cursor goes to the discretionary.
/// - If the cursor is at a discretionary: while the last node of `replace` makes a ligature with the node after the
///   discretionary, a copy of that node comes to the end of `post`, the node itself moves to the end of `replace`, and
///   `replace` is gone through by itself. Then `pre`, `post` and `replace` are, and the cursor moves on.
/// - Otherwise the cursor moves on.
///
/// # Refusals
///
/// - Those of `check`: at each node of the walk through the list and all lists in it `Stale` if it is dead, `Loop` if the
///   walk reached it before, `Nest` at depth 101, and `WrongKind` if its list may not hold its kind, in this order.
/// - `LigLoop` at the 256th step in one list since the cursor moved on in it.
/// - `NodesFull` if 2^18 nodes are live where a glyph is to be made, else `NamesOut` if the next name is 2^48.
///
/// After a refusal, and after running out of memory, what was done before stands in the list.
pub fn ligature<N: Nodes>(
    alloc: Global,
    nodes: &mut N,
    fonts: &[Font],
    head: u64,
) -> Result<u64, Fail<Trouble>>
    ensures traced { (turns : ℕ) × (let pass = ligatured turns fonts.now head (N.heap nodes.old) in Traces (result_map finished result) (N.heap nodes.new) (states pass) pass.ending) }
{
    match visit_list(nodes, Way::Checked, Some(head), ListKind::H) {
        Ok(()) => {}
        Err(why) => return Err(Fail::Is(why)),
    }
    ligature_list(alloc, nodes, fonts, head)
}
