//! Discretionaries: what comes into them from the right, and their lists, each gone through by itself.

ghost use Rattle.std.specs.Prelude.{◌+◌, ◌<◌, ◌≤◌, ◌∷◌, [], Bool, if◌then◌else◌, length, reverse, IfOk, IfSome, OnOk};
ghost use Rattle.ntx_ligkern.specs.Ligaturing.{Chore, from_spot};
ghost use Rattle.ntx_ligkern.specs.inner.Cursors.{spot_from};
ghost use Rattle.ntx_ligkern.specs.inner.Chores.{Reaches, three_parts, after_absorbing};

use crate::cursor::{Cursor, nearest, take_next};
use crate::discs::{draw_after, last_of_part, names_of_part};
use crate::lig::lig_between;
use crate::ligaturing::part_turn;
use ntx_nodes::{Field, Nodes, Trouble};
use ntx_num::Fail;
use ntx_tfm::Font;
use std::alloc::Global;

/// Goes through a list of a discretionary.
fn ligature_part<N: Nodes>(
    alloc: Global,
    nodes: &mut N,
    fonts: &[Font],
    disc: u64,
    f: Field,
) -> Result<(), Fail<Trouble>>
    ensures done { Reaches fonts.now (Chore.OfDisc disc f ∷ []) (N.heap nodes.old) result (λ _. []) (N.heap nodes.new) }
    ensures later { OnOk result ((N.heap nodes.old).next ≤ (N.heap nodes.new).next) }
{
    let mut ahead = names_of_part(alloc, nodes, disc, f)?;
    let mut at = take_next(None, 0, &mut ahead);
    while let Some(cursor) = at {
        at = part_turn(nodes, fonts, cursor, &mut ahead)?;
        nodes.lawful();
    }
    Ok(())
}

/// Goes through the three lists of a discretionary, one after another.
fn ligature_parts<N: Nodes>(
    alloc: Global,
    nodes: &mut N,
    fonts: &[Font],
    disc: u64,
) -> Result<(), Fail<Trouble>>
    ensures done { Reaches fonts.now (three_parts disc) (N.heap nodes.old) result (λ _. []) (N.heap nodes.new) }
    ensures later { OnOk result ((N.heap nodes.old).next ≤ (N.heap nodes.new).next) }
{
    ligature_part(alloc, nodes, fonts, disc, Field::Pre)?;
    ligature_part(alloc, nodes, fonts, disc, Field::Post)?;
    ligature_part(alloc, nodes, fonts, disc, Field::Replace)
}

/// Takes the nearest of the nodes ahead into a discretionary, if the last of `replace` makes a ligature with it, and gives whether
/// it does.
fn absorb<N: Nodes>(
    alloc: Global,
    nodes: &mut N,
    fonts: &[Font],
    disc: u64,
    ahead: &mut Vec<u64>,
) -> Result<bool, Fail<Trouble>>
    ensures done { Reaches fonts.now (Chore.AtDisc disc (reverse ahead.old.items) ∷ []) (N.heap nodes.old) result (λ more. after_absorbing more disc (reverse ahead.new.items)) (N.heap nodes.new) }
    ensures later { OnOk result ((N.heap nodes.old).next ≤ (N.heap nodes.new).next) }
    ensures fewer { IfOk result (λ more. length ahead.new.items + (if more then 1 else 0) ≤ length ahead.old.items) }
{
    let Some(last) = last_of_part(alloc, nodes, disc, Field::Replace)? else {
        return Ok(false);
    };
    let Some(_lig) = lig_between(nodes, fonts, Some(last), nearest(ahead)) else {
        return Ok(false);
    };
    let Some(next) = ahead.pop() else {
        return Ok(false);
    };
    draw_after(alloc, nodes, disc, last, next, nearest(ahead))?;
    ligature_part(alloc, nodes, fonts, disc, Field::Replace)?;
    Ok(true)
}

/// Takes glyphs after a discretionary into it as long as they make ligatures, and goes through its lists. Gives a cursor at what
/// follows it then.
pub(crate) fn ligature_disc<N: Nodes>(
    alloc: Global,
    nodes: &mut N,
    fonts: &[Font],
    disc: u64,
    ahead: &mut Vec<u64>,
) -> Result<Option<Cursor>, Fail<Trouble>>
    ensures done { Reaches fonts.now (Chore.AtDisc disc (reverse ahead.old.items) ∷ []) (N.heap nodes.old) result (λ at. from_spot Chore.InList (spot_from ahead.new.items at)) (N.heap nodes.new) }
    ensures later { OnOk result ((N.heap nodes.old).next ≤ (N.heap nodes.new).next) }
    ensures fewer { IfOk result (λ at. IfSome at (λ cursor. length ahead.new.items < length ahead.old.items)) }
{
    let mut more = true;
    while more {
        more = absorb(alloc, nodes, fonts, disc, ahead)?;
    }
    ligature_parts(alloc, nodes, fonts, disc)?;
    Ok(take_next(Some(disc), 0, ahead))
}
