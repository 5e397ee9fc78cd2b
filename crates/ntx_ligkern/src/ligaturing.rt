//! Ligatures, step by step.

ghost use Rattle.std.specs.Prelude.{reverse};
ghost use Rattle.ntx_num.specs.Answer.{result_map};
ghost use Rattle.ntx_num.specs.Trace.{EndsAs};
ghost use Rattle.ntx_ligkern.specs.Ligatures.{turned, replaced, placed, inserted, put_lig, freed, let_go, joined, ligated};
ghost use Rattle.ntx_ligkern.specs.Ligaturing.{part_turn};
ghost use Rattle.ntx_ligkern.specs.inner.Cursors.{spot_of, spot_from};

use crate::cursor::{Cursor, go_over, nearest, take_next};
use crate::lig::{Lig, lig_between};
use crate::linking::{copy, free, link, put_in, set_number};
use ntx_nodes::{Field, Nodes, Trouble};
use ntx_num::Fail;
use ntx_tfm::Font;

/// The subtype of a ligature.
const LIGATURE: u8 = 2;

/// As many steps may follow one another before the cursor moves on.
const MOST_STEPS: u64 = 255;

/// A glyph becomes the ligature.
fn turn_into<N: Nodes>(nodes: &mut N, n: u64, code: u8) -> Result<(), Fail<Trouble>>
    ensures { EndsAs result (N.heap nodes.new) (turned n code (N.heap nodes.old)) }
{
    set_number(nodes, n, Field::Char, code)?;
    set_number(nodes, n, Field::Subtype, LIGATURE)
}

/// The left glyph becomes the ligature.
fn replace_left<N: Nodes>(nodes: &mut N, left: u64, code: u8) -> Result<u64, Fail<Trouble>>
    ensures { EndsAs result (N.heap nodes.new) (replaced left code (N.heap nodes.old)) }
{
    turn_into(nodes, left, code)?;
    Ok(left)
}

/// A copy of the left glyph becomes the ligature, and comes between the two.
fn place_copy<N: Nodes>(
    nodes: &mut N,
    new: u64,
    left: u64,
    code: u8,
    right: u64,
) -> Result<u64, Fail<Trouble>>
    ensures { EndsAs result (N.heap nodes.new) (placed new left code right (N.heap nodes.old)) }
{
    turn_into(nodes, new, code)?;
    put_in(nodes, new, left, Field::Next, Some(right))?;
    Ok(new)
}

/// Makes the ligature as a new glyph between two.
fn insert_lig<N: Nodes>(
    nodes: &mut N,
    left: u64,
    code: u8,
    right: u64,
) -> Result<u64, Fail<Trouble>>
    ensures { EndsAs result (N.heap nodes.new) (inserted left code right (N.heap nodes.old)) }
{
    let new = copy(nodes, left)?;
    place_copy(nodes, new, left, code, right)
}

/// Makes the ligature, and gives the node that holds it: the left glyph, or a new one.
fn put_lig<N: Nodes>(nodes: &mut N, left: u64, lig: Lig, right: u64) -> Result<u64, Fail<Trouble>>
    ensures { EndsAs result (N.heap nodes.new) (put_lig left lig right (N.heap nodes.old)) }
{
    if lig.keeps_left() {
        insert_lig(nodes, left, lig.code, right)
    } else {
        replace_left(nodes, left, lig.code)
    }
}

/// Takes the right glyph out of the list, after the node that holds the ligature, and frees it.
fn free_right<N: Nodes>(
    nodes: &mut N,
    holder: u64,
    right: u64,
    after: Option<u64>,
) -> Result<(), Fail<Trouble>>
    ensures { EndsAs result (N.heap nodes.new) (freed holder right after (N.heap nodes.old)) }
{
    link(nodes, holder, Field::Next, after)?;
    free(nodes, right)
}

/// The same, unless the right glyph stays.
fn let_go<N: Nodes>(
    nodes: &mut N,
    lig: Lig,
    holder: u64,
    right: u64,
    after: Option<u64>,
) -> Result<(), Fail<Trouble>>
    ensures { EndsAs result (N.heap nodes.new) (let_go lig holder right after (N.heap nodes.old)) }
{
    if lig.keeps_right() {
        Ok(())
    } else {
        free_right(nodes, holder, right, after)
    }
}

/// Makes the ligature of two glyphs, and gives the node that holds it.
fn join<N: Nodes>(
    nodes: &mut N,
    left: u64,
    lig: Lig,
    right: u64,
    after: Option<u64>,
) -> Result<u64, Fail<Trouble>>
    ensures { EndsAs result (N.heap nodes.new) (joined left lig right after (N.heap nodes.old)) }
{
    let holder = put_lig(nodes, left, lig, right)?;
    let_go(nodes, lig, holder, right, after)?;
    Ok(holder)
}

/// One ligature step at a cursor, with the next node and the nodes ahead of that. Refuses with LigLoop after 255 steps, and as
/// the making of a node.
pub(crate) fn step<N: Nodes>(
    nodes: &mut N,
    cursor: Cursor,
    lig: Lig,
    right: u64,
    ahead: &mut Vec<u64>,
) -> Result<Option<Cursor>, Fail<Trouble>>
    ensures { EndsAs (result_map (spot_from ahead.new.items) result) (N.heap nodes.new) (ligated (spot_of cursor ahead.old.items) lig right (reverse ahead.old.items) (N.heap nodes.old)) }
{
    if cursor.count >= MOST_STEPS {
        return Err(Fail::Is(Trouble::LigLoop));
    }
    let holder = join(nodes, cursor.at, lig, right, nearest(ahead))?;
    Ok(go_over(cursor, ahead, lig, holder, right)?)
}

/// One turn in a list without discretionaries: a step, if there is a ligature; or else the cursor moves on.
pub(crate) fn part_turn<N: Nodes>(
    nodes: &mut N,
    fonts: &[Font],
    cursor: Cursor,
    ahead: &mut Vec<u64>,
) -> Result<Option<Cursor>, Fail<Trouble>>
    ensures { EndsAs (result_map (spot_from ahead.new.items) result) (N.heap nodes.new) (part_turn fonts.now (spot_of cursor ahead.old.items) (N.heap nodes.old)) }
{
    let Some(lig) = lig_between(nodes, fonts, Some(cursor.at), nearest(ahead)) else {
        return Ok(take_next(Some(cursor.at), 0, ahead));
    };
    let Some(right) = ahead.pop() else {
        return Ok(None);
    };
    step(nodes, cursor, lig, right, ahead)
}
