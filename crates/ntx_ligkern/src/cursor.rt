//! Cursors in lists, whose nodes ahead are kept with the nearest one last.

ghost use Rattle.std.specs.Prelude.{◌≡◌, ◌<◌, ◌^◌, ◌∷◌, reverse, slice_get};
ghost use Rattle.ntx_num.specs.Answer.{Gives, result_map};
ghost use Rattle.ntx_ligkern.specs.Ligatures.{spot_in, passed, spot_after};
ghost use Rattle.ntx_ligkern.specs.inner.Cursors.{spot_of, spot_from, pushed_if};

use crate::lig::Lig;
use ntx_num::NoMemory;

/// Where a pass is in a list.
#[derive(Clone, Copy, Debug, PartialEq, Eq)]
pub struct Cursor {
    /// The node before the cursor.
    pub before: Option<u64>,
    /// The node at the cursor.
    pub at: u64,
    /// How many steps there were since the cursor moved on.
    pub count: u64,
}

/// The nearest of the nodes ahead, if there is one.
pub(crate) fn nearest(ahead: &[u64]) -> Option<u64>
    ensures { result ≡ slice_get (reverse ahead.now) 0 }
{
    ahead.last().copied()
}

/// The node after the nearest one, if there is one.
pub(crate) fn second(ahead: &[u64]) -> Option<u64>
    ensures { result ≡ slice_get (reverse ahead.now) 1 }
{
    match ahead.len() {
        0 | 1 => None,
        len => ahead.get(len - 2).copied(),
    }
}

/// A cursor at the nearest of the nodes ahead, if there is one.
pub(crate) fn take_next(before: Option<u64>, count: u64, ahead: &mut Vec<u64>) -> Option<Cursor>
    ensures { spot_from ahead.new.items result ≡ spot_in before count (reverse ahead.old.items) }
{
    let at = ahead.pop()?;
    Some(Cursor { before, at, count })
}

/// The cursor after it passed over some nodes, unless there are too few of them.
fn pass_over(from: Cursor, ahead: &mut Vec<u64>, over: u8) -> Option<Cursor>
    ensures { spot_from ahead.new.items result ≡ passed over from.before from.count (from.at ∷ reverse ahead.old.items) }
{
    let mut cursor = from;
    let mut left = over;
    while left > 0 {
        cursor = take_next(Some(cursor.at), cursor.count, ahead)?;
        left -= 1;
    }
    Some(cursor)
}

/// Puts a node before the nodes ahead, if it is kept.
fn push_if(keeps: bool, n: u64, ahead: &mut Vec<u64>) -> Result<(), NoMemory>
    ensures { Gives (result_map (λ _. reverse ahead.new.items) result) (pushed_if keeps n (reverse ahead.old.items)) }
{
    if keeps {
        ahead.push(n)?;
    }
    Ok(())
}

/// The cursor after a step, which put these glyphs before the nodes ahead.
pub(crate) fn go_over(
    cursor: Cursor,
    ahead: &mut Vec<u64>,
    lig: Lig,
    holder: u64,
    right: u64,
) -> Result<Option<Cursor>, NoMemory>
    requires { cursor.count < 2 ^ 32 }
    ensures { Gives (result_map (λ next. spot_from ahead.new.items next) result) (spot_after (spot_of cursor ahead.old.items) lig holder right (reverse ahead.old.items)) }
{
    push_if(lig.keeps_right(), right, ahead)?;
    push_if(lig.keeps_left(), holder, ahead)?;
    let done = Cursor {
        count: cursor.count + 1,
        ..cursor
    };
    Ok(pass_over(done, ahead, lig.passes_over()))
}
