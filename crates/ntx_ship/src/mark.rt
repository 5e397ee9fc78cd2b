//! Marks on a page.

ghost use Rattle.std.specs.Prelude.{◌≡◌, ◌≤◌, ◌≤ℤ◌, ◌^◌, ◌∷◌, [], true, pos, unsigned_abs};
ghost use Rattle.ntx_num.specs.Answer.{result_map};
ghost use Rattle.ntx_num.specs.Dimension.{IsDimension};
ghost use Rattle.ntx_ship.specs.Placed.{may_stand, glyph_mark, rule_mark};
ghost use Rattle.ntx_ship.specs.inner.Reach.{IsPlaced};

use crate::piece::{GlyphMark, Piece, RuleMark};
use crate::place::{Place, narrowed, sum};
use ntx_nodes::{GlyphFields, Trouble};
use ntx_num::is_dimension;

/// Whether a mark of this width may stand here.
#[tactic(auto, unfolding(crate::specs::Placed::may_stand))]
fn may_stand(here: Place, width: i64) -> bool
    requires place { IsPlaced (2 ^ 61) here }
    requires width { unsigned_abs width ≤ 2 ^ 61 }
    ensures value { result ≡ may_stand here width }
    ensures h { result ≡ true → IsDimension here.h }
    ensures v { result ≡ true → IsDimension here.v }
{
    if !is_dimension(here.h) {
        return false;
    }
    if !is_dimension(here.v) {
        return false;
    }
    is_dimension(sum(here.h, width))
}

/// A character whose reference point is here.
///
/// # Refusals
///
/// `Dimension` if its place, or the end of its width, is no dimension.
#[tactic(auto, using(crate::proofs::Marks::glyph_refused))]
pub fn glyph_mark(here: Place, g: GlyphFields, width: i64) -> Result<Piece, Trouble>
    requires place { IsPlaced (2 ^ 61) here }
    requires width { IsDimension width }
    ensures { result_map (λ piece. piece ∷ []) result ≡ glyph_mark here g width }
{
    if !may_stand(here, width) {
        return Err(Trouble::Dimension);
    }
    Ok(Piece::Glyph(GlyphMark {
        h: narrowed(here.h),
        v: narrowed(here.v),
        font: g.font,
        code: g.char,
        width: narrowed(width),
    }))
}

/// A rule of this height and width, which are above 0, whose left lower corner is here.
///
/// # Refusals
///
/// `Dimension` if its place, or the end of its width, is no dimension.
#[tactic(auto, using(crate::proofs::Marks::rule_refused, crate::proofs::Marks::is_above))]
pub fn rule_mark(here: Place, height: i64, width: i64) -> Result<Piece, Trouble>
    requires place { IsPlaced (2 ^ 61) here }
    requires height_above { pos 1 ≤ℤ height }
    requires height { height ≤ℤ pos 2147483646 }
    requires width_above { pos 1 ≤ℤ width }
    requires width { IsDimension width }
    ensures { result_map (λ piece. piece ∷ []) result ≡ rule_mark here height width }
{
    if !may_stand(here, width) {
        return Err(Trouble::Dimension);
    }
    Ok(Piece::Rule(RuleMark {
        h: narrowed(here.h),
        v: narrowed(here.v),
        height: narrowed(height),
        width: narrowed(width),
    }))
}
