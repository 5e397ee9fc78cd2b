//! What glue comes to in output ("TeX: The Program", sections 625 and 634).

ghost use Rattle.std.specs.Prelude.{◌≡◌, ◌≤◌, ◌+◌, ◌+ℤ◌, ◌-ℤ◌, pos, unsigned_abs};
ghost use Rattle.ntx_item.specs.Items.{max_total};
ghost use Rattle.ntx_item.specs.declared.item.Item.TheVariants.{Glue};
ghost use Rattle.ntx_pack.specs.Output.{IsRatio, move, set_size, widened};

use crate::glue_set::GlueSet;
use ntx_item::GlueSpec;
use ntx_num::round_ratio;

/// Gives the sizes of the glue in a box, one after another in the order of the list.
#[derive(Debug, PartialEq, Eq, Drop)]
pub struct GlueSetter {
    /// How the glue of the box is set.
    pub glue: GlueSet,
    /// By how much the glue so far stretches, or minus what it shrinks, at a ratio of 1, in scaled points or units of its
    /// order. It is within 2^48 in absolute value.
    pub total: i64,
    pub ghost ratio: { IsRatio glue },
    pub ghost bounded: { unsigned_abs total ≤ max_total },
}

/// How far a glue moves the running total, where glue is set so.
fn move_of(glue: &GlueSet, spec: &GlueSpec) -> i64
    requires { unsigned_abs spec.now.shrink ≤ max_total }
    ensures { result ≡ move glue.now (Glue spec.now) }
{
    match glue.sign {
        1 if spec.stretch_order == glue.order => spec.stretch,
        2 if spec.shrink_order == glue.order => -spec.shrink,
        _ => 0,
    }
}

/// A width with the difference of two rounded multiples.
fn with_difference(width: i64, after: i64, before: i64) -> i64
    requires width { unsigned_abs width ≤ max_total }
    requires after { unsigned_abs after ≤ 1000000000 }
    requires before { unsigned_abs before ≤ 1000000000 }
    ensures value { result ≡ width +ℤ (after -ℤ before) }
    ensures bounded { unsigned_abs result ≤ unsigned_abs width + 2000000000 }
{
    width + (after - before)
}

impl GlueSetter {
    /// Before the first item of a box whose glue is set so. The numerator has to be within 2^32 in absolute value, and the
    /// denominator at least 1.
    pub fn new(glue: GlueSet) -> Self
        requires { IsRatio glue }
        ensures glue { result.glue ≡ glue }
        ensures total { result.total ≡ pos 0 }
    {
        GlueSetter { glue, total: 0 }
    }

    /// The running total times the ratio, rounded.
    fn widened(&self) -> i64
        ensures value { result ≡ widened self.now.glue self.now.total }
        ensures capped { unsigned_abs result ≤ 1000000000 }
    {
        round_ratio(self.glue.num, self.glue.den, self.total)
    }

    /// The width of the next glue in output, or its height in a vertical list, in scaled points: its natural width and the
    /// difference that it makes to the rounded multiple of the ratio. In absolute value it is at most 2000000000 more than
    /// the natural width.
    ///
    /// The natural width, the shrink and the total with this glue have to be within 2^48 in absolute value. They are where
    /// the items of the box are in range.
    pub fn next_size(&mut self, spec: &GlueSpec) -> i64
        requires width { unsigned_abs spec.now.width ≤ max_total }
        requires shrink { unsigned_abs spec.now.shrink ≤ max_total }
        requires total { unsigned_abs (self.old.total +ℤ move self.old.glue (Glue spec.now)) ≤ max_total }
        ensures size { result ≡ set_size self.old.glue self.old.total spec.now.width (Glue spec.now) }
        ensures total { self.new.total ≡ self.old.total +ℤ move self.old.glue (Glue spec.now) }
        ensures bounded { unsigned_abs result ≤ unsigned_abs spec.now.width + 2000000000 }
        ensures glue { self.new.glue ≡ self.old.glue }
    {
        let before = self.widened();
        self.total += move_of(&self.glue, spec);
        with_difference(spec.width, self.widened(), before)
    }
}
