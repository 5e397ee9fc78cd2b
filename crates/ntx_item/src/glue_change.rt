//! The two ways in which glue makes up for a shortfall ("TeX: The Program", sections 658 and 672).

ghost use Rattle.std.specs.Prelude.{◌≡◌};
ghost use Rattle.ntx_item.specs.Sums.{change_for};

/// How glue changes its size.
#[derive(Clone, Copy, Debug, PartialEq, Eq)]
pub enum GlueChange {
    /// It gets larger.
    Stretch,
    /// It gets smaller.
    Shrink,
}

impl GlueChange {
    /// How glue makes up for a shortfall, the size that is wanted less the natural size: it shrinks where that is below 0,
    /// and otherwise it stretches.
    pub fn for_shortfall(shortfall: i64) -> GlueChange
        ensures { result ≡ change_for shortfall }
    {
        if shortfall < 0 {
            GlueChange::Shrink
        } else {
            GlueChange::Stretch
        }
    }
}
