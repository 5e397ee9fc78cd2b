//! The passes over a paragraph ("TeX: The Program", sections 863 and 864).

ghost use Rattle.std.specs.Prelude.{◌≡◌, pos};
ghost use Rattle.ntx_breaks.specs.Passes as passes;

use ntx_item::{Param, Params};

/// What is looked for in one pass.
#[derive(Clone, Copy, Debug, PartialEq, Eq)]
pub(crate) struct Pass {
    /// 1, 2 or 3.
    pub(crate) number: u8,
    /// Whether a line may end at a discretionary that comes from hyphenation.
    pub(crate) discs: bool,
    /// The greatest badness of a line that is wanted, at most 10000.
    pub(crate) threshold: i64,
    /// What each line can stretch beyond its glue, in scaled points.
    pub(crate) extra: i64,
    /// Whether no pass comes after it, so that it has to find breaks.
    pub(crate) is_final: bool,
}

/// The greatest threshold.
const GREATEST_THRESHOLD: i64 = 10_000;

/// The threshold of a tolerance.
fn threshold_of(tolerance: i64) -> i64
    ensures { result ≡ passes.threshold_of tolerance }
{
    if tolerance > GREATEST_THRESHOLD {
        GREATEST_THRESHOLD
    } else {
        tolerance
    }
}

impl Pass {
    /// The pass that tries no hyphenation.
    pub(crate) fn first(params: &Params) -> Pass
        ensures { result ≡ passes.first_pass params.now }
    {
        Pass {
            number: 1,
            discs: false,
            threshold: threshold_of(params.get(Param::Pretolerance)),
            extra: 0,
            is_final: false,
        }
    }

    /// The pass that tries hyphenation. It is final if there is no emergency stretch.
    pub(crate) fn second(params: &Params) -> Pass
        ensures { result ≡ passes.second_pass params.now }
    {
        Pass {
            number: 2,
            discs: true,
            threshold: threshold_of(params.get(Param::Tolerance)),
            extra: 0,
            is_final: params.get(Param::Emergencystretch) <= 0,
        }
    }

    /// The pass that stretches each line further.
    pub(crate) fn third(params: &Params) -> Pass
        ensures { result ≡ passes.third_pass params.now }
    {
        Pass {
            number: 3,
            discs: true,
            threshold: threshold_of(params.get(Param::Tolerance)),
            extra: params.get(Param::Emergencystretch),
            is_final: true,
        }
    }
}
