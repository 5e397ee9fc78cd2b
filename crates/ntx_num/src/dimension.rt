//! The bounds on the numbers of a list ("TeX: The Program", sections 150, 157 and 421).

ghost use Rattle.std.specs.Prelude.{◌≡◌, ◌↔◌, IsTrue};
ghost use Rattle.ntx_num.specs.Dimension.{IsDimension, is_dimension};

use crate::in_range;

/// TeX's largest dimension in scaled points, 2^30 - 1.
pub const MAX_DIMENSION: i64 = 1_073_741_823;

/// The largest absolute value of a penalty, 2^31 - 1.
pub const MAX_PENALTY: i64 = 2_147_483_647;

/// The greatest order of infinity: 0 is finite, 1 fil, 2 fill and 3 filll.
pub const MAX_ORDER: u8 = 3;

/// As many nodes may be live at once, 2^18.
pub const MAX_NODES: u64 = 262_144;

/// Whether `x` is a dimension: a length of at most 2^30 - 1 scaled points in absolute value.
pub fn is_dimension(x: i64) -> bool
    ensures value { result ≡ is_dimension x }
    ensures range { IsTrue result ↔ IsDimension x }
{
    in_range(x, -MAX_DIMENSION, MAX_DIMENSION)
}
