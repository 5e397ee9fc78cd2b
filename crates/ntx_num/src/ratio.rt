//! Rounded multiples of the ratio at which glue is set ("TeX: The Program", sections 625 and 634).

ghost use Rattle.std.specs.Prelude.{◌≡◌, ◌<◌, ◌≤◌, ◌^◌, ◌*◌, ◌+◌, ◌<ℤ◌, ◌-ℤ◌, ◌*ℤ◌, pos, unsigned_abs};
ghost use Rattle.ntx_num.specs.Ratio.{nearest, rounded_fraction, rounded_part, RoundedPartIsOdd};

/// The greatest result in absolute value.
const GREATEST: u128 = 1_000_000_000;

/// `n / d`, rounded to the nearest whole number, a half upward.
fn rounded(n: u128, d: u128) -> u128
    requires dividend { n < 2 ^ 126 }
    requires positive { 0 < d }
    requires divisor { d < 2 ^ 126 }
    ensures { result ≡ nearest n d }
{
    (2 * n + d) / (2 * d)
}

/// `product / den`, rounded to the nearest whole number, a half away from zero, and kept within 10^9 in absolute value.
fn part(product: i128, den: u64) -> i64
    requires product { unsigned_abs product ≤ 2 ^ 80 }
    requires positive { 0 < den }
    ensures value { result ≡ rounded_fraction product den }
    ensures near { unsigned_abs result < 1000000000 → 2 * unsigned_abs (result *ℤ pos den -ℤ product) ≤ den }
    ensures capped { unsigned_abs result ≤ 1000000000 }
{
    let size = rounded(product.unsigned_abs(), u128::from(den)).min(GREATEST) as i64;
    if product < 0 { -size } else { size }
}

/// `num * x / den`, rounded to the nearest whole number, a half away from zero, and kept within 10^9 in absolute value.
/// `num / den` is the ratio at which a box's glue is set. `den` is 1 or more, and in absolute value `num` is 2^32 at most
/// and `x` 2^48 at most.
pub fn round_ratio(num: i64, den: i64, x: i64) -> i64
    requires num { unsigned_abs num ≤ 2 ^ 32 }
    requires den { pos 0 <ℤ den }
    requires x { unsigned_abs x ≤ 2 ^ 48 }
    ensures value { result ≡ rounded_part num (unsigned_abs den) x }
    // Unless it is kept within 10 ^ 9, it is within a half of the fraction.
    ensures near { unsigned_abs result < 1000000000 → 2 * unsigned_abs (result *ℤ den -ℤ num *ℤ x) ≤ unsigned_abs den }
    ensures capped { unsigned_abs result ≤ 1000000000 }
{
    part(i128::from(num) * i128::from(x), den as u64)
}

/// The law that the rounded part of `-x` is minus that of `x`.
pub fn round_ratio_is_odd()
    ensures { RoundedPartIsOdd }
{}
