//! Badness of a box or a line ("TeX: The Program", section 108).

ghost use Rattle.std.specs.Prelude.{◌≡◌, ◌<◌, ◌≤◌, ◌≤ℤ◌, pos, unsigned_abs};
ghost use Rattle.ntx_num.specs.Badness.{badness_of, scaled_ratio, cubed, BadnessGrows};

/// The greatest badness.
const GREATEST: u64 = 10_000;

/// The greatest ratio, in units of 1/297, whose cube is below 2^31.
const GREATEST_RATIO: u64 = 1_290;

/// The greatest shortfall whose product with 297 is below 2^31.
const GREATEST_SHORTFALL: u64 = 7_230_584;

/// The least glue for which a larger shortfall can have a ratio that is not too large.
const LEAST_GLUE: u64 = 1_663_497;

/// About 297 times the shortfall over the glue.
fn ratio(shortfall: u64, glue: u64) -> u64
    requires { 0 < glue }
    ensures { result ≡ scaled_ratio shortfall glue }
{
    if shortfall <= GREATEST_SHORTFALL {
        shortfall * 297 / glue
    } else if LEAST_GLUE <= glue {
        shortfall / (glue / 297)
    } else {
        shortfall
    }
}

/// The cube of a ratio in units of 1/297, times 100 and rounded.
fn cube(ratio: u64) -> u64
    ensures value { result ≡ cubed ratio }
    ensures capped { result ≤ 10000 }
{
    if ratio <= GREATEST_RATIO {
        (ratio * ratio * ratio + 131_072) / 262_144
    } else {
        GREATEST
    }
}

/// How bad it is to make up for the shortfall `t` by the glue `s`, both in scaled points: about 100 times the cube of
/// t/s, from 0 for none to 10000. `t` is 0 or more. Where `s` is 0 or less, every shortfall but 0 has badness 10000. A
/// badness of 10001, of a line that is too wide, is not this function's.
pub fn badness(t: i64, s: i64) -> i64
    requires { pos 0 ≤ℤ t }
    ensures value { result ≡ pos (badness_of (unsigned_abs t) s) }
    ensures none { t ≡ pos 0 → result ≡ pos 0 }
    ensures capped { (pos 0 ≤ℤ result) × (result ≤ℤ pos 10000) }
{
    if t == 0 {
        0
    } else if s <= 0 {
        GREATEST as i64
    } else {
        cube(ratio(t as u64, s as u64)) as i64
    }
}

/// The law that badness does not fall as the shortfall grows, for the same glue.
pub fn badness_grows()
    ensures { BadnessGrows }
{}
