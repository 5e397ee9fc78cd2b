//! How badly a line fits ("TeX: The Program", sections 108, 817 and 851 to 853).

ghost use Rattle.std.specs.Prelude.{◌≡◌, ◌≤◌, ◌^◌, ◌≤ℤ◌, ◌<ℤ◌, pos, unsigned_abs};
ghost use Rattle.ntx_legal.specs.Fit.{stretched_class, shrunk_class, stretched, shrunk, fitted};

use ntx_num::badness;

/// How a line fits.
#[derive(Clone, Copy, Debug, PartialEq, Eq)]
pub struct Line {
    /// How far its natural width is below `hsize`, in scaled points; below 0 if the line is too wide.
    pub shortfall: i64,
    /// Its badness, from 0 to 10000, or 10001 if it cannot shrink enough.
    pub b: i64,
    /// Its fitness class: 0 very loose, 1 loose, 2 decent, 3 tight.
    pub class: u8,
}

/// The greatest shortfall that badness multiplies by 297 before it divides.
const GREATEST_SHORTFALL: i64 = 7_230_584;

/// The least stretch for which a larger shortfall can have a badness below 10000.
const LEAST_STRETCH: i64 = 1_663_497;

/// The greatest badness of a line that is not too wide.
const GREATEST_BADNESS: i64 = 10_000;

/// The badness of a line that cannot shrink enough.
const TOO_WIDE: i64 = 10_001;

/// The class of a line whose glue stretches with this badness.
fn stretched_class(b: i64) -> u8
    requires { pos 0 ≤ℤ b }
    ensures { result ≡ stretched_class (unsigned_abs b) }
{
    if b > 99 {
        0
    } else if b > 12 {
        1
    } else {
        2
    }
}

/// The class of a line whose glue shrinks with this badness.
fn shrunk_class(b: i64) -> u8
    requires { pos 0 ≤ℤ b }
    ensures { result ≡ shrunk_class (unsigned_abs b) }
{
    if b > 12 { 3 } else { 2 }
}

/// A line that is too narrow by `shortfall`.
fn stretched(shortfall: i64, infinite: bool, stretch: i64) -> Line
    requires { pos 0 <ℤ shortfall }
    ensures { result ≡ stretched shortfall infinite stretch }
{
    if infinite {
        return Line {
            shortfall,
            b: 0,
            class: 2,
        };
    }
    if shortfall > GREATEST_SHORTFALL && stretch < LEAST_STRETCH {
        return Line {
            shortfall,
            b: GREATEST_BADNESS,
            class: 0,
        };
    }
    let b = badness(shortfall, stretch);
    Line {
        shortfall,
        b,
        class: stretched_class(b),
    }
}

/// A line that fits, or is too wide by `-shortfall`.
fn shrunk(shortfall: i64, shrink: i64) -> Line
    requires sign { shortfall ≤ℤ pos 0 }
    requires size { unsigned_abs shortfall ≤ 2 ^ 62 }
    ensures { result ≡ shrunk shortfall shrink }
{
    if shrink < -shortfall {
        return Line {
            shortfall,
            b: TOO_WIDE,
            class: 3,
        };
    }
    let b = badness(-shortfall, shrink);
    Line {
        shortfall,
        b,
        class: shrunk_class(b),
    }
}

/// A line that is too narrow by `shortfall`, or too wide if that is below 0. `infinite` says whether the total stretch of some
/// infinite order is not 0.
pub(crate) fn fitted(shortfall: i64, infinite: bool, stretch: i64, shrink: i64) -> Line
    requires { unsigned_abs shortfall ≤ 2 ^ 62 }
    ensures { result ≡ fitted shortfall infinite stretch shrink }
{
    if shortfall > 0 {
        stretched(shortfall, infinite, stretch)
    } else {
        shrunk(shortfall, shrink)
    }
}
