//! Demerits of a line ("TeX: The Program", section 859).

ghost use Rattle.std.specs.Prelude.{◌≡◌, ◌≤◌, ◌≤ℤ◌, pos, negsuc, unsigned_abs};
ghost use Rattle.ntx_num.specs.Demerits.{capped_square, signed_square, demerits_of};

/// The square of `d`, and 10^8 where `d` is 10000 or more in absolute value.
fn square(d: i64) -> i64
    ensures value { result ≡ capped_square d }
    ensures capped { unsigned_abs result ≤ 100000000 }
{
    if -10_000 < d && d < 10_000 {
        d * d
    } else {
        100_000_000
    }
}

/// The square of a penalty with the penalty's sign, and 0 for a forced break.
fn penalty(p: i64) -> i64
    requires low { negsuc 9999 ≤ℤ p }
    requires high { p ≤ℤ pos 9999 }
    ensures value { result ≡ signed_square p }
    ensures capped { unsigned_abs result ≤ 100000000 }
{
    if p > 0 {
        p * p
    } else if p > -10_000 {
        -(p * p)
    } else {
        0
    }
}

/// The demerits of a line of badness `b` that ends at a break of penalty `p`: the square of `linepenalty + b`, or 10^8
/// where that sum is 10000 or more in absolute value, and the square of `p` with its sign, or nothing at a forced
/// break, which has penalty -10000. `linepenalty` is 10^8 at most in absolute value, `b` is from 0 to 10001, and `p` from
/// -10000 to 9999.
pub fn demerits(linepenalty: i64, b: i64, p: i64) -> i64
    requires linepenalty_low { negsuc 99999999 ≤ℤ linepenalty }
    requires linepenalty_high { linepenalty ≤ℤ pos 100000000 }
    requires b_low { pos 0 ≤ℤ b }
    requires b_high { b ≤ℤ pos 10001 }
    requires p_low { negsuc 9999 ≤ℤ p }
    requires p_high { p ≤ℤ pos 9999 }
    ensures { result ≡ demerits_of linepenalty b p }
{
    square(linepenalty + b) + penalty(p)
}
