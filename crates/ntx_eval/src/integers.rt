//! Integers of scripts: 64 bits in two's complement, and what does not fit wraps (Lua 5.3 Reference Manual, sections 3.4.1
//! and 3.4.2).

ghost use Rattle.std.specs.Prelude.{◌≡◌, ◌≢◌, ◌<ℤ◌, pos};
ghost use Rattle.ntx_eval.specs.Integers as spec;

use ntx_values::LuaWhy;

/// The quotient, rounded toward minus infinity.
fn floor_divide(a: i64, b: i64) -> i64
    requires { b ≢ pos 0 }
    ensures { result ≡ spec.wrapped (spec.floor_quotient a b) }
{
    let quotient = a.wrapping_div_euclid(b);
    if b < 0 && a.wrapping_rem_euclid(b) != 0 {
        quotient - 1
    } else {
        quotient
    }
}

/// What that quotient leaves.
fn floor_modulo(a: i64, b: i64) -> i64
    requires { b ≢ pos 0 }
    ensures { result ≡ spec.floor_remainder a b }
{
    let remainder = a.wrapping_rem_euclid(b);
    if b < 0 && remainder != 0 {
        remainder + b
    } else {
        remainder
    }
}

/// `a // b`: the quotient, rounded toward minus infinity.
///
/// # Refusals
///
/// ZeroDivisor if the divisor is 0.
pub(crate) fn quotient(a: i64, b: i64) -> Result<i64, LuaWhy>
    ensures { result ≡ spec.quotient a b }
{
    if b == 0 {
        return Err(LuaWhy::ZeroDivisor);
    }
    Ok(floor_divide(a, b))
}

/// `a % b`: what that quotient leaves, with the sign of the divisor.
///
/// # Refusals
///
/// ZeroDivisor if the divisor is 0.
pub(crate) fn remainder(a: i64, b: i64) -> Result<i64, LuaWhy>
    ensures { result ≡ spec.remainder a b }
{
    if b == 0 {
        return Err(LuaWhy::ZeroDivisor);
    }
    Ok(floor_modulo(a, b))
}

/// The bits moved to the left by `count` places.
fn to_the_left(a: i64, count: u64) -> i64
    ensures { result ≡ spec.to_the_left a count }
{
    if count > 63 {
        return 0;
    }
    a << count
}

/// The bits moved to the right by `count` places, with zeros coming in.
fn to_the_right(a: i64, count: u64) -> i64
    ensures { result ≡ spec.to_the_right a count }
{
    if count >= 64 {
        return 0;
    }
    (a.cast_unsigned() >> count).cast_signed()
}

/// `a << b`
pub(crate) fn shift_left(a: i64, b: i64) -> i64
    ensures { result ≡ spec.shifted_left a b }
{
    if b < 0 {
        to_the_right(a, b.unsigned_abs())
    } else {
        to_the_left(a, b.unsigned_abs())
    }
}

/// `a >> b`
pub(crate) fn shift_right(a: i64, b: i64) -> i64
    ensures { result ≡ spec.shifted_right a b }
{
    if b < 0 {
        to_the_left(a, b.unsigned_abs())
    } else {
        to_the_right(a, b.unsigned_abs())
    }
}
