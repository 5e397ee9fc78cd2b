//! Numerals.

ghost use Rattle.std.specs.Prelude.{◌≡◌, ◌%◌, ◌^◌, IsSome, nat_lt, if◌then◌else◌, slice_index, take, is_some, true};
ghost use Rattle.std.specs.List.{list_all};
ghost use Rattle.std.specs.Char.{is_ascii_digit, is_ascii_hexdigit};
ghost use Rattle.std.specs.Str.Parse.{digits_value};
ghost use Rattle.ntx_syntax.specs.Values.{numeral_value};
ghost use Rattle.ntx_syntax.specs.Pieces.{numeral_piece};
ghost use Rattle.ntx_syntax.specs.inner.Front.{IsFrontOf, EndsForm, begins_hexadecimal};

use crate::bytes::{Class, byte, hex_value, run, spoils_numeral};
use crate::fault::SyntaxWhy;
use crate::piece::Piece;
use crate::token::Sort;

/// The greatest integer.
const MAX: u64 = (1 << 63) - 1;

/// The integer that decimal digits write, if it is 2^63-1 at most.
fn decimal_value(digits: &[u8]) -> Option<u64>
    requires { list_all is_ascii_digit digits.now ≡ true }
    ensures { result ≡ (if nat_lt (digits_value 10 digits.now) (2 ^ 63) then Some (digits_value 10 digits.now) else None) }
{
    let mut value = 0;
    for digit in digits {
        if value > MAX / 10 {
            return None;
        }
        value = value * 10 + (*digit - b'0') as u64;
        if value > MAX {
            return None;
        }
    }
    Some(value)
}

/// The integer that hexadecimal digits write, modulo 2^64.
fn hexadecimal_value(digits: &[u8]) -> u64
    requires { list_all is_ascii_hexdigit digits.now ≡ true }
    ensures { result ≡ digits_value 16 digits.now % 2 ^ 64 }
{
    let mut value = 0;
    for digit in digits {
        value = value % (1 << 60) * 16 + hex_value(*digit) as u64;
    }
    value
}

/// The integer that a numeral represents. A hexadecimal one wraps to 64 bits.
///
/// `bytes` spell one numeral, as those of a token of sort `Numeral` do: decimal digits, one or more, that write 2^63-1 at
/// most, or `0x` and one hexadecimal digit or more.
pub fn numeral_value(bytes: &[u8]) -> i64
    requires { IsSome (numeral_value bytes.now) }
    ensures { numeral_value bytes.now ≡ Some result }
{
    if begins_hexadecimal(bytes) {
        hexadecimal_value(&bytes[2..]).cast_signed()
    } else {
        match decimal_value(bytes) {
            Some(value) => value as i64,
            // A numeral that is not hexadecimal has a value.
            None => unreachable!(),
        }
    }
}

/// Whether `0x` and a hexadecimal digit stand at the beginning.
fn begins_hexadecimal(bytes: &[u8]) -> bool
    ensures { result ≡ begins_hexadecimal bytes.now }
{
    byte(bytes, 0) == b'0' && byte(bytes, 1) == b'x' && byte(bytes, 2).is_ascii_hexdigit()
}

/// How many bytes at the beginning have the form of a numeral, and whether an integer represents them.
fn form_len(bytes: &[u8]) -> (usize, bool)
    requires { is_ascii_digit (slice_index bytes.now 0) ≡ true }
    ensures end { EndsForm bytes.now result.0 }
    ensures fits { result.1 ≡ is_some (numeral_value (take result.0 bytes.now)) }
{
    if begins_hexadecimal(bytes) {
        (2 + run(Class::HexDigit, &bytes[2..]), true)
    } else {
        let len = run(Class::Digit, bytes);
        (len, decimal_value(&bytes[..len]).is_some())
    }
}

/// The numeral at the beginning, wrong where it is too large or where a letter, `_` or `.` stands directly after it.
pub fn numeral(bytes: &[u8]) -> (Piece, usize)
    requires { is_ascii_digit (slice_index bytes.now 0) ≡ true }
    ensures { IsFrontOf numeral_piece bytes.now result.1 result.0 }
{
    let (len, fits) = form_len(bytes);
    if spoils_numeral(byte(bytes, len)) {
        (Piece::Wrong(SyntaxWhy::Number), len + 1)
    } else if fits {
        (Piece::Token(Sort::Numeral), len)
    } else {
        (Piece::Wrong(SyntaxWhy::Number), len)
    }
}
