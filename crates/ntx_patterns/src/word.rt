//! The word that writes a pattern.

ghost use Rattle.std.specs.Prelude.{◌≡◌, false, filter, IfOk};
ghost use Rattle.ntx_patterns.specs.Pattern as pattern;

use ntx_num::NoMemory;
use std::alloc::Global;

/// The most letters of a pattern.
const MAX_LETTERS: usize = 63;

/// Whether a byte is a letter from `a` to `z`.
pub fn is_letter(byte: u8) -> bool
    ensures { result ≡ pattern.is_letter byte }
{
    b'a' <= byte && byte <= b'z'
}

/// Whether a byte is a decimal digit.
fn is_digit(byte: u8) -> bool
    ensures { result ≡ pattern.is_digit byte }
{
    b'0' <= byte && byte <= b'9'
}

/// Whether the bytes are letters and digits with no digit directly after another one.
fn is_spaced(bytes: &[u8]) -> bool
    ensures { result ≡ pattern.is_spaced false bytes.now }
{
    let mut after_digit = false;
    for byte in bytes {
        let digit = is_digit(*byte);
        if digit && after_digit || !digit && !is_letter(*byte) {
            return false;
        }
        after_digit = digit;
    }
    true
}

/// Whether the bytes are 1 to 63 letters with at most one digit before, between and after them.
fn is_lettered(bytes: &[u8]) -> bool
    ensures { result ≡ pattern.is_lettered bytes.now }
{
    let letters = bytes.iter().filter(|byte| is_letter(**byte)).count();
    is_spaced(bytes) && 1 <= letters && letters <= MAX_LETTERS
}

/// The word without a dot at its beginning.
fn after_dot(word: &[u8]) -> &[u8]
    ensures { result.now ≡ pattern.after_dot word.now }
{
    match word {
        [b'.', others @ ..] => others,
        _ => word,
    }
}

/// The word without a dot at its end.
fn before_dot(word: &[u8]) -> &[u8]
    ensures { result.now ≡ pattern.before_dot word.now }
{
    if word.last() == Some(&b'.') {
        &word[..word.len() - 1]
    } else {
        word
    }
}

/// Whether a word writes a pattern: an optional dot, 1 to 63 letters with at most one digit before, between and after
/// them, and an optional dot.
pub fn is_pattern(word: &[u8]) -> bool
    ensures { result ≡ pattern.is_pattern word.now }
{
    is_lettered(before_dot(after_dot(word)))
}

/// The symbols of a pattern: its letters and dots.
pub fn symbols(alloc: Global, word: &[u8]) -> Result<Vec<u8>, NoMemory>
    ensures { IfOk result (λ symbols. symbols.items ≡ filter pattern.is_symbol word.now) }
{
    let symbols = word
        .iter()
        .copied()
        .filter(|byte| !is_digit(*byte))
        .collect(alloc)?;
    Ok(symbols)
}

/// The digits of a pattern before each symbol and after the last one; a digit that is not written is 0.
pub fn digits(alloc: Global, word: &[u8]) -> Result<Vec<u8>, NoMemory>
    ensures { IfOk result (λ digits. digits.items ≡ pattern.digits_after 0 word.now) }
{
    let mut digits = Vec::new(alloc);
    let mut digit = 0;
    for byte in word {
        if is_digit(*byte) {
            digit = *byte - b'0';
        } else {
            digits.push(digit)?;
            digit = 0;
        }
    }
    digits.push(digit)?;
    Ok(digits)
}
