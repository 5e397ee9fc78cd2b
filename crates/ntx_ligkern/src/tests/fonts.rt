//! Fonts made for tests.

use ntx_tfm::{Font, read_font};
use std::alloc::{AllocError, Global};
use std::test;

/// What a font says of two characters: the left one, the right one, the operation, and the ligature's character or the
/// kern's number. The rules of one left character stand together.
pub(crate) type Rule = (u8, u8, u8, u8);

/// The operation of a kern.
pub(crate) const KERN: u8 = 128;

/// The operation of a ligature that replaces both characters.
pub(crate) const LIG: u8 = 0;

/// Whether rule `i` is the first of its left character.
fn is_first(rules: &[Rule], i: usize) -> bool {
    match (rules.get(i), rules.get(i.wrapping_sub(1))) {
        (Some(rule), Some(before)) => rule.0 != before.0,
        _ => true,
    }
}

/// The word of a character, which has a program where there is a rule for it.
fn char_word(code: u8, rules: &[Rule]) -> [u8; 4] {
    for i in 0..rules.len() {
        if rules[i].0 == code {
            return [1, 0x10, 1, u8::try_from(i).unwrap_or(0)];
        }
    }
    [1, 0x10, 0, 0]
}

/// A TFM file with the characters from `!` to `~` and these rules, whose kern number k is 10 * (k + 1) scaled points at
/// the design size.
fn tfm_bytes(alloc: Global, rules: &[Rule]) -> Result<Vec<u8>, AllocError> {
    let mut out = Vec::new(alloc);
    let nl = u16::try_from(rules.len()).unwrap_or(0);
    let lf = nl.wrapping_add(6 + 2 + 94 + 2 + 2 + 1 + 1 + 9);
    for n in [lf, 2, 33, 126, 2, 2, 1, 1, nl, 9, 0, 0] {
        out.extend_from_slice(&n.to_be_bytes())?;
    }
    for word in [0u32, 0x00a0_0000] {
        out.extend_from_slice(&word.to_be_bytes())?;
    }
    for code in 33..127u8 {
        out.extend_from_slice(&char_word(code, rules))?;
    }
    for word in [0u32, 0x0008_0000, 0, 0x0007_0000, 0, 0] {
        out.extend_from_slice(&word.to_be_bytes())?;
    }
    for i in 0..rules.len() {
        let rule = rules[i];
        let skip = if is_first(rules, i.wrapping_add(1)) {
            128
        } else {
            0
        };
        out.extend_from_slice(&[skip, rule.1, rule.2, rule.3])?;
    }
    for k in 1..10u8 {
        out.extend_from_slice(&[0, 0, 0, k.wrapping_mul(16)])?;
    }
    Ok(out)
}

/// The font with these rules.
pub(crate) fn font_with(alloc: Global, rules: &[Rule]) -> Result<Font, test::Fail> {
    let bytes = tfm_bytes(alloc, rules)?;
    Ok(read_font(alloc, &bytes, "made", None)?)
}
