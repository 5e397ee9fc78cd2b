//! Numbers and words at their places in a TFM file.

ghost use Rattle.std.specs.Prelude.{◌≡◌, ◌+◌, ◌*◌, ◌<◌, ◌≤◌, length};
ghost use Rattle.ntx_tfm.specs.Words.{half_at, word_at, signed_at, quad_at, info_at, step_at};

use crate::step::LigStep;
use byteorder::{BigEndian, ByteOrder};

/// A word as its four bytes.
#[derive(Clone, Copy)]
pub struct Quad {
    pub a: u8,
    pub b: u8,
    pub c: u8,
    pub d: u8,
}

/// A character's word ("TeX: The Program", section 543).
#[derive(Clone, Copy)]
pub struct CharInfo {
    /// The number of its width. A character that is not there has 0.
    pub width: u8,
    /// The number of its height.
    pub height: u8,
    /// The number of its depth.
    pub depth: u8,
    /// The number of its italic correction.
    pub italic: u8,
    /// What the remainder is: 1 says a program of ligatures and kerns.
    pub tag: u8,
    /// Where its program starts.
    pub remainder: u8,
}

/// The `i`-th number of 16 bits.
#[tactic(auto, unfolding(crate::specs::Words::half_at))]
pub fn half(bytes: &[u8], i: usize) -> u16
    requires { 2 * i + 2 ≤ length bytes.now }
    ensures { result ≡ half_at bytes.now i }
{
    BigEndian::read_u16(&bytes[2 * i..])
}

/// The `i`-th word as a number.
#[tactic(auto, unfolding(crate::specs::Words::word_at))]
pub fn word(bytes: &[u8], i: usize) -> u32
    requires { 4 * i + 4 ≤ length bytes.now }
    ensures { result ≡ word_at bytes.now i }
{
    BigEndian::read_u32(&bytes[4 * i..])
}

/// The `i`-th word as a signed number.
#[tactic(auto, unfolding(crate::specs::Words::signed_at, crate::specs::Words::word_at))]
pub fn signed(bytes: &[u8], i: usize) -> i32
    requires { 4 * i + 4 ≤ length bytes.now }
    ensures { result ≡ signed_at bytes.now i }
{
    BigEndian::read_i32(&bytes[4 * i..])
}

/// The `i`-th word as four bytes.
#[tactic(auto, unfolding(crate::specs::Words::quad_at))]
pub fn four_bytes(bytes: &[u8], i: usize) -> Quad
    requires { 4 * i + 4 ≤ length bytes.now }
    ensures { result ≡ quad_at bytes.now i }
{
    Quad {
        a: bytes[4 * i],
        b: bytes[4 * i + 1],
        c: bytes[4 * i + 2],
        d: bytes[4 * i + 3],
    }
}

/// The `i`-th word as a character's.
#[tactic(auto, unfolding(crate::specs::Words::info_at))]
pub fn info(bytes: &[u8], i: usize) -> CharInfo
    requires { 4 * i + 4 ≤ length bytes.now }
    ensures { result ≡ info_at bytes.now i }
{
    let word = four_bytes(bytes, i);
    CharInfo {
        width: word.a,
        height: word.b / 16,
        depth: word.b % 16,
        italic: word.c / 4,
        tag: word.c % 4,
        remainder: word.d,
    }
}

/// The `i`-th word as a step.
#[tactic(auto, unfolding(crate::specs::Words::step_at))]
pub fn step(bytes: &[u8], i: usize) -> LigStep
    requires { 4 * i + 4 ≤ length bytes.now }
    ensures { result ≡ step_at bytes.now i }
{
    let word = four_bytes(bytes, i);
    LigStep {
        skip: word.a,
        next: word.b,
        op: word.c,
        rem: word.d,
    }
}
