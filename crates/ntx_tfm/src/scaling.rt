//! A fix_word times a size ("TeX: The Program", sections 571 and 572).

ghost use Rattle.std.specs.Prelude.{◌≡◌, ◌<◌, ◌≤◌, ◌*◌, ◌^◌};
ghost use Rattle.ntx_tfm.specs.Scaling.{divisor_of, reduced, magnitude, scaled, ScalingRoundsDown};

use crate::words::Quad;

/// The power of 2 by which a size below 2^26 is divided so that it is below 2^23.
#[tactic(auto, unfolding(crate::specs::Scaling::divisor_of))]
fn divisor(size: u32) -> u32
    requires { size < 2 ^ 26 }
    ensures value { result ≡ divisor_of size }
    ensures among { (1 ≤ result) × (result ≤ 8) }
{
    if size < 1 << 23 {
        1
    } else if size < 1 << 24 {
        2
    } else if size < 1 << 25 {
        4
    } else {
        8
    }
}

/// The last three bytes of a fix_word times a size.
#[tactic(auto, unfolding(crate::specs::Scaling::magnitude))]
fn magnitude(size: u32, word: Quad) -> u64
    requires { size < 2 ^ 26 }
    ensures value { result ≡ magnitude size word }
    ensures below { result ≤ 16 * divisor_of size * reduced size }
{
    let divisor = divisor(size);
    let size = u64::from(size / divisor);
    let last_two = u64::from(word.d) * size / 256 + u64::from(word.c) * size;
    (last_two / 256 + u64::from(word.b) * size) / u64::from(16 / divisor)
}

/// A fix_word times a size, in scaled points.
#[tactic(auto, unfolding(crate::specs::Scaling::scaled))]
pub fn scaled(size: u32, word: Quad) -> i64
    requires { size < 2 ^ 26 }
    ensures { result ≡ scaled size word }
{
    let magnitude = magnitude(size, word) as i64;
    let divisor = divisor(size);
    if word.a == 255 {
        magnitude - i64::from(16 * divisor * (size / divisor))
    } else {
        magnitude
    }
}

/// The law that a scaled fix_word is its product with the size, rounded down, but for the low bits of a size of 2^23 or
/// more: up to three of them are cleared first.
#[tactic(auto, using(crate::proofs::ScalingLemmas::scaling_rounds_down_lem))]
pub fn scaling_rounds_down()
    ensures { ScalingRoundsDown }
{}
