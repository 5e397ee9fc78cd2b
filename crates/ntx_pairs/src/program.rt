//! Programs of ligatures and kerns.

ghost use Rattle.std.specs.Prelude.{◌≡◌, ◌≤◌, IsTrue};
ghost use Rattle.ntx_tfm.specs.Font.{IsGoodStep};
ghost use Rattle.ntx_pairs.specs.Pairs.{applies, deciding, command_of, command_in, pair_of, IsPair, IsGoodPair};

use crate::command::Pair;
use ntx_tfm::{Font, LigStep};

/// Whether a step applies to the right character.
fn applies(step: LigStep, right: u8) -> bool
    ensures value { result ≡ applies step right }
    ensures skip { IsTrue result → step.skip ≤ 128 }
{
    step.skip <= 128 && step.next == right
}

/// What a step of a font does, which applies.
fn command(font: &Font, place: u64, step: LigStep) -> Pair
    requires good { IsGoodStep font.now place step }
    requires applies { step.skip ≤ 128 }
    ensures value { result ≡ command_of font.now step }
    ensures good { IsGoodPair font.now result }
{
    if 128 <= step.op {
        let number = 256 * u64::from(step.op - 128) + u64::from(step.rem);
        Pair::Kern(font.kern_of(number).unwrap())
    } else {
        Pair::Lig(step.op, step.rem)
    }
}

/// What the program that starts at a step says of the right character.
fn pair_from(font: &Font, start: u64, right: u8) -> Pair
    ensures value { result ≡ command_in font.now (deciding right start font.now.steps) }
    ensures good { IsGoodPair font.now result }
{
    let mut place = start;
    while let Some(step) = font.lig_step(place) {
        if applies(step, right) {
            return command(font, place, step);
        }
        if 128 <= step.skip {
            return Pair::None;
        }
        place += u64::from(step.skip) + 1;
    }
    Pair::None
}

/// What a font says of the characters `left` and `right`: what the least place of the program of `left` does whose step
/// applies to `right`, and nothing where `left` is not in the font or has no program, or no step applies.
#[tactic(auto, unfolding(crate::specs::Pairs::pair_of))]
pub fn pair(font: &Font, left: u8, right: u8) -> Pair
    ensures value { result ≡ pair_of font.now left right }
    ensures least { IsPair font.now left right result }
    ensures good { IsGoodPair font.now result }
{
    match font.start(left) {
        None => Pair::None,
        Some(start) => pair_from(font, start, right),
    }
}
