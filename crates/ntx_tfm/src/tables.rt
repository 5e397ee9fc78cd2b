//! The tables of a font, read from a TFM file without fault.

ghost use Rattle.std.specs.Prelude.{◌≡◌, ◌<◌, ◌≤◌, ◌^◌, ◌+◌, true, IfOk};
ghost use Rattle.ntx_tfm.specs.Each.{table};
ghost use Rattle.ntx_tfm.specs.Words.{quad_at, step_at};
ghost use Rattle.ntx_tfm.specs.Layout.{IsLaidOut, kerns_at, steps_at};
ghost use Rattle.ntx_tfm.specs.Faults.{IsSound, has_entries, begins_at_step};
ghost use Rattle.ntx_tfm.specs.Scaling.{scaled};
ghost use Rattle.ntx_tfm.specs.Font.{start_of, size_of, character_of, parameter_of, seven};

use crate::checks::is_there;
use crate::layout::Lengths;
use crate::scaling::scaled;
use crate::step::LigStep;
use crate::words::{CharInfo, four_bytes, info, signed, step};
use ntx_num::{NoMemory, Size};
use std::alloc::Global;

/// A character that is in a font.
#[derive(Clone, Copy, Debug)]
pub struct Character {
    /// Its width, height and depth in scaled points.
    pub size: Size,
    /// The step at which its program starts, if it has one.
    pub start: Option<u64>,
}

/// Where the program of a character starts, if it has one: at its remainder, or where the step there leads.
#[tactic(auto, unfolding(crate::specs::Font::start_of, crate::specs::Faults::begins_at_step))]
fn start(bytes: &[u8], lengths: Lengths, info: CharInfo) -> Option<u64>
    requires laid_out { IsLaidOut bytes.now lengths }
    requires begins { begins_at_step lengths info ≡ true }
    ensures { result ≡ start_of bytes.now lengths info }
{
    if info.tag != 1 {
        return None;
    }
    let first = step(bytes, lengths.steps_at() + usize::from(info.remainder));
    if 128 < first.skip {
        Some(256 * u64::from(first.op) + u64::from(first.rem))
    } else {
        Some(u64::from(info.remainder))
    }
}

/// The width, height and depth that a character's indices name, at a size.
#[tactic(auto, unfolding(crate::specs::Faults::has_entries))]
fn size_at(bytes: &[u8], lengths: Lengths, at: u32, info: CharInfo) -> Size
    requires laid_out { IsLaidOut bytes.now lengths }
    requires entries { has_entries lengths info ≡ true }
    requires at { at < 2 ^ 26 }
    ensures { result ≡ size_of bytes.now lengths at info }
{
    let width = four_bytes(bytes, lengths.widths_at() + usize::from(info.width));
    let height = four_bytes(bytes, lengths.heights_at() + usize::from(info.height));
    let depth = four_bytes(bytes, lengths.depths_at() + usize::from(info.depth));
    Size {
        w: scaled(at, width),
        h: scaled(at, height),
        d: scaled(at, depth),
    }
}

/// The character of a code, where there is one.
#[tactic(auto, unfolding(crate::specs::Font::character_of, crate::specs::Faults::is_there))]
fn character_at(bytes: &[u8], lengths: Lengths, at: u32, code: u8) -> Option<Character>
    requires sound { IsSound bytes.now lengths }
    requires at { at < 2 ^ 26 }
    ensures { result ≡ character_of bytes.now lengths at code }
{
    if !is_there(bytes, lengths, code) {
        return None;
    }
    let info = info(
        bytes,
        lengths.infos_at() + usize::from(u16::from(code) - lengths.bc),
    );
    Some(Character {
        size: size_at(bytes, lengths, at, info),
        start: start(bytes, lengths, info),
    })
}

/// The characters of the codes from 0 to 255.
#[tactic(auto, using(crate::proofs::EachLemmas::table_none, crate::proofs::EachLemmas::table_more))]
pub fn characters(
    alloc: Global,
    bytes: &[u8],
    lengths: Lengths,
    at: u32,
) -> Result<Vec<Option<Character>>, NoMemory>
    requires sound { IsSound bytes.now lengths }
    requires at { at < 2 ^ 26 }
    ensures { IfOk result (λ v. v.items ≡ table (character_of bytes.now lengths at) 256) }
{
    let mut characters = Vec::with_capacity(alloc, 256)?;
    for code in 0..256u16 {
        characters.push(character_at(bytes, lengths, at, code as u8))?;
    }
    Ok(characters)
}

/// All steps of the programs.
#[tactic(auto, using(crate::proofs::EachLemmas::table_none, crate::proofs::EachLemmas::table_more))]
pub fn steps(alloc: Global, bytes: &[u8], lengths: Lengths) -> Result<Vec<LigStep>, NoMemory>
    requires { IsLaidOut bytes.now lengths }
    ensures { IfOk result
        (λ v. v.items ≡ table (λ i. step_at bytes.now (steps_at lengths + i)) lengths.nl) }
{
    let mut steps = Vec::with_capacity(alloc, usize::from(lengths.nl))?;
    for i in 0..usize::from(lengths.nl) {
        steps.push(step(bytes, lengths.steps_at() + i))?;
    }
    Ok(steps)
}

/// All kerns at a size, in scaled points.
#[tactic(auto, using(crate::proofs::EachLemmas::table_none, crate::proofs::EachLemmas::table_more))]
pub fn kerns(alloc: Global, bytes: &[u8], lengths: Lengths, at: u32) -> Result<Vec<i64>, NoMemory>
    requires laid_out { IsLaidOut bytes.now lengths }
    requires at { at < 2 ^ 26 }
    ensures { IfOk result
        (λ v. v.items ≡ table (λ k. scaled at (quad_at bytes.now (kerns_at lengths + k))) lengths.nk) }
{
    let mut kerns = Vec::with_capacity(alloc, usize::from(lengths.nk))?;
    for k in 0..usize::from(lengths.nk) {
        kerns.push(scaled(at, four_bytes(bytes, lengths.kerns_at() + k)))?;
    }
    Ok(kerns)
}

/// Parameter `k`, from 1 on: the slant as it stands, and the others at a size.
#[tactic(auto, unfolding(crate::specs::Font::parameter_of))]
fn parameter(bytes: &[u8], lengths: Lengths, at: u32, k: u8) -> i64
    requires laid_out { IsLaidOut bytes.now lengths }
    requires at { at < 2 ^ 26 }
    requires from_one { 1 ≤ k }
    ensures { result ≡ parameter_of bytes.now lengths at k }
{
    if lengths.np < u16::from(k) {
        0
    } else if k == 1 {
        i64::from(signed(bytes, lengths.parameters_at()))
    } else {
        scaled(
            at,
            four_bytes(bytes, lengths.parameters_at() + usize::from(k - 1)),
        )
    }
}

/// The seven parameters.
pub fn parameters(bytes: &[u8], lengths: Lengths, at: u32) -> [i64; 7]
    requires laid_out { IsLaidOut bytes.now lengths }
    requires at { at < 2 ^ 26 }
    ensures { result ≡ seven (parameter_of bytes.now lengths at) }
{
    [
        parameter(bytes, lengths, at, 1),
        parameter(bytes, lengths, at, 2),
        parameter(bytes, lengths, at, 3),
        parameter(bytes, lengths, at, 4),
        parameter(bytes, lengths, at, 5),
        parameter(bytes, lengths, at, 6),
        parameter(bytes, lengths, at, 7),
    ]
}
