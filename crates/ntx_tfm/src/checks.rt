//! The faults of a TFM file ("TeX: The Program", sections 560 to 575).

ghost use Rattle.std.specs.Prelude.{◌≡◌, ◌<◌, ◌≤◌, ◌+◌, ◌*◌, Some, length, IfNone, IfOk, IfErr};
ghost use Rattle.ntx_tfm.specs.Layout.{IsLaidOut, lengths_of, word_count};
ghost use Rattle.ntx_tfm.specs.Faults.{has_size, has_entries, have_entries, begin_with_zero, is_fix_word, are_fix_words, have_fix_words, is_there, begins_at_step, begin_at_steps, is_ligature, has_operands, is_good_step, are_good_steps, fault_of_tables, fault_of_lengths, first_fault, IsFaultless};

use crate::fault::FontFault;
use crate::layout::Lengths;
use crate::step::LigStep;
use crate::words::{CharInfo, Quad, four_bytes, info, step, word};

/// Whether the design size is below 2^26 scaled points and at least one point.
#[tactic(auto, unfolding(crate::specs::Faults::has_size))]
fn has_size(bytes: &[u8]) -> bool
    requires { 32 ≤ length bytes.now }
    ensures { result ≡ has_size bytes.now }
{
    let design = word(bytes, 7);
    design < 1 << 30 && 1 << 16 <= design / 16
}

/// Whether each index of a character is in its table.
#[tactic(auto, unfolding(crate::specs::Faults::has_entries))]
fn has_entries(lengths: Lengths, info: CharInfo) -> bool
    ensures { result ≡ has_entries lengths info }
{
    u16::from(info.width) < lengths.nw
        && u16::from(info.height) < lengths.nh
        && u16::from(info.depth) < lengths.nd
        && u16::from(info.italic) < lengths.ni
}

/// The same of each character.
fn have_entries(bytes: &[u8], lengths: Lengths) -> bool
    requires { IsLaidOut bytes.now lengths }
    ensures { result ≡ have_entries bytes.now lengths }
{
    for k in 0..lengths.code_count() {
        if !has_entries(lengths, info(bytes, lengths.infos_at() + k)) {
            return false;
        }
    }
    true
}

/// Whether the first width, height, depth and italic correction are 0.
#[tactic(auto, unfolding(crate::specs::Faults::begin_with_zero))]
fn begin_with_zero(bytes: &[u8], lengths: Lengths) -> bool
    requires { IsLaidOut bytes.now lengths }
    ensures { result ≡ begin_with_zero bytes.now lengths }
{
    word(bytes, lengths.widths_at()) == 0
        && word(bytes, lengths.heights_at()) == 0
        && word(bytes, lengths.depths_at()) == 0
        && word(bytes, lengths.italics_at()) == 0
}

/// Whether a word is a fix_word between -16 and 16.
fn is_fix_word(word: Quad) -> bool
    ensures { result ≡ is_fix_word word }
{
    word.a == 0 || word.a == 255
}

/// Whether each of `count` words from a place on is a fix_word between -16 and 16.
fn are_fix_words(bytes: &[u8], from: usize, count: usize) -> bool
    requires { 0 < count → 4 * (from + count) ≤ length bytes.now }
    ensures { result ≡ are_fix_words bytes.now from count }
{
    for k in 0..count {
        if !is_fix_word(four_bytes(bytes, from + k)) {
            return false;
        }
    }
    true
}

/// The same of all widths, heights, depths, italic corrections and kerns, and of the parameters from the second on.
#[tactic(auto, unfolding(crate::specs::Faults::have_fix_words))]
fn have_fix_words(bytes: &[u8], lengths: Lengths) -> bool
    requires { IsLaidOut bytes.now lengths }
    ensures { result ≡ have_fix_words bytes.now lengths }
{
    are_fix_words(bytes, lengths.widths_at(), usize::from(lengths.nw))
        && are_fix_words(bytes, lengths.heights_at(), usize::from(lengths.nh))
        && are_fix_words(bytes, lengths.depths_at(), usize::from(lengths.nd))
        && are_fix_words(bytes, lengths.italics_at(), usize::from(lengths.ni))
        && are_fix_words(bytes, lengths.kerns_at(), usize::from(lengths.nk))
        && are_fix_words(
            bytes,
            lengths.parameters_at() + 1,
            usize::from(lengths.np).saturating_sub(1),
        )
}

/// Whether the font has a character of this code.
#[tactic(auto, unfolding(crate::specs::Faults::is_there))]
pub fn is_there(bytes: &[u8], lengths: Lengths, code: u8) -> bool
    requires { IsLaidOut bytes.now lengths }
    ensures { result ≡ is_there bytes.now lengths code }
{
    let code = u16::from(code);
    lengths.bc <= code
        && code <= lengths.ec
        && info(bytes, lengths.infos_at() + usize::from(code - lengths.bc)).width != 0
}

/// Whether a character's program, if it has one, begins at a step.
#[tactic(auto, unfolding(crate::specs::Faults::begins_at_step))]
fn begins_at_step(lengths: Lengths, info: CharInfo) -> bool
    ensures { result ≡ begins_at_step lengths info }
{
    info.tag != 1 || u16::from(info.remainder) < lengths.nl
}

/// The same of each character.
fn begin_at_steps(bytes: &[u8], lengths: Lengths) -> bool
    requires { IsLaidOut bytes.now lengths }
    ensures { result ≡ begin_at_steps bytes.now lengths }
{
    for k in 0..lengths.code_count() {
        if !begins_at_step(lengths, info(bytes, lengths.infos_at() + k)) {
            return false;
        }
    }
    true
}

/// Whether an operation is one of the eight ligatures.
fn is_ligature(op: u8) -> bool
    ensures { result ≡ is_ligature op }
{
    op < 4 || (4 < op && op < 8) || op == 11
}

/// Whether a step's kern is in the table, or its ligature is one and has its character.
#[tactic(auto, unfolding(crate::specs::Faults::has_operands))]
fn has_operands(bytes: &[u8], lengths: Lengths, step: LigStep) -> bool
    requires { IsLaidOut bytes.now lengths }
    ensures { result ≡ has_operands bytes.now lengths step }
{
    if 128 <= step.op {
        256 * u16::from(step.op - 128) + u16::from(step.rem) < lengths.nk
    } else {
        is_ligature(step.op) && is_there(bytes, lengths, step.rem)
    }
}

/// Whether a step leads to a step, and has its operands where it is not a mere start of a program.
#[tactic(auto, unfolding(crate::specs::Faults::is_good_step))]
fn is_good_step(bytes: &[u8], lengths: Lengths, place: usize, step: LigStep) -> bool
    requires laid_out { IsLaidOut bytes.now lengths }
    requires place { place < lengths.nl }
    ensures { result ≡ is_good_step bytes.now lengths place step }
{
    if 128 < step.skip {
        256 * u16::from(step.op) + u16::from(step.rem) < lengths.nl
    } else {
        has_operands(bytes, lengths, step)
            && (step.skip == 128 || place + usize::from(step.skip) + 1 < usize::from(lengths.nl))
    }
}

/// The same of each step.
fn are_good_steps(bytes: &[u8], lengths: Lengths) -> bool
    requires { IsLaidOut bytes.now lengths }
    ensures { result ≡ are_good_steps bytes.now lengths }
{
    for i in 0..usize::from(lengths.nl) {
        if !is_good_step(bytes, lengths, i, step(bytes, lengths.steps_at() + i)) {
            return false;
        }
    }
    true
}

/// The first fault of a file whose lengths are in order.
#[tactic(auto, unfolding(crate::specs::Faults::fault_of_tables))]
fn fault_of_tables(bytes: &[u8], lengths: Lengths) -> Option<FontFault>
    requires { IsLaidOut bytes.now lengths }
    ensures { result ≡ fault_of_tables bytes.now lengths }
{
    if !has_size(bytes) {
        Some(FontFault::Size)
    } else if !have_entries(bytes, lengths) {
        Some(FontFault::Index)
    } else if !begin_with_zero(bytes, lengths) {
        Some(FontFault::FirstNotZero)
    } else if !have_fix_words(bytes, lengths) {
        Some(FontFault::FixWord)
    } else if !(begin_at_steps(bytes, lengths) && are_good_steps(bytes, lengths)) {
        Some(FontFault::LigProgram)
    } else {
        None
    }
}

/// The first fault that the lengths show, or else that of the tables.
#[tactic(auto, unfolding(crate::specs::Faults::fault_of_lengths, crate::specs::Layout::are_short, crate::specs::Layout::are_usable))]
fn fault_of_lengths(bytes: &[u8], lengths: Lengths) -> Option<FontFault>
    ensures { result ≡ fault_of_lengths bytes.now lengths }
{
    if !(lengths.are_short() && lengths.are_usable()) {
        Some(FontFault::Range)
    } else if lengths.lh < 2 {
        Some(FontFault::Header)
    } else if usize::from(lengths.lf) != lengths.word_count() {
        Some(FontFault::Lengths)
    } else if bytes.len() < 4 * usize::from(lengths.lf) {
        Some(FontFault::Short)
    } else {
        fault_of_tables(bytes, lengths)
    }
}

/// The first fault of a file.
#[tactic(auto, unfolding(crate::specs::Faults::first_fault))]
fn first_fault(bytes: &[u8]) -> Option<FontFault>
    ensures value { result ≡ first_fault bytes.now }
    ensures long { IfNone result (24 ≤ length bytes.now) }
{
    if bytes.len() < 24 {
        Some(FontFault::Short)
    } else {
        fault_of_lengths(bytes, Lengths::read(bytes))
    }
}

/// The lengths of a file without fault, or the first fault.
#[tactic(auto, using(crate::proofs::SoundLemmas::sound_of))]
pub fn checked(bytes: &[u8]) -> Result<Lengths, FontFault>
    ensures fault { IfErr result (λ f. first_fault bytes.now ≡ Some f) }
    ensures faultless { IfOk result (IsFaultless bytes.now) }
{
    match first_fault(bytes) {
        Some(fault) => Err(fault),
        None => Ok(Lengths::read(bytes)),
    }
}
