//! Fonts.

ghost use Rattle.std.specs.Prelude.{◌≡◌, ◌<◌, ◌≤◌, ◌^◌, IfOk, IfSome, length, slice_get, FitsSigned};
ghost use Rattle.std.specs.Int.{w32};
ghost use Rattle.std.specs.Option.{ForSome};
ghost use Rattle.ntx_num.specs.Answer.{Answers};
ghost use Rattle.ntx_tfm.specs.Faults.{IsSound, IsFaultless};

use crate::checks::checked;
use crate::def::{FontDef, FontName};
use crate::fault::FontFault;
use crate::layout::Lengths;
use crate::step::LigStep;
use crate::tables::{Character, characters, kerns, parameters, steps};
use crate::words::word;
use ntx_num::{Fail, NoMemory, Size};
use std::alloc::Global;
use std::marker::Model;

/// A font at a size: its definition, its characters with their sizes and programs, the steps of the programs, the
/// kerns and seven parameters. Contracts see it as its tables.
#[derive(Debug, Drop)]
pub struct Font {
    def: FontDef,
    characters: Vec<Option<Character>>,
    steps: Vec<LigStep>,
    kerns: Vec<i64>,
    parameters: [i64; 7],
}

impl Model for Font {
    ghost use Rattle.ntx_tfm.specs.Font.{FontTables, IsFont};

    ghost Value = { FontTables };

    ghost view = { λ f. record {
      def = f.def;
      characters = f.characters.items;
      steps = f.steps.items;
      kerns = f.kerns.items;
      parameters = f.parameters;
    } };

    ghost invariant = { λ f. IsFont (record {
      def = f.def;
      characters = f.characters.items;
      steps = f.steps.items;
      kerns = f.kerns.items;
      parameters = f.parameters;
    }) };
}

impl Font {
    ghost use Rattle.ntx_num.specs.Dimension.{IsDimension};
    ghost use Rattle.ntx_tfm.specs.Font.{IsDefinition, IsGoodStep, IsSized, size_at, start_at, parameter_at};

    /// What identifies the font, and its sizes.
    pub fn def(&self) -> &FontDef
        ensures value { result.now ≡ self.now.def }
        ensures definition { IsDefinition result.now }
    {
        &self.def
    }

    /// The width, height and depth of the character `c` in scaled points, each within 2^30 - 1 in absolute value; `None`
    /// where the font has no such character.
    pub fn char_size(&self, c: u8) -> Option<Size>
        ensures value { result ≡ size_at self.now c }
        ensures sized { IfSome result IsSized }
    {
        self.characters[usize::from(c)].map(|character| character.size)
    }

    /// The step at which the program of the character `c` starts, from 0; `None` where the font has no such character or
    /// it has no program.
    pub fn start(&self, c: u8) -> Option<u64>
        ensures value { result ≡ start_at self.now c }
        ensures inside { IfSome result (λ place. place < length self.now.steps) }
    {
        self.characters[usize::from(c)].and_then(|character| character.start)
    }

    /// The `i`-th step of the programs, from 0; `None` where there are no more. There are fewer than 32768.
    pub fn lig_step(&self, i: u64) -> Option<LigStep>
        ensures value { result ≡ slice_get self.now.steps i }
        ensures good { IfSome result (IsGoodStep self.now i) }
        ensures few { length self.now.steps < 32768 }
    {
        self.steps.get(i as usize).copied()
    }

    /// The `k`-th kern, from 0, in scaled points and within 2^30 - 1 in absolute value; `None` where there are no more.
    pub fn kern_of(&self, k: u64) -> Option<i64>
        ensures value { result ≡ slice_get self.now.kerns k }
        ensures dimension { IfSome result IsDimension }
    {
        self.kerns.get(k as usize).copied()
    }

    /// Parameter `k`, from 1 to 7 ("TeX: The Program", section 547): the slant as a signed multiple of 2^-20, and then
    /// space, stretch, shrink, x-height, quad and extra space in scaled points, each within 2^30 - 1 in absolute value.
    /// The slant is a signed number of 32 bits. A parameter that the file does not have is 0.
    pub fn param(&self, k: u8) -> i64
        requires from_one { 1 ≤ k }
        requires to_seven { k ≤ 7 }
        ensures value { result ≡ parameter_at self.now k }
        ensures slant { k ≡ 1 → FitsSigned w32 result }
        ensures dimension { 2 ≤ k → IsDimension result }
    {
        self.parameters[usize::from(k - 1)]
    }
}

ghost use Rattle.ntx_tfm.specs.Font.{IsSize, design_of, size_or_design, tables_of, font_of};

/// The font of a file without fault.
fn font_at(
    alloc: Global,
    bytes: &[u8],
    lengths: Lengths,
    name: &[u8],
    at: u32,
) -> Result<Font, NoMemory>
    requires faultless { IsFaultless bytes.now lengths }
    requires name_given { 1 ≤ length name.now }
    requires name_short { length name.now ≤ 255 }
    requires at_least { 1 ≤ at }
    requires at_most { at < 2 ^ 26 }
    ensures { IfOk result (λ f. f ≡ tables_of bytes.now name.now at) }
{
    let def = FontDef {
        checksum: word(bytes, 6),
        size: i64::from(at),
        design: i64::from(design(bytes, lengths)),
        name: FontName::new(alloc, name)?,
    };
    Ok(Font {
        def,
        characters: characters(alloc, bytes, lengths, at)?,
        steps: steps(alloc, bytes, lengths)?,
        kerns: kerns(alloc, bytes, lengths, at)?,
        parameters: parameters(bytes, lengths, at),
    })
}

/// The design size of a file in scaled points.
#[tactic(auto, unfolding(crate::specs::Font::design_of, crate::specs::Faults::has_size))]
fn design(bytes: &[u8], lengths: Lengths) -> u32
    requires { IsSound bytes.now lengths }
    ensures value { result ≡ design_of bytes.now }
    ensures least { 65536 ≤ result }
    ensures most { result < 2 ^ 26 }
{
    word(bytes, 7) / 16
}

/// The size at which a font is read: what is asked for, or the file's design size.
fn size_or_design(bytes: &[u8], lengths: Lengths, size: Option<i64>) -> u32
    requires sound { IsSound bytes.now lengths }
    requires size { ForSome size IsSize }
    ensures value { result ≡ size_or_design size (design_of bytes.now) }
    ensures least { 1 ≤ result }
    ensures most { result < 2 ^ 26 }
{
    match size {
        None => design(bytes, lengths),
        Some(size) => size as u32,
    }
}

/// The font of a TFM file's bytes at a size in scaled points, or at its design size ("TeX: The Program", sections 539 to
/// 546 and 560 to 576). Bytes after those that the file's own length names are ignored. `name` has 1 to 255 bytes, and a
/// `size` that is given is from 1 to 2^26 - 1.
///
/// # Refusals
///
/// The first fault of the bytes, in the order of [`FontFault`], if they have one.
#[tactic(auto, unfolding(crate::specs::Font::font_of))]
pub fn read_font(
    alloc: Global,
    bytes: &[u8],
    name: &str,
    size: Option<i64>,
) -> Result<Font, Fail<FontFault>>
    requires name_given { 1 ≤ length name.now }
    requires name_short { length name.now ≤ 255 }
    requires size { ForSome size IsSize }
    ensures { Answers result (font_of bytes.now name.now size) }
{
    match checked(bytes) {
        Err(fault) => Err(Fail::Is(fault)),
        Ok(lengths) => {
            let at = size_or_design(bytes, lengths, size);
            Ok(font_at(alloc, bytes, lengths, name.as_bytes(), at)?)
        }
    }
}
