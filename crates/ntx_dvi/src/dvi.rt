//! The writer of DVI files.

ghost use Rattle.std.specs.Prelude.{◌≡◌, ◌<◌, ◌≤◌, ◌^◌, ◌%◌, ◌+◌, ◌-◌, ◌∷◌, ◌++◌, [], pos, IsOk, OnOk, OnErr, IfOk, Some, slice_set};
ghost use Rattle.ntx_num.specs.Answer.{Gives, Steps};
ghost use Rattle.ntx_dvi.specs.Operation.{Begin, PageStart, Push, Pop, Right, Down, Rule, DefineFont, ChooseFont, SetCharacter, PageEnd, End};
ghost use Rattle.ntx_dvi.specs.Bytes.{postamble, post_post, operation_bytes};
ghost use Rattle.ntx_dvi.specs.Fonts.{IsDefinable, MayBe, OthersStay, AreReady, is_current, defining, choosing, glyph_operations};
ghost use Rattle.ntx_dvi.specs.Writer.{new_writer, step, IsNew, IsBetweenPages, IsInPage, HasOpenPush, MayPush, HasNoOpenPush, StaysOnPage};
ghost use Rattle.ntx_dvi.specs.Written.{Writes};

use crate::encode;
use crate::fonts::Fonts;
use crate::full::DviFull;
use crate::movement::append_movement;
use crate::opcode::{DOWN, EOP, FILLER, FONT, FORMAT, POP, POST, POST_POST, PUSH, RIGHT, SET_CHAR};
use crate::output::Output;
use crate::part::Part;
use byteorder::{BigEndian, ByteOrder};
use ntx_num::{Fail, NoMemory};
use ntx_tfm::FontDef;
use std::alloc::Global;
use std::marker::Model;

/// A DVI file in the making. Its operations come in the order of the file: [`Dvi::begin`], then pages, then [`Dvi::end`]; a page is
/// [`Dvi::page_start`], any of [`Dvi::push`], [`Dvi::pop`], [`Dvi::right`], [`Dvi::down`], [`Dvi::rule`] and [`Dvi::glyph`], and
/// [`Dvi::page_end`].
///
/// An operation out of order is not refused: that it is in order is a condition of its call. *Between pages* is after the preamble or a page
/// that has ended, and before [`Dvi::end`].
///
/// # Refusals
///
/// [`DviFull`], of each operation: its bytes would end past the limit on the file's length. Then, and if memory runs out, it has changed
/// nothing. [`Dvi::glyph`], which may write three operations, keeps those that it wrote before.
#[derive(Drop)]
pub struct Dvi {
    alloc: Global,
    output: Output,
    part: Part,
    last_page: i32,
    pages: u64,
    open_pushes: u16,
    deepest: u16,
    tallest: i32,
    widest: i32,
    fonts: Fonts,
    font: Option<u8>,
}

impl Model for Dvi {
    ghost use Rattle.std.specs.Prelude.{◌≡◌, ◌≤◌, ◌<◌, ◌*◌, ◌^◌, length};
    ghost use Rattle.ntx_dvi.specs.Writer.{Writer};
    ghost use Rattle.ntx_dvi.specs.PartView.{part_seen};

    ghost Value = { Writer };

    ghost view = { λ d. record {
      limit = d.output.limit;
      progress = record {
        part = part_seen d.part;
        place = d.output.place;
        last_page = d.last_page;
        pages = d.pages;
        open_pushes = d.open_pushes;
        deepest = d.deepest;
        tallest = d.tallest;
        widest = d.widest;
        fonts = d.fonts;
        font = d.font;
      };
      waiting = d.output.waiting;
    } };

    ghost invariant = { λ d. (d.output.place ≤ d.output.limit) × (d.output.limit < 2 ^ 31) × (2 * d.pages ≤ d.output.place) × (length d.fonts ≡ 64) };
}

#[tactic(auto, using(crate::proofs::Writing::writes_step), unfolding(crate::specs::Bytes::operation_bytes, crate::specs::Writer::step))]
impl Dvi {
    /// A file of at most `limit` bytes, with nothing in it. `limit` is below 2^31.
    pub fn new(alloc: Global, limit: u64) -> Result<Dvi, NoMemory>
        requires { limit < 2 ^ 31 }
        ensures { Gives result (new_writer limit) }
    {
        Ok(Dvi {
            alloc,
            output: Output::new(alloc, limit),
            part: Part::BeforeBegin,
            last_page: -1,
            pages: 0,
            open_pushes: 0,
            deepest: 0,
            tallest: 0,
            widest: 0,
            fonts: Fonts::new(alloc)?,
            font: None,
        })
    }

    /// Writes the preamble. It comes before any other operation.
    pub fn begin(&mut self) -> Result<(), Fail<DviFull>>
        requires { IsNew self.old }
        ensures steps { Steps result self.old self.new (step Begin self.old) }
        ensures writes { Writes result self.old self.new (Begin ∷ []) }
        ensures between { OnOk result (IsBetweenPages self.new) }
        ensures fonts { self.new.progress.fonts ≡ self.old.progress.fonts }
    {
        self.output.append(&encode::preamble())?;
        self.part = Part::BetweenPages;
        Ok(())
    }

    /// Begins the page of this number. It comes between pages.
    pub fn page_start(&mut self, number: i32) -> Result<(), Fail<DviFull>>
        requires { IsBetweenPages self.old }
        ensures steps { Steps result self.old self.new (step (PageStart number) self.old) }
        ensures writes { Writes result self.old self.new (PageStart number ∷ []) }
        ensures in_page { OnOk result (IsInPage self.new) }
        ensures no_push { OnOk result (HasNoOpenPush self.new) }
        ensures fonts { self.new.progress.fonts ≡ self.old.progress.fonts }
    {
        let place = self.output.place() as i32;
        self.output
            .append(&encode::page_start(number, self.last_page))?;
        self.part = Part::InPage;
        self.last_page = place;
        self.pages += 1;
        self.open_pushes = 0;
        self.font = None;
        Ok(())
    }

    /// Puts the place on the page on the stack. It comes in a page with fewer than 65535 open pushes.
    pub fn push(&mut self) -> Result<(), Fail<DviFull>>
        requires in_page { IsInPage self.old }
        requires may_push { MayPush self.old }
        ensures steps { Steps result self.old self.new (step Push self.old) }
        ensures writes { Writes result self.old self.new (Push ∷ []) }
        ensures in_page { OnOk result (IsInPage self.new) }
        ensures pushes { OnOk result (self.new.progress.open_pushes ≡ self.old.progress.open_pushes + 1) }
        ensures fonts { self.new.progress.fonts ≡ self.old.progress.fonts }
    {
        self.output.append(&[PUSH])?;
        self.open_pushes += 1;
        self.deepest = self.deepest.max(self.open_pushes);
        Ok(())
    }

    /// Takes the place on the page that was put on the stack last. It comes in a page with an open push.
    pub fn pop(&mut self) -> Result<(), Fail<DviFull>>
        requires in_page { IsInPage self.old }
        requires has_push { HasOpenPush self.old }
        ensures steps { Steps result self.old self.new (step Pop self.old) }
        ensures writes { Writes result self.old self.new (Pop ∷ []) }
        ensures in_page { OnOk result (IsInPage self.new) }
        ensures pushes { OnOk result (self.new.progress.open_pushes ≡ self.old.progress.open_pushes - 1) }
        ensures fonts { self.new.progress.fonts ≡ self.old.progress.fonts }
    {
        self.output.append(&[POP])?;
        self.open_pushes -= 1;
        Ok(())
    }

    /// Moves the place on the page to the right by `x` scaled points. A movement by 0 writes nothing and is never refused. It comes in a
    /// page.
    pub fn right(&mut self, x: i32) -> Result<(), Fail<DviFull>>
        requires { IsInPage self.old }
        ensures steps { Steps result self.old self.new (step (Right x) self.old) }
        ensures writes { Writes result self.old self.new (Right x ∷ []) }
        ensures in_page { OnOk result (IsInPage self.new) }
        ensures pushes { OnOk result (self.new.progress.open_pushes ≡ self.old.progress.open_pushes) }
        ensures nothing { x ≡ pos 0 → IsOk result }
        ensures fonts { self.new.progress.fonts ≡ self.old.progress.fonts }
    {
        append_movement(&mut self.output, RIGHT, x)
    }

    /// Moves the place on the page down by `y` scaled points. A movement by 0 writes nothing and is never refused. It comes in a page.
    pub fn down(&mut self, y: i32) -> Result<(), Fail<DviFull>>
        requires { IsInPage self.old }
        ensures steps { Steps result self.old self.new (step (Down y) self.old) }
        ensures writes { Writes result self.old self.new (Down y ∷ []) }
        ensures in_page { OnOk result (IsInPage self.new) }
        ensures pushes { OnOk result (self.new.progress.open_pushes ≡ self.old.progress.open_pushes) }
        ensures nothing { y ≡ pos 0 → IsOk result }
        ensures fonts { self.new.progress.fonts ≡ self.old.progress.fonts }
    {
        append_movement(&mut self.output, DOWN, y)
    }

    /// A rule of this height and width in scaled points, with its left lower corner at the place on the page, which then moves right
    /// by the width. It comes in a page.
    pub fn rule(&mut self, height: i32, width: i32) -> Result<(), Fail<DviFull>>
        requires { IsInPage self.old }
        ensures steps { Steps result self.old self.new (step (Rule height width) self.old) }
        ensures writes { Writes result self.old self.new (Rule height width ∷ []) }
        ensures in_page { OnOk result (IsInPage self.new) }
        ensures pushes { OnOk result (self.new.progress.open_pushes ≡ self.old.progress.open_pushes) }
        ensures fonts { self.new.progress.fonts ≡ self.old.progress.fonts }
    {
        self.output.append(&encode::rule(height, width))
    }

    /// Sets the character of this code in this font, with its reference point at the place on the page, which then moves right by the
    /// character's width. `font` is at most 63, and represents one definition throughout the file. It comes in a page.
    ///
    /// At the font's first use in the file its definition comes before the character, and then the font is chosen if it is not the page's
    /// current font. Each is an operation by itself: one that finds no room leaves those before it, and the next call goes on from them.
    pub fn glyph(&mut self, font: u8, def: &FontDef, code: u8) -> Result<(), Fail<DviFull>>
        requires in_page { IsInPage self.old }
        requires number { font ≤ 63 }
        requires definable { IsDefinable def.now }
        requires same { MayBe self.old.progress.fonts font def.now }
        ensures writes { Writes result self.old self.new (glyph_operations self.old.progress font def.now code) }
        ensures ready { AreReady self.old.progress (glyph_operations self.old.progress font def.now code) }
        ensures in_page { IsInPage self.new }
        ensures pushes { self.new.progress.open_pushes ≡ self.old.progress.open_pushes }
        ensures fonts { OnOk result (self.new.progress.fonts ≡ slice_set self.old.progress.fonts font (Some def.now)) }
        ensures again { MayBe self.new.progress.fonts font def.now }
        ensures others { OthersStay self.old.progress.fonts self.new.progress.fonts font }
        ensures font { OnOk result (self.new.progress.font ≡ Some font) }
    {
        // The check knows how many fonts there are where a field is read.
        let _ = &self.fonts;
        self.ensure_defined(font, def)?;
        self.ensure_current(font)?;
        self.set_character(code)
    }

    /// Ends the page. `total` is its height plus depth and `width` its width, both in scaled points. It comes in a page without an open
    /// push.
    pub fn page_end(&mut self, total: i32, width: i32) -> Result<(), Fail<DviFull>>
        requires in_page { IsInPage self.old }
        requires no_push { HasNoOpenPush self.old }
        ensures steps { Steps result self.old self.new (step (PageEnd total width) self.old) }
        ensures writes { Writes result self.old self.new (PageEnd total width ∷ []) }
        ensures between { OnOk result (IsBetweenPages self.new) }
        ensures fonts { self.new.progress.fonts ≡ self.old.progress.fonts }
    {
        self.output.append(&[EOP])?;
        self.part = Part::BetweenPages;
        self.tallest = self.tallest.max(total);
        self.widest = self.widest.max(width);
        Ok(())
    }

    /// Writes the postamble and what follows it, to a length that is a multiple of four bytes. It comes between pages, and no operation
    /// after it.
    pub fn end(&mut self) -> Result<(), Fail<DviFull>>
        requires { IsBetweenPages self.old }
        ensures steps { Steps result self.old self.new (step End self.old) }
        ensures writes { Writes result self.old self.new (End ∷ []) }
        ensures multiple_of_four { OnOk result (self.new.progress.place % 4 ≡ 0) }
    {
        let bytes = self.ending()?;
        self.output.append(bytes.as_slice())?;
        self.part = Part::AfterEnd;
        Ok(())
    }

    /// The bytes that were not yet taken. It takes no memory.
    pub fn take(&mut self) -> Vec<u8>
        ensures taken { result.items ≡ self.old.waiting }
        ensures rest { self.new ≡ record self.old { waiting = [] } }
    {
        self.output.take()
    }

    /// How many pages have begun, which is below 2^30.
    pub fn pages(&self) -> u64
        ensures pages { result ≡ self.now.progress.pages }
        ensures few { result < 2 ^ 30 }
    {
        self.pages
    }

    /// Writes the definition of a font.
    fn define(&mut self, font: u8, def: &FontDef) -> Result<(), Fail<DviFull>>
        requires number { font ≤ 63 }
        requires definable { IsDefinable def.now }
        ensures writes { Writes result self.old self.new (DefineFont font def.now ∷ []) }
        ensures page { StaysOnPage self.old self.new }
        ensures fonts { OnOk result (self.new.progress.fonts ≡ slice_set self.old.progress.fonts font (Some def.now)) }
        ensures undefined { OnErr result (self.new.progress.fonts ≡ self.old.progress.fonts) }
        ensures font { OnOk result (self.new.progress.font ≡ self.old.progress.font) }
    {
        let kept = def.try_clone(self.alloc)?;
        let mut bytes = Vec::new(self.alloc);
        encode::push_definition(&mut bytes, font, def)?;
        self.output.append(bytes.as_slice())?;
        self.fonts.define(font, kept);
        Ok(())
    }

    /// Writes the definition of a font, unless it is defined.
    fn ensure_defined(&mut self, font: u8, def: &FontDef) -> Result<(), Fail<DviFull>>
        requires number { font ≤ 63 }
        requires definable { IsDefinable def.now }
        requires same { MayBe self.old.progress.fonts font def.now }
        ensures writes { Writes result self.old self.new (defining self.old.progress.fonts font def.now) }
        ensures page { StaysOnPage self.old self.new }
        ensures fonts { OnOk result (self.new.progress.fonts ≡ slice_set self.old.progress.fonts font (Some def.now)) }
        ensures undefined { OnErr result (self.new.progress.fonts ≡ self.old.progress.fonts) }
        ensures font { OnOk result (self.new.progress.font ≡ self.old.progress.font) }
    {
        if self.fonts.is_defined(font) {
            return Ok(());
        }
        self.define(font, def)
    }

    /// Chooses a font that is defined.
    fn choose(&mut self, font: u8) -> Result<(), Fail<DviFull>>
        requires number { font ≤ 63 }
        ensures writes { Writes result self.old self.new (ChooseFont font ∷ []) }
        ensures page { StaysOnPage self.old self.new }
        ensures fonts { self.new.progress.fonts ≡ self.old.progress.fonts }
        ensures font { OnOk result (self.new.progress.font ≡ Some font) }
    {
        self.output.append(&[FONT + font])?;
        self.font = Some(font);
        Ok(())
    }

    /// Chooses a font that is defined, unless it is the current one.
    fn ensure_current(&mut self, font: u8) -> Result<(), Fail<DviFull>>
        requires number { font ≤ 63 }
        ensures writes { Writes result self.old self.new (choosing self.old.progress.font font) }
        ensures page { StaysOnPage self.old self.new }
        ensures fonts { self.new.progress.fonts ≡ self.old.progress.fonts }
        ensures font { OnOk result (self.new.progress.font ≡ Some font) }
    {
        if self.is_current(font) {
            return Ok(());
        }
        self.choose(font)
    }

    /// Whether the font of this number is the current one.
    fn is_current(&self, font: u8) -> bool
        ensures { result ≡ is_current self.now.progress.font font }
    {
        self.font == Some(font)
    }

    /// Sets a character of the current font.
    fn set_character(&mut self, code: u8) -> Result<(), Fail<DviFull>>
        ensures writes { Writes result self.old self.new (SetCharacter code ∷ []) }
        ensures page { StaysOnPage self.old self.new }
        ensures fonts { self.new.progress.fonts ≡ self.old.progress.fonts }
        ensures font { OnOk result (self.new.progress.font ≡ self.old.progress.font) }
    {
        if code < 0x80 {
            self.output.append(&[code])
        } else {
            self.output.append(&[SET_CHAR, code])
        }
    }

    /// The postamble.
    fn postamble(&self) -> [u8; 29]
        ensures { result ≡ postamble self.now.progress }
    {
        let mut bytes = [0; 29];
        bytes[0] = POST;
        BigEndian::write_i32(&mut bytes[1..], self.last_page);
        bytes[5..17].copy_from_slice(&encode::units());
        BigEndian::write_i32(&mut bytes[17..], self.tallest);
        BigEndian::write_i32(&mut bytes[21..], self.widest);
        BigEndian::write_u16(&mut bytes[25..], self.deepest);
        BigEndian::write_u16(&mut bytes[27..], (self.pages % 0x1_0000) as u16);
        bytes
    }

    /// What follows the postamble, up to the fillers.
    fn post_post(&self) -> [u8; 6]
        ensures { result ≡ post_post self.now.progress }
    {
        let mut bytes = [0; 6];
        bytes[0] = POST_POST;
        BigEndian::write_u32(&mut bytes[1..], self.output.place() as u32);
        bytes[5] = FORMAT;
        bytes
    }

    /// The postamble with the definitions of the fonts, and what follows it.
    fn ending(&self) -> Result<Vec<u8>, NoMemory>
        ensures { IfOk result (λ bytes. bytes.items ≡ operation_bytes self.now.progress End) }
    {
        let mut bytes = Vec::new(self.alloc);
        bytes.extend_from_slice(&self.postamble())?;
        self.fonts.push_definitions(&mut bytes)?;
        bytes.extend_from_slice(&self.post_post())?;
        let length = self.output.place() + bytes.len() as u64;
        bytes.extend_from_slice(&[FILLER; 7][..encode::filler_count(length)])?;
        Ok(bytes)
    }
}
