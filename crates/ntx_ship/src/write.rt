//! The operations of a page.

ghost use Rattle.std.specs.Prelude.{◌≡◌, ◌+◌, ◌-ℤ◌, pos, ◌≤◌, ◌<◌, ◌-◌, slice_get, OnOk};
ghost use Rattle.ntx_num.specs.Dimension.{IsDimension};
ghost use Rattle.ntx_dvi.specs.Fonts.{AreKnown};
ghost use Rattle.ntx_dvi.specs.Writer.{IsInPage, IsBetweenPages, HasNoOpenPush};
ghost use Rattle.ntx_dvi.specs.Written.{Writes};
ghost use Rattle.ntx_ship.specs.Drawable.{IsStanding, HasPlace, IsNested, AreDrawable, pushed_after};
ghost use Rattle.ntx_ship.specs.Operations.{IsOnPage, definition_at, movement, glyph_of, mark_glyph, mark_rule, piece_operations, pieces_operations, page_operations};

use crate::page::PlacedPage;
use crate::pen::PenStack;
use crate::piece::{GlyphMark, Piece, RuleMark};
use crate::place::Place;
use ntx_dvi::{Dvi, DviFull};
use ntx_num::Fail;
use ntx_tfm::Font;
use std::alloc::Global;

/// How far it is from here to there.
fn distance(from: i64, to: i32) -> i32
    requires from { IsDimension from }
    requires to { IsDimension to }
    ensures { result ≡ to -ℤ from }
{
    (i64::from(to) - from) as i32
}

/// Moves the place on the page from here to there.
fn move_to(dvi: &mut Dvi, here: Place, h: i32, v: i32) -> Result<(), Fail<DviFull>>
    requires in_page { IsInPage dvi.old }
    requires here { IsOnPage here }
    requires h { IsDimension h }
    requires v { IsDimension v }
    ensures writes { Writes result dvi.old dvi.new (movement here h v) }
    ensures in_page { OnOk result (IsInPage dvi.new) }
    ensures pushes { OnOk result (dvi.new.progress.open_pushes ≡ dvi.old.progress.open_pushes) }
    ensures fonts { dvi.new.progress.fonts ≡ dvi.old.progress.fonts }
{
    let right = distance(here.h, h);
    let down = distance(here.v, v);
    dvi.right(right)?;
    dvi.down(down)
}

/// Sets a character whose reference point is the place on the page.
fn set_glyph(dvi: &mut Dvi, fonts: &[Font], m: GlyphMark) -> Result<(), Fail<DviFull>>
    requires in_page { IsInPage dvi.old }
    requires number { m.font ≤ 63 }
    requires known { AreKnown dvi.old.progress.fonts (definition_at fonts.now) }
    ensures writes { Writes result dvi.old dvi.new (glyph_of dvi.old.progress m (slice_get fonts.now m.font)) }
    ensures in_page { IsInPage dvi.new }
    ensures pushes { dvi.new.progress.open_pushes ≡ dvi.old.progress.open_pushes }
    ensures known { AreKnown dvi.new.progress.fonts (definition_at fonts.now) }
{
    match fonts.get(usize::from(m.font)) {
        Some(font) => dvi.glyph(m.font, font.def(), m.code),
        None => Ok(()),
    }
}

/// Moves to a character and sets it.
fn draw_glyph(dvi: &mut Dvi, fonts: &[Font], here: Place, m: GlyphMark) -> Result<(), Fail<DviFull>>
    requires in_page { IsInPage dvi.old }
    requires here { IsOnPage here }
    requires place { IsStanding m.h m.v m.width }
    requires number { m.font ≤ 63 }
    requires known { AreKnown dvi.old.progress.fonts (definition_at fonts.now) }
    ensures writes { Writes result dvi.old dvi.new (mark_glyph fonts.now dvi.old.progress here m) }
    ensures in_page { OnOk result (IsInPage dvi.new) }
    ensures pushes { OnOk result (dvi.new.progress.open_pushes ≡ dvi.old.progress.open_pushes) }
    ensures known { AreKnown dvi.new.progress.fonts (definition_at fonts.now) }
{
    move_to(dvi, here, m.h, m.v)?;
    set_glyph(dvi, fonts, m)
}

/// Moves to a rule and draws it.
fn draw_rule(dvi: &mut Dvi, here: Place, m: RuleMark) -> Result<(), Fail<DviFull>>
    requires in_page { IsInPage dvi.old }
    requires here { IsOnPage here }
    requires place { IsStanding m.h m.v m.width }
    ensures writes { Writes result dvi.old dvi.new (mark_rule here m) }
    ensures in_page { OnOk result (IsInPage dvi.new) }
    ensures pushes { OnOk result (dvi.new.progress.open_pushes ≡ dvi.old.progress.open_pushes) }
    ensures fonts { dvi.new.progress.fonts ≡ dvi.old.progress.fonts }
{
    move_to(dvi, here, m.h, m.v)?;
    dvi.rule(m.height, m.width)
}

/// Writes a piece.
fn draw_piece(
    dvi: &mut Dvi,
    fonts: &[Font],
    here: Place,
    piece: &Piece,
) -> Result<(), Fail<DviFull>>
    requires in_page { IsInPage dvi.old }
    requires here { IsOnPage here }
    requires place { HasPlace piece.now }
    requires nested { IsNested dvi.old.progress.open_pushes piece.now }
    requires known { AreKnown dvi.old.progress.fonts (definition_at fonts.now) }
    ensures writes { Writes result dvi.old dvi.new (piece_operations fonts.now dvi.old.progress here piece.now) }
    ensures in_page { OnOk result (IsInPage dvi.new) }
    ensures pushes { OnOk result (dvi.new.progress.open_pushes ≡ pushed_after dvi.old.progress.open_pushes piece.now) }
    ensures known { AreKnown dvi.new.progress.fonts (definition_at fonts.now) }
{
    match piece {
        Piece::Push => dvi.push(),
        Piece::Pop => dvi.pop(),
        Piece::Glyph(m) => draw_glyph(dvi, fonts, here, *m),
        Piece::Rule(m) => draw_rule(dvi, here, *m),
    }
}

/// Writes pieces, one after another.
fn draw_pieces(
    dvi: &mut Dvi,
    fonts: &[Font],
    pen: &mut PenStack,
    pieces: &[Piece],
) -> Result<(), Fail<DviFull>>
    requires in_page { IsInPage dvi.old }
    requires drawable { AreDrawable dvi.old.progress.open_pushes pieces.now }
    requires known { AreKnown dvi.old.progress.fonts (definition_at fonts.now) }
    ensures writes { Writes result dvi.old dvi.new (pieces_operations fonts.now dvi.old.progress pen.old pieces.now) }
    ensures in_page { OnOk result (IsInPage dvi.new) }
    ensures no_push { OnOk result (HasNoOpenPush dvi.new) }
    ensures known { AreKnown dvi.new.progress.fonts (definition_at fonts.now) }
{
    for piece in pieces {
        draw_piece(dvi, fonts, pen.here(), piece)?;
        pen.pass(piece)?;
    }
    Ok(())
}

/// Writes a page under this number.
pub fn write_page(
    alloc: Global,
    dvi: &mut Dvi,
    fonts: &[Font],
    number: i32,
    page: &PlacedPage,
) -> Result<(), Fail<DviFull>>
    requires between { IsBetweenPages dvi.old }
    requires number { number ≡ pos (dvi.old.progress.pages + 1) }
    requires drawable { AreDrawable 0 page.now.pieces }
    requires known { AreKnown dvi.old.progress.fonts (definition_at fonts.now) }
    ensures writes { Writes result dvi.old dvi.new (page_operations fonts.now dvi.old.progress page.now) }
    ensures between { OnOk result (IsBetweenPages dvi.new) }
    ensures known { AreKnown dvi.new.progress.fonts (definition_at fonts.now) }
{
    dvi.page_start(number)?;
    let mut pen = PenStack::new(alloc);
    draw_pieces(dvi, fonts, &mut pen, page.pieces())?;
    dvi.page_end(page.total(), page.width())
}
