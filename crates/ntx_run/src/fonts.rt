//! Reading the fonts.

ghost use Rattle.std.specs.Prelude.{◌≡◌, ◌+◌, ◌≤◌, ◌^◌, ◌-◌, [], ◌∷◌, ◌++◌, IsTrue, OnOk, length, map};
ghost use Rattle.std.specs.Option.{ForSome};
ghost use Rattle.ntx_num.specs.Answer.{result_map};
ghost use Rattle.ntx_tfm.specs.Font.{IsSize};
ghost use Rattle.ntx_run.specs.Run.{is_feed_name};
ghost use Rattle.ntx_run.specs.inner.Words.{CanBeRead};
ghost use Rattle.ntx_run.specs.inner.Parts.{ReadsFont, ReadsFonts, AddsFonts};

use crate::outcome::Which;
use crate::stop::StopReason;
use ntx_io::{Feed, ReadWhy, read_feed};
use ntx_num::{Fail, NoMemory};
use ntx_tfm::{Font, FontFault, read_font};
use std::alloc::Global;

/// The most bytes of a font.
const MAX_FONT: u64 = 1 << 18;

/// Reads the `k`-th font, counted from 1, at a size in scaled points or at its design size.
fn read_one(
    alloc: Global,
    k: u64,
    size: Option<i64>,
    feed: &mut Box<dyn Feed>,
) -> Result<Font, StopReason>
    requires size { ForSome size IsSize }
    requires name { IsTrue (is_feed_name (named feed.old).name) }
    ensures { ReadsFont k size (named feed.old) (named feed.new) result }
{
    let bytes = match read_feed(alloc, feed.as_mut(), MAX_FONT) {
        Ok(bytes) => bytes,
        Err(Fail::NoMemory) => return Err(StopReason::Memory),
        Err(Fail::Is(ReadWhy::ReadFault)) => return Err(StopReason::Read(Which::Font(k))),
        Err(Fail::Is(ReadWhy::TooLarge)) => return Err(StopReason::Font(k, FontFault::TooLarge)),
    };
    match read_font(alloc, bytes.as_slice(), feed.name(), size) {
        Ok(font) => Ok(font),
        Err(Fail::NoMemory) => Err(StopReason::Memory),
        Err(Fail::Is(fault)) => Err(StopReason::Font(k, fault)),
    }
}

/// Adds a font after the others.
fn add_font(fonts: &mut Vec<Font>, font: Font) -> Result<(), NoMemory>
    ensures { OnOk result (fonts.new.items ≡ fonts.old.items ++ font ∷ []) }
{
    Ok(fonts.push(font)?)
}

/// Reads the fonts from the `k`-th on, and adds them to those before. There are at most 64, so this may call itself for each.
fn read_from(
    alloc: Global,
    k: u64,
    sizes: &[Option<i64>],
    feeds: &mut [Box<dyn Feed>],
    fonts: &mut Vec<Font>,
) -> Result<(), StopReason>
    requires can_be_read { CanBeRead sizes.now (map (λ font. font.name) (map (λ feed. named feed) feeds.old)) }
    requires count { k + length feeds.old ≤ 2 ^ 64 - 1 }
    ensures { AddsFonts k sizes.now (map (λ feed. named feed) feeds.old) (map (λ feed. named feed) feeds.new) fonts.old.items fonts.new.items result }
{
    if feeds.is_empty() {
        return Ok(());
    }
    let font = read_one(alloc, k, sizes[0], &mut feeds[0])?;
    add_font(fonts, font)?;
    read_from(alloc, k + 1, &sizes[1..], &mut feeds[1..], fonts)
}

/// Reads the fonts in their order, up to the first that is refused.
pub fn read_fonts(
    alloc: Global,
    sizes: &[Option<i64>],
    feeds: &mut [Box<dyn Feed>],
) -> Result<Vec<Font>, StopReason>
    requires { CanBeRead sizes.now (map (λ font. font.name) (map (λ feed. named feed) feeds.old)) }
    ensures { ReadsFonts 1 sizes.now (map (λ feed. named feed) feeds.old) (map (λ feed. named feed) feeds.new) (result_map (λ fonts. fonts.items) result) }
{
    let mut fonts = Vec::new(alloc);
    read_from(alloc, 1, sizes, feeds, &mut fonts)?;
    Ok(fonts)
}
