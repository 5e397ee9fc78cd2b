//! Files whose bytes are known from outside, by DVItype's description of the format.

ghost use Rattle.std.specs.Prelude.{◌≡◌, ◌≤◌, ◌<◌, ◌^◌, ◌≤ℤ◌, pos, All, length, replicate, slice_get, None, IfOk};
ghost use Rattle.ntx_dvi.specs.Fonts.{IsDefinable, AreKnown};
ghost use Rattle.ntx_dvi.specs.Writer.{IsInPage, HasNoOpenPush};

use super::*;
use ntx_num::Fail::Is;
use ntx_num::NoMemory;
use ntx_tfm::{FontDef, FontName};
use std::alloc::Global;
use std::test::Fail;

const PREAMBLE: [u8; 18] = [
    0xf7, 2, 0x01, 0x83, 0x92, 0xc0, 0x1c, 0x3b, 0, 0, 0, 0, 0x03, 0xe8, 3, 0x6e, 0x74, 0x78,
];

#[test]
fn a_file_without_pages_has_sixty_bytes(rt: HostRuntime) -> Result<(), Fail> {
    let mut dvi = Dvi::new(rt.alloc(), 60)?;
    dvi.begin()?;
    assert_eq!(rt; dvi.take().as_slice(), PREAMBLE.as_slice());
    dvi.end()?;
    let end = [
        0xf8, 0xff, 0xff, 0xff, 0xff, 0x01, 0x83, 0x92, 0xc0, 0x1c, 0x3b, 0, 0, 0, 0, 0x03, 0xe8,
        0, 0, 0, 0, 0, 0, 0, 0, 0, 0, 0, 0, 0xf9, 0, 0, 0, 0x12, 2, 0xdf, 0xdf, 0xdf, 0xdf, 0xdf,
        0xdf, 0xdf,
    ];
    assert_eq!(rt; dvi.take().as_slice(), end.as_slice());
    assert_eq!(rt; dvi.pages(), 0);
    Ok(())
}

#[test]
fn a_page_of_one_rule_makes_a_file_of_120_bytes(rt: HostRuntime) -> Result<(), Fail> {
    let mut dvi = Dvi::new(rt.alloc(), 120)?;
    dvi.begin()?;
    assert_eq!(rt; dvi.take().as_slice(), PREAMBLE.as_slice());
    dvi.page_start(1)?;
    dvi.push()?;
    dvi.down(655360)?;
    dvi.rule(65536, 65536)?;
    dvi.pop()?;
    dvi.page_end(655360, 65536)?;
    assert_eq!(rt; dvi.pages(), 1);
    dvi.end()?;
    let rest = [
        0x8b, 0, 0, 0, 1, 0, 0, 0, 0, 0, 0, 0, 0, 0, 0, 0, 0, 0, 0, 0, 0, 0, 0, 0, 0, 0, 0, 0, 0,
        0, 0, 0, 0, 0, 0, 0, 0, 0, 0, 0, 0, 0xff, 0xff, 0xff, 0xff, 0x8d, 0x9f, 0x0a, 0, 0, 0x84,
        0, 0x01, 0, 0, 0, 0x01, 0, 0, 0x8e, 0x8c, 0xf8, 0, 0, 0, 0x12, 0x01, 0x83, 0x92, 0xc0,
        0x1c, 0x3b, 0, 0, 0, 0, 0x03, 0xe8, 0, 0x0a, 0, 0, 0, 0x01, 0, 0, 0, 1, 0, 1, 0xf9, 0, 0,
        0, 0x4f, 2, 0xdf, 0xdf, 0xdf, 0xdf, 0xdf, 0xdf,
    ];
    assert_eq!(rt; dvi.take().as_slice(), rest.as_slice());
    Ok(())
}

#[test]
fn an_empty_page_makes_a_file_of_104_bytes(rt: HostRuntime) -> Result<(), Fail> {
    let mut dvi = Dvi::new(rt.alloc(), 104)?;
    dvi.begin()?;
    dvi.page_start(1)?;
    assert_eq!(rt; dvi.take().len(), 63);
    dvi.page_end(655360, 0)?;
    dvi.end()?;
    let rest = [
        0x8c, 0xf8, 0, 0, 0, 0x12, 0x01, 0x83, 0x92, 0xc0, 0x1c, 0x3b, 0, 0, 0, 0, 0x03, 0xe8, 0,
        0x0a, 0, 0, 0, 0, 0, 0, 0, 0, 0, 1, 0xf9, 0, 0, 0, 0x40, 2, 0xdf, 0xdf, 0xdf, 0xdf, 0xdf,
    ];
    assert_eq!(rt; dvi.take().as_slice(), rest.as_slice());
    Ok(())
}

#[test]
fn the_second_page_points_at_the_first_and_the_postamble_at_the_second(
    rt: HostRuntime,
) -> Result<(), Fail> {
    let mut dvi = Dvi::new(rt.alloc(), 156)?;
    dvi.begin()?;
    dvi.page_start(1)?;
    dvi.push()?;
    dvi.push()?;
    dvi.pop()?;
    dvi.pop()?;
    dvi.page_end(70000, 3)?;
    assert_eq!(rt; dvi.take().len(), 68);
    dvi.page_start(-2)?;
    dvi.page_end(7, 80000)?;
    dvi.end()?;
    assert_eq!(rt; dvi.pages(), 2);
    let rest = [
        0x8b, 0xff, 0xff, 0xff, 0xfe, 0, 0, 0, 0, 0, 0, 0, 0, 0, 0, 0, 0, 0, 0, 0, 0, 0, 0, 0, 0,
        0, 0, 0, 0, 0, 0, 0, 0, 0, 0, 0, 0, 0, 0, 0, 0, 0, 0, 0, 0x12, 0x8c, 0xf8, 0, 0, 0, 0x44,
        0x01, 0x83, 0x92, 0xc0, 0x1c, 0x3b, 0, 0, 0, 0, 0x03, 0xe8, 0, 0x01, 0x11, 0x70, 0, 0x01,
        0x38, 0x80, 0, 2, 0, 2, 0xf9, 0, 0, 0, 0x72, 2, 0xdf, 0xdf, 0xdf, 0xdf, 0xdf, 0xdf, 0xdf,
    ];
    assert_eq!(rt; dvi.take().as_slice(), rest.as_slice());
    Ok(())
}

#[test]
fn an_operation_is_written_up_to_the_limit_and_refused_past_it(
    rt: HostRuntime,
) -> Result<(), Fail> {
    let mut short = Dvi::new(rt.alloc(), 17)?;
    assert_eq!(rt; short.begin(), Err(Is(DviFull)));
    assert_eq!(rt; short.take().len(), 0);
    let mut long = Dvi::new(rt.alloc(), 18)?;
    long.begin()?;
    assert_eq!(rt; long.page_start(1), Err(Is(DviFull)));
    assert_eq!(rt; long.take().as_slice(), PREAMBLE.as_slice());
    Ok(())
}

/// The bytes of a movement to the right and of the same movement downwards.
fn movements(alloc: Global, distance: i32) -> Result<(Vec<u8>, Vec<u8>), ntx_num::Fail<DviFull>> {
    let mut dvi = Dvi::new(alloc, 100)?;
    dvi.begin()?;
    dvi.page_start(1)?;
    let _start = dvi.take();
    dvi.right(distance)?;
    let right = dvi.take();
    dvi.down(distance)?;
    Ok((right, dvi.take()))
}

#[test]
fn a_movement_has_the_fewest_bytes_that_its_distance_needs(rt: HostRuntime) -> Result<(), Fail> {
    let table: [(i32, u8, &[u8]); 12] = [
        (1, 1, &[1]),
        (127, 1, &[0x7f]),
        (128, 2, &[0, 0x80]),
        (-128, 1, &[0x80]),
        (-129, 2, &[0xff, 0x7f]),
        (32767, 2, &[0x7f, 0xff]),
        (32768, 3, &[0, 0x80, 0]),
        (-32769, 3, &[0xff, 0x7f, 0xff]),
        (8388607, 3, &[0x7f, 0xff, 0xff]),
        (8388608, 4, &[0, 0x80, 0, 0]),
        (-8388609, 4, &[0xff, 0x7f, 0xff, 0xff]),
        (i32::MIN, 4, &[0x80, 0, 0, 0]),
    ];
    for (distance, count, bytes) in table {
        let (right, down) = movements(rt.alloc(), distance)?;
        assert_eq!(rt;
            right.first().copied(),
            Some(142 + count),
            "right {distance}"
        );
        assert_eq!(rt; down.first().copied(), Some(156 + count), "down {distance}");
        assert_eq!(rt; right.as_slice().get(1..), Some(bytes), "right {distance}");
        assert_eq!(rt; down.as_slice().get(1..), Some(bytes), "down {distance}");
    }
    let (right, down) = movements(rt.alloc(), 0)?;
    assert_eq!(rt; right.len() + down.len(), 0);
    Ok(())
}

/// The definition of a font.
fn font(
    alloc: Global,
    checksum: u32,
    size: i64,
    design: i64,
    name: &[u8],
) -> Result<FontDef, NoMemory>
    requires size { (pos 1 ≤ℤ size) × (size ≤ℤ pos 67108863) }
    requires design { (pos 1 ≤ℤ design) × (design ≤ℤ pos 67108863) }
    requires name { (1 ≤ length name.now) × (length name.now ≤ 255) }
    ensures { IfOk result IsDefinable }
{
    let name = FontName::new(alloc, name)?;
    Ok(FontDef {
        checksum,
        size,
        design,
        name,
    })
}

/// Two fonts.
fn two_fonts(alloc: Global) -> Result<[FontDef; 2], NoMemory>
    ensures { IfOk result (All IsDefinable) }
{
    let roman = font(alloc, 0x0102_0304, 0x0008_0000, 0x000a_0000, b"cmr10")?;
    let tiny = font(alloc, 0xfffe_fdfc, 1, 0x03ff_ffff, b"t")?;
    Ok([roman, tiny])
}

/// A file whose first page has begun, without the bytes up to there.
fn begun(alloc: Global, limit: u64) -> Result<Dvi, ntx_num::Fail<DviFull>>
    requires { limit < 2 ^ 31 }
    ensures in_page { IfOk result IsInPage }
    ensures no_push { IfOk result HasNoOpenPush }
    ensures fonts { IfOk result (λ dvi. dvi.progress.fonts ≡ replicate 64 None) }
{
    let mut dvi = Dvi::new(alloc, limit)?;
    dvi.begin()?;
    dvi.page_start(1)?;
    let _start = dvi.take();
    Ok(dvi)
}

/// Sets a character in one of the fonts of a file, which has no others.
fn set(
    dvi: &mut Dvi,
    fonts: &[FontDef; 2],
    number: u8,
    code: u8,
) -> Result<(), ntx_num::Fail<DviFull>>
    requires in_page { IsInPage dvi.old }
    requires number { number < 2 }
    requires definable { All IsDefinable fonts.now }
    requires known { AreKnown dvi.old.progress.fonts (slice_get fonts.now) }
    ensures in_page { IsInPage dvi.new }
    ensures pushes { dvi.new.progress.open_pushes ≡ dvi.old.progress.open_pushes }
    ensures known { AreKnown dvi.new.progress.fonts (slice_get fonts.now) }
{
    dvi.glyph(number, &fonts[usize::from(number)], code)
}

#[test]
fn a_font_is_defined_once_and_chosen_when_it_changes(rt: HostRuntime) -> Result<(), Fail> {
    let fonts = two_fonts(rt.alloc())?;
    let mut dvi = begun(rt.alloc(), 240)?;
    set(&mut dvi, &fonts, 0, 65)?;
    set(&mut dvi, &fonts, 1, 128)?;
    set(&mut dvi, &fonts, 1, 127)?;
    dvi.push()?;
    set(&mut dvi, &fonts, 0, 0)?;
    dvi.pop()?;
    set(&mut dvi, &fonts, 0, 255)?;
    dvi.page_end(0, 0)?;
    let page = [
        0xf3, 0, 1, 2, 3, 4, 0, 8, 0, 0, 0, 0x0a, 0, 0, 0, 5, 0x63, 0x6d, 0x72, 0x31, 0x30, 0xab,
        0x41, 0xf3, 1, 0xff, 0xfe, 0xfd, 0xfc, 0, 0, 0, 1, 3, 0xff, 0xff, 0xff, 0, 1, 0x74, 0xac,
        0x80, 0x80, 0x7f, 0x8d, 0xab, 0, 0x8e, 0x80, 0xff, 0x8c,
    ];
    assert_eq!(rt; dvi.take().as_slice(), page.as_slice());
    dvi.end()?;
    let rest = [
        0xf8, 0, 0, 0, 0x12, 0x01, 0x83, 0x92, 0xc0, 0x1c, 0x3b, 0, 0, 0, 0, 0x03, 0xe8, 0, 0, 0,
        0, 0, 0, 0, 0, 0, 1, 0, 1, 0xf3, 1, 0xff, 0xfe, 0xfd, 0xfc, 0, 0, 0, 1, 3, 0xff, 0xff,
        0xff, 0, 1, 0x74, 0xf3, 0, 1, 2, 3, 4, 0, 8, 0, 0, 0, 0x0a, 0, 0, 0, 5, 0x63, 0x6d, 0x72,
        0x31, 0x30, 0xf9, 0, 0, 0, 0x72, 2, 0xdf, 0xdf, 0xdf, 0xdf, 0xdf,
    ];
    assert_eq!(rt; dvi.take().as_slice(), rest.as_slice());
    Ok(())
}

#[test]
fn a_font_is_chosen_again_in_each_page(rt: HostRuntime) -> Result<(), Fail> {
    let def = font(rt.alloc(), 0, 1, 1, b"t")?;
    let mut dvi = begun(rt.alloc(), 240)?;
    dvi.glyph(63, &def, 1)?;
    dvi.page_end(0, 0)?;
    let first = [
        0xf3, 0x3f, 0, 0, 0, 0, 0, 0, 0, 1, 0, 0, 0, 1, 0, 1, 0x74, 0xea, 1, 0x8c,
    ];
    assert_eq!(rt; dvi.take().as_slice(), first.as_slice());
    dvi.page_start(2)?;
    assert_eq!(rt; dvi.take().len(), 45);
    dvi.glyph(63, &def, 2)?;
    assert_eq!(rt; dvi.take().as_slice(), [0xea, 2].as_slice());
    Ok(())
}

#[test]
fn a_character_is_written_as_far_as_there_is_room(rt: HostRuntime) -> Result<(), Fail> {
    let def = font(rt.alloc(), 0, 0x0008_0000, 0x000a_0000, b"cmr10")?;
    for (limit, written) in [(63, 0), (83, 0), (84, 21), (85, 22), (86, 22), (87, 24)] {
        let mut dvi = begun(rt.alloc(), limit)?;
        assert_eq!(rt;
            dvi.glyph(0, &def, 200).is_ok(),
            limit == 87,
            "limit {limit}"
        );
        assert_eq!(rt; dvi.take().len(), written, "limit {limit}");
        assert_eq!(rt;
            dvi.glyph(0, &def, 65).is_ok(),
            limit == 86,
            "limit {limit}"
        );
        assert_eq!(rt; dvi.take().len(), usize::from(limit == 86), "limit {limit}");
    }
    Ok(())
}
