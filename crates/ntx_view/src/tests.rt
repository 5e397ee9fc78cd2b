use super::*;
use ntx_item::{GlueSpec, Item};
use ntx_nodes::{Field, FieldValue, Kind, ListKind, Nodes, PlainHeap, Trouble};
use ntx_num::{Fail, Size};
use ntx_tfm::{Font, read_font};
use std::alloc::{AllocError, Global};
use std::test;

/// A font with the character `a` alone, 327680 wide and 286720 high at its design size of 10 points.
fn small_font(alloc: Global) -> Result<Vec<u8>, AllocError> {
    let mut out = Vec::new(alloc);
    for n in [15u16, 2, 97, 97, 2, 2, 1, 1, 0, 0, 0, 0] {
        out.extend_from_slice(&n.to_be_bytes())?;
    }
    for word in [
        0u32,
        0x00a0_0000,
        0x0110_0000,
        0,
        0x0008_0000,
        0,
        0x0007_0000,
        0,
        0,
    ] {
        out.extend_from_slice(&word.to_be_bytes())?;
    }
    Ok(out)
}

/// Makes a node with these numbers in its fields.
fn made(nodes: &mut PlainHeap, kind: Kind, fields: &[(Field, i64)]) -> Result<u64, Fail<Trouble>> {
    let n = nodes.make(kind, 0)?;
    for (field, value) in fields {
        if let Err(why) = nodes.set(n, *field, FieldValue::Number(*value)) {
            return Err(Fail::Is(why));
        }
    }
    Ok(n)
}

/// Puts a node after another, or into its field.
fn join(nodes: &mut PlainHeap, n: u64, field: Field, to: u64) -> Result<(), Fail<Trouble>> {
    match nodes.set(n, field, FieldValue::Link(Some(to))) {
        Ok(()) => Ok(()),
        Err(why) => Err(Fail::Is(why)),
    }
}

/// A letter, a kern, a discretionary of a letter, nothing, and a kern with a rule, and a box with a letter in it.
fn paragraph(nodes: &mut PlainHeap, char: i64) -> Result<u64, Fail<Trouble>> {
    let letter = made(nodes, Kind::Glyph, &[(Field::Char, 97)])?;
    let kern = made(nodes, Kind::Kern, &[(Field::Kern, 5)])?;
    let disc = made(nodes, Kind::Disc, &[(Field::Subtype, 3)])?;
    let before = made(nodes, Kind::Glyph, &[(Field::Char, 97)])?;
    let gap = made(nodes, Kind::Kern, &[(Field::Subtype, 1), (Field::Kern, 7)])?;
    let rule = made(
        nodes,
        Kind::Rule,
        &[(Field::Width, 3), (Field::Height, 4), (Field::Depth, 1)],
    )?;
    let frame = made(
        nodes,
        Kind::Hlist,
        &[(Field::Width, 20), (Field::Height, 9), (Field::Shift, 2)],
    )?;
    let inside = made(nodes, Kind::Glyph, &[(Field::Char, char)])?;
    join(nodes, letter, Field::Next, kern)?;
    join(nodes, kern, Field::Next, disc)?;
    join(nodes, disc, Field::Pre, before)?;
    join(nodes, disc, Field::Replace, gap)?;
    join(nodes, gap, Field::Next, rule)?;
    join(nodes, disc, Field::Next, frame)?;
    join(nodes, frame, Field::List, inside)?;
    Ok(letter)
}

const LETTER: Size = Size {
    w: 327_680,
    h: 286_720,
    d: 0,
};

#[test]
fn a_list_is_seen_as_items(rt: HostRuntime) -> Result<(), test::Fail> {
    let bytes = small_font(rt.alloc())?;
    let fonts = [read_font(rt.alloc(), &bytes, "T", None)?];
    let mut nodes = PlainHeap::new(rt.alloc(), 1)?;
    let head = paragraph(&mut nodes, 97)?;
    let list = items(rt.alloc(), &mut nodes, &fonts, Some(head), ListKind::H)?;
    let want = [
        Item::Glyph { size: LETTER },
        Item::Kern { w: 5, font: true },
        Item::Disc {
            pre: LETTER,
            post: Size { w: 0, h: 0, d: 0 },
            replace: Size { w: 10, h: 4, d: 1 },
            pre_empty: false,
            post_empty: true,
            regular: true,
        },
        Item::Box {
            size: Size { w: 20, h: 9, d: 0 },
            shift: 2,
        },
    ];
    assert!(rt; list.as_slice() == want.as_slice());
    let size = hlist_size(&list);
    assert!(rt;
        size == Size {
            w: 327_715,
            h: 286_720,
            d: 2
        }
    );
    Ok(())
}

#[test]
fn glue_and_penalties_are_seen(rt: HostRuntime) -> Result<(), test::Fail> {
    let mut nodes = PlainHeap::new(rt.alloc(), 1)?;
    let glue = made(
        &mut nodes,
        Kind::Glue,
        &[
            (Field::Width, 1),
            (Field::Stretch, 2),
            (Field::StretchOrder, 3),
            (Field::Shrink, 4),
            (Field::ShrinkOrder, 1),
        ],
    )?;
    let penalty = made(&mut nodes, Kind::Penalty, &[(Field::Penalty, -50)])?;
    join(&mut nodes, glue, Field::Next, penalty)?;
    let fonts: [Font; 0] = [];
    let list = items(rt.alloc(), &mut nodes, &fonts, Some(glue), ListKind::V)?;
    let spec = GlueSpec {
        width: 1,
        stretch: 2,
        stretch_order: 3,
        shrink: 4,
        shrink_order: 1,
    };
    assert!(rt; list.as_slice() == [Item::Glue { spec }, Item::Penalty { p: -50 }].as_slice());
    Ok(())
}

/// Four words of two letters with spaces between them, and what ends a paragraph: a penalty and glue that fills the line.
fn four_words(nodes: &mut PlainHeap) -> Result<u64, Fail<Trouble>> {
    let end = made(
        nodes,
        Kind::Glue,
        &[(Field::Stretch, 65_536), (Field::StretchOrder, 1)],
    )?;
    let mut next = made(nodes, Kind::Penalty, &[(Field::Penalty, 10_000)])?;
    join(nodes, next, Field::Next, end)?;
    for place in 0..11 {
        let n = if place % 3 == 2 {
            made(
                nodes,
                Kind::Glue,
                &[
                    (Field::Width, 163_840),
                    (Field::Stretch, 81_920),
                    (Field::Shrink, 40_960),
                ],
            )?
        } else {
            made(nodes, Kind::Glyph, &[(Field::Char, 97)])?
        };
        join(nodes, n, Field::Next, next)?;
        next = n;
    }
    Ok(next)
}

#[test]
fn a_paragraph_of_four_words_has_13_items(rt: HostRuntime) -> Result<(), test::Fail> {
    let bytes = small_font(rt.alloc())?;
    let fonts = [read_font(rt.alloc(), &bytes, "T", None)?];
    let mut nodes = PlainHeap::new(rt.alloc(), 1)?;
    let head = four_words(&mut nodes)?;
    let list = items(rt.alloc(), &mut nodes, &fonts, Some(head), ListKind::H)?;
    assert_eq!(rt; list.len(), 13);
    let space = GlueSpec {
        width: 163_840,
        stretch: 81_920,
        shrink: 40_960,
        ..GlueSpec::default()
    };
    assert!(rt; list[2] == Item::Glue { spec: space });
    assert!(rt; list[10] == Item::Glyph { size: LETTER });
    assert!(rt; list[11] == Item::Penalty { p: 10_000 });
    let size = hlist_size(&list);
    assert_eq!(rt; size.w, 8 * 327_680 + 3 * 163_840);
    Ok(())
}

#[test]
fn a_long_list_is_seen_whole(rt: HostRuntime) -> Result<(), test::Fail> {
    let mut nodes = PlainHeap::new(rt.alloc(), 1)?;
    let mut last = made(&mut nodes, Kind::Kern, &[(Field::Kern, 1)])?;
    for _ in 1..10_000 {
        let next = made(&mut nodes, Kind::Kern, &[(Field::Kern, 3)])?;
        join(&mut nodes, last, Field::Next, next)?;
        last = next;
    }
    let list = items(rt.alloc(), &mut nodes, &[], Some(1), ListKind::H)?;
    assert_eq!(rt; list.len(), 10_000);
    assert_eq!(rt; hlist_size(&list).w, 1 + 3 * 9_999);
    Ok(())
}

#[test]
fn glyphs_without_a_character_are_refused(rt: HostRuntime) -> Result<(), test::Fail> {
    let bytes = small_font(rt.alloc())?;
    let fonts = [read_font(rt.alloc(), &bytes, "T", None)?];
    let mut nodes = PlainHeap::new(rt.alloc(), 1)?;
    let head = paragraph(&mut nodes, 98)?;
    let inner = items(rt.alloc(), &mut nodes, &fonts, Some(head), ListKind::H);
    assert!(rt; matches!(inner, Err(Fail::Is(Trouble::NoChar(8)))));
    let none = items(rt.alloc(), &mut nodes, &fonts[..0], Some(head), ListKind::H);
    assert!(rt; matches!(none, Err(Fail::Is(Trouble::NoChar(1)))));
    let kind = items(rt.alloc(), &mut nodes, &fonts, Some(head), ListKind::V);
    assert!(rt; matches!(kind, Err(Fail::Is(Trouble::WrongKind(1)))));
    Ok(())
}
