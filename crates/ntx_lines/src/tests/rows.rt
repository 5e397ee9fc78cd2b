//! Paragraphs whose breaks are worked out elsewhere, with their lines.

use super::compare::{Line, Wanted, line_is, nodes_are};
use super::matter::{FILL, FONT_SPACE, ZERO, broken, list_of, params_of, set, small_font};
use ntx_item::{GlueSpec, Param};
use ntx_nodes::{Field, FieldValue, ListKind, PlainHeap};
use ntx_tfm::read_font;
use ntx_view::items;
use std::test;

#[test]
fn eight_letters_in_two_lines(rt: HostRuntime) -> Result<(), test::Fail> {
    let bytes = small_font(rt.alloc())?;
    let fonts = [read_font(rt.alloc(), &bytes, "T", None)?];
    let mut heap = PlainHeap::new(rt.alloc(), 1)?;
    let head = list_of(&mut heap, "aawaawaawaaPf")?;
    let matter = items(rt.alloc(), &mut heap, &fonts, Some(head), ListKind::H)?;
    assert!(rt; matter.len() == 13);
    let mut params = params_of(1_474_560, ZERO, ZERO);
    let _set = params.put(Param::Interlinepenalty, 7);
    let (head, count) = broken(rt.alloc(), &mut heap, &fonts, head, &params)?;
    assert!(rt; count == 2);
    let a = Wanted::Letter;
    let space = Wanted::Glue(13, FONT_SPACE);
    let end = Wanted::Glue(9, ZERO);
    let line = Line {
        size: (1_474_560, 286_720, 0),
        glue: (0, 0, 0, 1),
        list: &[a, a, space, a, a, end],
    };
    let at = line_is(&rt, &heap, Some(head), &line)?;
    let between = Wanted::Glue(
        2,
        GlueSpec {
            width: 499_712,
            ..ZERO
        },
    );
    let at = nodes_are(&rt, &heap, at, &[Wanted::Penalty(307), between])?;
    let fill = Wanted::Glue(15, FILL);
    let last = Line {
        list: &[a, a, space, a, a, Wanted::Penalty(10_000), fill, end],
        ..line
    };
    let at = line_is(&rt, &heap, at, &last)?;
    assert!(rt; at.is_none());
    Ok(())
}

#[test]
fn a_word_that_does_not_fit(rt: HostRuntime) -> Result<(), test::Fail> {
    let bytes = small_font(rt.alloc())?;
    let fonts = [read_font(rt.alloc(), &bytes, "T", None)?];
    let mut heap = PlainHeap::new(rt.alloc(), 1)?;
    let head = list_of(&mut heap, "aaaaaaaPf")?;
    let params = params_of(2_129_920, ZERO, ZERO);
    let (head, count) = broken(rt.alloc(), &mut heap, &fonts, head, &params)?;
    assert!(rt; count == 1);
    let a = Wanted::Letter;
    let fill = Wanted::Glue(15, FILL);
    let end = Wanted::Glue(9, ZERO);
    let line = Line {
        size: (2_129_920, 286_720, 0),
        glue: (0, 0, 0, 1),
        list: &[a, a, a, a, a, a, a, Wanted::Penalty(10_000), fill, end],
    };
    let at = line_is(&rt, &heap, Some(head), &line)?;
    assert!(rt; at.is_none());
    Ok(())
}

#[test]
fn lines_shrink_and_are_filled(rt: HostRuntime) -> Result<(), test::Fail> {
    let mut heap = PlainHeap::new(rt.alloc(), 1)?;
    let head = list_of(&mut heap, "rprprPf")?;
    for (n, width) in [(1, 960_000), (3, 80_000), (5, 100_000)] {
        set(&mut heap, n, Field::Width, FieldValue::Number(width))?;
    }
    for n in [2, 4] {
        set(&mut heap, n, Field::Penalty, FieldValue::Number(0))?;
    }
    let left = GlueSpec {
        stretch: 100_000,
        shrink: 100_000,
        ..ZERO
    };
    let params = params_of(1_000_000, left, ZERO);
    let (head, count) = broken(rt.alloc(), &mut heap, &[], head, &params)?;
    assert!(rt; count == 2);
    let begin = Wanted::Glue(8, left);
    let free = Wanted::Penalty(0);
    let end = Wanted::Glue(9, ZERO);
    let first = Line {
        size: (1_000_000, 7, 2),
        glue: (2, 0, 40_000, 100_000),
        list: &[
            begin,
            Wanted::Rule(960_000),
            free,
            Wanted::Rule(80_000),
            free,
            end,
        ],
    };
    let at = line_is(&rt, &heap, Some(head), &first)?;
    let between = Wanted::Glue(
        2,
        GlueSpec {
            width: 786_423,
            ..ZERO
        },
    );
    let at = nodes_are(&rt, &heap, at, &[Wanted::Penalty(300), between])?;
    let fill = Wanted::Glue(15, FILL);
    let second = Line {
        size: (1_000_000, 7, 2),
        glue: (1, 1, 900_000, 65_536),
        list: &[
            begin,
            Wanted::Rule(100_000),
            Wanted::Penalty(10_000),
            fill,
            end,
        ],
    };
    let at = line_is(&rt, &heap, at, &second)?;
    assert!(rt; at.is_none());
    Ok(())
}
