//! Where marks stand, at places worked out by hand from TeX's rules.

use crate::boxes::Part::{Glue, Kern, Letter, Node, Rule};
use crate::boxes::{disc, hbox, letter_font, shift, vbox};
use ntx_item::PackTo::{Additional, Exactly};
use ntx_nodes::{PlainHeap, Trouble};
use ntx_num::Fail::Is;
use ntx_ship::{GlyphMark, Piece, RuleMark, placed};
use ntx_tfm::read_font;
use std::test;

/// A rule.
fn rule(h: i32, v: i32, height: i32, width: i32) -> Piece {
    Piece::Rule(RuleMark {
        h,
        v,
        height,
        width,
    })
}

#[test]
fn a_box_with_a_mark_is_between_push_and_pop(rt: HostRuntime) -> Result<(), test::Fail> {
    let alloc = rt.alloc();
    let mut nodes = PlainHeap::new(alloc, 1)?;
    let inner = hbox(alloc, &mut nodes, &[], &[Rule(10, 10, 0)], Additional(0))?;
    let outer = [Node(inner), Kern(5), Rule(10, 10, 0)];
    let page = hbox(alloc, &mut nodes, &[], &outer, Additional(0))?;
    let page = placed(alloc, &mut nodes, &[], page)?;
    assert_eq!(rt; page.total(), 10);
    assert_eq!(rt; page.width(), 25);
    let pieces = [
        Piece::Push,
        rule(0, 10, 10, 10),
        Piece::Pop,
        rule(15, 10, 10, 10),
    ];
    assert_eq!(rt; page.pieces(), pieces.as_slice());
    Ok(())
}

#[test]
fn glue_is_rounded_by_its_running_total(rt: HostRuntime) -> Result<(), test::Fail> {
    let alloc = rt.alloc();
    let mut nodes = PlainHeap::new(alloc, 1)?;
    let glue = Glue(0, 1, 0);
    let mark = Rule(10, 10, 0);
    let list = [glue, mark, glue, mark, glue, mark];
    let page = hbox(alloc, &mut nodes, &[], &list, Exactly(100))?;
    let page = placed(alloc, &mut nodes, &[], page)?;
    let pieces = [
        rule(23, 10, 10, 10),
        rule(57, 10, 10, 10),
        rule(90, 10, 10, 10),
    ];
    assert_eq!(rt; page.pieces(), pieces.as_slice());
    Ok(())
}

#[test]
fn glue_of_an_overfull_box_shrinks_by_all_it_can(rt: HostRuntime) -> Result<(), test::Fail> {
    let alloc = rt.alloc();
    let mut nodes = PlainHeap::new(alloc, 1)?;
    let list = [Glue(100, 0, 10), Rule(5, 1, 0)];
    let page = hbox(alloc, &mut nodes, &[], &list, Exactly(85))?;
    let page = placed(alloc, &mut nodes, &[], page)?;
    assert_eq!(rt; page.pieces(), [rule(90, 1, 1, 5)].as_slice());
    Ok(())
}

#[test]
fn a_vlist_puts_its_nodes_below_one_another(rt: HostRuntime) -> Result<(), test::Fail> {
    let alloc = rt.alloc();
    let mut nodes = PlainHeap::new(alloc, 1)?;
    let first = hbox(alloc, &mut nodes, &[], &[Rule(10, 5, 2)], Additional(0))?;
    shift(&mut nodes, first, 3)?;
    let last = vbox(alloc, &mut nodes, &[], &[Rule(4, 1, 0)], Additional(0))?;
    let list = [
        Node(first),
        Glue(4, 1, 0),
        Rule(6, 3, 1),
        Kern(-2),
        Glue(0, 1, 0),
        Node(last),
    ];
    let page = vbox(alloc, &mut nodes, &[], &list, Exactly(19))?;
    let page = placed(alloc, &mut nodes, &[], page)?;
    assert_eq!(rt; page.total(), 19);
    assert_eq!(rt; page.width(), 13);
    let pieces = [
        Piece::Push,
        rule(3, 7, 7, 10),
        Piece::Pop,
        rule(0, 18, 4, 6),
        Piece::Push,
        rule(0, 19, 1, 4),
        Piece::Pop,
    ];
    assert_eq!(rt; page.pieces(), pieces.as_slice());
    Ok(())
}

#[test]
fn rules_without_size_and_empty_boxes_are_no_marks(rt: HostRuntime) -> Result<(), test::Fail> {
    let alloc = rt.alloc();
    let mut nodes = PlainHeap::new(alloc, 1)?;
    let flat = [Rule(10, 3, -3), Rule(0, 3, 0)];
    let inner = hbox(alloc, &mut nodes, &[], &flat, Additional(0))?;
    let empty = vbox(alloc, &mut nodes, &[], &[], Exactly(4))?;
    let outer = [Node(inner), Node(empty), Rule(1, 0, 1)];
    let page = hbox(alloc, &mut nodes, &[], &outer, Additional(0))?;
    let page = placed(alloc, &mut nodes, &[], page)?;
    assert_eq!(rt; page.pieces(), [rule(10, 5, 1, 1)].as_slice());
    Ok(())
}

#[test]
fn marks_stand_within_a_dimension(rt: HostRuntime) -> Result<(), test::Fail> {
    let alloc = rt.alloc();
    let mut nodes = PlainHeap::new(alloc, 1)?;
    let wide = Rule(1_073_741_823, 1, 0);
    let list = [wide, Kern(-1_073_741_823), wide];
    let page = hbox(alloc, &mut nodes, &[], &list, Additional(0))?;
    let page = placed(alloc, &mut nodes, &[], page)?;
    let pieces = [rule(0, 1, 1, 1_073_741_823), rule(0, 1, 1, 1_073_741_823)];
    assert_eq!(rt; page.pieces(), pieces.as_slice());
    Ok(())
}

#[test]
fn a_mark_that_is_too_high_is_refused(rt: HostRuntime) -> Result<(), test::Fail> {
    let alloc = rt.alloc();
    let mut nodes = PlainHeap::new(alloc, 1)?;
    let page = hbox(
        alloc,
        &mut nodes,
        &[],
        &[Rule(1, 1_073_741_823, 1)],
        Additional(0),
    )?;
    let why = placed(alloc, &mut nodes, &[], page).err();
    assert_eq!(rt; why, Some(Is(Trouble::Dimension)));
    Ok(())
}

/// A character on a baseline as far down as it is high.
fn letter(h: i32) -> Piece {
    Piece::Glyph(GlyphMark {
        h,
        v: 286_720,
        font: 0,
        code: 97,
        width: 327_680,
    })
}

#[test]
fn characters_stand_on_the_baseline(rt: HostRuntime) -> Result<(), test::Fail> {
    let alloc = rt.alloc();
    let mut nodes = PlainHeap::new(alloc, 1)?;
    let bytes = letter_font(alloc)?;
    let fonts = [read_font(alloc, &bytes, "t", None)?];
    let disc = disc(&mut nodes)?;
    let list = [Letter(0), Kern(-1), Node(disc), Letter(0)];
    let page = hbox(alloc, &mut nodes, &fonts, &list, Additional(0))?;
    let page = placed(alloc, &mut nodes, &fonts, page)?;
    let pieces = [letter(0), letter(327_679), letter(655_359)];
    assert_eq!(rt; page.pieces(), pieces.as_slice());
    Ok(())
}
