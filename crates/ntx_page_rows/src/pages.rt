//! Pages as bytes.

use crate::boxes::Part::{Kern, Letter, Node, Rule};
use crate::boxes::{begun, disc, hbox, letter_font};
use ntx_item::PackTo::Additional;
use ntx_nodes::{Nodes, PlainHeap, Trouble};
use ntx_num::Fail;
use ntx_num::Fail::Is;
use ntx_ship::{ShipFault, ship};
use ntx_tfm::read_font;
use std::test;

/// The first page of a file begins, and none is before it.
const FIRST_PAGE: [u8; 45] = [
    139, 0, 0, 0, 1, 0, 0, 0, 0, 0, 0, 0, 0, 0, 0, 0, 0, 0, 0, 0, 0, 0, 0, 0, 0, 0, 0, 0, 0, 0, 0,
    0, 0, 0, 0, 0, 0, 0, 0, 0, 0, 255, 255, 255, 255,
];

#[test]
fn characters_of_two_fonts_are_written(rt: HostRuntime) -> Result<(), test::Fail> {
    let alloc = rt.alloc();
    let mut nodes = PlainHeap::new(alloc, 1)?;
    let bytes = letter_font(alloc)?;
    let fonts = [
        read_font(alloc, &bytes, "t", None)?,
        read_font(alloc, &bytes, "u", Some(327_680))?,
    ];
    let list = [Letter(0), Letter(1), Kern(-1), Letter(0)];
    let page = hbox(alloc, &mut nodes, &fonts, &list, Additional(0))?;
    let mut dvi = begun(alloc, 1000)?;
    ship(alloc, &mut nodes, &fonts, page, &mut dvi)?;
    assert_eq!(rt; nodes.live(), 0);
    let drawn = [
        159, 4, 96, 0, 243, 0, 0, 0, 0, 0, 0, 10, 0, 0, 0, 10, 0, 0, 0, 1, b't', 171, b'a', 243, 1,
        0, 0, 0, 0, 0, 5, 0, 0, 0, 10, 0, 0, 0, 1, b'u', 172, b'a', 143, 255, 171, b'a', 140,
    ];
    let written = dvi.take();
    assert_eq!(rt; written.get(18..63), Some(FIRST_PAGE.as_slice()));
    assert_eq!(rt; written.get(63..), Some(drawn.as_slice()));
    Ok(())
}

#[test]
fn the_replace_list_of_a_disc_is_written(rt: HostRuntime) -> Result<(), test::Fail> {
    let alloc = rt.alloc();
    let mut nodes = PlainHeap::new(alloc, 1)?;
    let fonts = [read_font(alloc, &letter_font(alloc)?, "t", None)?];
    let hyphen = disc(&mut nodes)?;
    let page = hbox(alloc, &mut nodes, &fonts, &[Node(hyphen)], Additional(0))?;
    let mut dvi = begun(alloc, 1000)?;
    ship(alloc, &mut nodes, &fonts, page, &mut dvi)?;
    assert_eq!(rt; nodes.live(), 0);
    let drawn = [
        159, 4, 96, 0, 243, 0, 0, 0, 0, 0, 0, 10, 0, 0, 0, 10, 0, 0, 0, 1, b't', 171, b'a', 140,
    ];
    assert_eq!(rt; dvi.take().get(63..), Some(drawn.as_slice()));
    Ok(())
}

#[test]
fn a_box_brings_back_the_place_where_it_began(rt: HostRuntime) -> Result<(), test::Fail> {
    let alloc = rt.alloc();
    let mut nodes = PlainHeap::new(alloc, 1)?;
    let inner = hbox(
        alloc,
        &mut nodes,
        &[],
        &[Kern(300), Rule(10, 20, 0)],
        Additional(0),
    )?;
    let page = hbox(
        alloc,
        &mut nodes,
        &[],
        &[Node(inner), Rule(1, 1, 3)],
        Additional(0),
    )?;
    let mut dvi = begun(alloc, 1000)?;
    ship(alloc, &mut nodes, &[], page, &mut dvi)?;
    let drawn = [
        141, 144, 1, 44, 157, 20, 132, 0, 0, 0, 20, 0, 0, 0, 10, 142, 144, 1, 54, 157, 23, 132, 0,
        0, 0, 4, 0, 0, 0, 1, 140,
    ];
    assert_eq!(rt; dvi.take().get(63..), Some(drawn.as_slice()));
    Ok(())
}

/// Boxes in one another, so many around a rule after a kern of 1 scaled point, and a kern of 1 before each box.
fn nested(rt: &HostRuntime, nodes: &mut PlainHeap, count: u64) -> Result<u64, Fail<Trouble>> {
    let alloc = rt.alloc();
    let mut page = hbox(alloc, nodes, &[], &[Kern(1), Rule(1, 1, 0)], Additional(0))?;
    for _turn in 0..count {
        page = hbox(alloc, nodes, &[], &[Kern(1), Node(page)], Additional(0))?;
    }
    Ok(page)
}

#[test]
fn boxes_in_boxes_are_pushed_one_after_another(rt: HostRuntime) -> Result<(), test::Fail> {
    let alloc = rt.alloc();
    let mut nodes = PlainHeap::new(alloc, 1)?;
    let page = nested(&rt, &mut nodes, 20)?;
    let mut dvi = begun(alloc, 1000)?;
    ship(alloc, &mut nodes, &[], page, &mut dvi)?;
    let mut drawn = Vec::new(alloc);
    drawn.extend_from_slice(&[141; 20])?;
    drawn.extend_from_slice(&[143, 21, 157, 1, 132, 0, 0, 0, 1, 0, 0, 0, 1])?;
    drawn.extend_from_slice(&[142; 20])?;
    drawn.extend_from_slice(&[140])?;
    assert_eq!(rt; dvi.take().get(63..), Some(drawn.as_slice()));
    Ok(())
}

#[test]
fn a_file_that_is_full_keeps_what_was_written(rt: HostRuntime) -> Result<(), test::Fail> {
    let alloc = rt.alloc();
    let mut nodes = PlainHeap::new(alloc, 1)?;
    let page = nested(&rt, &mut nodes, 1)?;
    let mut dvi = begun(alloc, 66)?;
    let why = ship(alloc, &mut nodes, &[], page, &mut dvi).err();
    assert_eq!(rt; why, Some(Is(ShipFault::DviFull)));
    assert_eq!(rt; dvi.take().get(63..), Some([141, 143, 2].as_slice()));
    assert_eq!(rt; nodes.live(), 5);
    Ok(())
}

#[test]
fn a_page_that_is_refused_is_not_begun(rt: HostRuntime) -> Result<(), test::Fail> {
    let alloc = rt.alloc();
    let mut nodes = PlainHeap::new(alloc, 1)?;
    let high = [Rule(1, 1_073_741_823, 1)];
    let page = hbox(alloc, &mut nodes, &[], &high, Additional(0))?;
    let mut dvi = begun(alloc, 1000)?;
    let why = ship(alloc, &mut nodes, &[], page, &mut dvi).err();
    assert_eq!(rt; why, Some(Is(ShipFault::Trouble(Trouble::Dimension))));
    assert_eq!(rt; dvi.take().len(), 18);
    assert_eq!(rt; dvi.pages(), 0);
    assert_eq!(rt; nodes.live(), 2);
    Ok(())
}
