//! Sizes of boxes and lists, and refusals.

use super::lists::{EMPTY, horizontal, number, set_of, size_of, small_font, vertical};
use crate::{GlueSet, dimensions, hpack, vpack};
use ntx_item::PackTo;
use ntx_nodes::{Field, FieldValue, Kind, Nodes, PlainHeap, Trouble};
use ntx_num::{Fail, MAX_DIMENSION, Size};
use ntx_tfm::read_font;
use std::alloc::Global;
use std::test;

#[test]
fn hlist_of_every_kind(rt: HostRuntime) -> Result<(), test::Fail> {
    let bytes = small_font(rt.alloc())?;
    let fonts = [read_font(rt.alloc(), &bytes, "T", None)?];
    let mut nodes = PlainHeap::new(rt.alloc(), 1)?;
    let head = horizontal(&mut nodes)?;
    let natural = Size {
        w: 655_541,
        h: 600_004,
        d: 500_000,
    };
    assert!(rt; dimensions(rt.alloc(), &mut nodes, &fonts, head)? == natural);
    let (n, badness) = hpack(rt.alloc(), &mut nodes, &fonts, head, PackTo::Additional(70))?;
    assert!(rt;
        size_of(&nodes, n)
            == Size {
                w: 655_611,
                ..natural
            }
    );
    assert!(rt; set_of(&nodes, n) == (1, 3, 70, 7));
    assert!(rt; badness == 0);
    assert!(rt; nodes.kind_of(n) == Ok((Kind::Hlist, 0)));
    assert!(rt; nodes.get(n, Field::List) == Ok(FieldValue::Link(head)));
    assert!(rt; number(&nodes, n, Field::Shift) == 0);
    Ok(())
}

#[test]
fn vlist_of_every_kind(rt: HostRuntime) -> Result<(), test::Fail> {
    let mut nodes = PlainHeap::new(rt.alloc(), 1)?;
    let mut list = vertical(&mut nodes)?;
    let (n, badness) = vpack(rt.alloc(), &mut nodes, &[], list.head, PackTo::Exactly(41))?;
    assert!(rt; nodes.kind_of(n) == Ok((Kind::Vlist, 0)));
    assert!(rt; nodes.get(n, Field::List) == Ok(FieldValue::Link(list.head)));
    assert!(rt; size_of(&nodes, n) == Size { w: 27, h: 41, d: 5 });
    assert!(rt; set_of(&nodes, n) == (1, 0, 5, 5));
    let set = GlueSet {
        sign: 1,
        order: 0,
        num: 5,
        den: 5,
    };
    assert!(rt; GlueSet::read(&nodes, n) == Ok(set));
    assert!(rt; badness == 100);
    list.kern(&mut nodes, -8)?;
    let (m, _none) = vpack(
        rt.alloc(),
        &mut nodes,
        &[],
        list.head,
        PackTo::Additional(0),
    )?;
    assert!(rt; size_of(&nodes, m) == Size { w: 27, h: 33, d: 0 });
    assert!(rt; set_of(&nodes, m) == (0, 0, 0, 1));
    Ok(())
}

/// Packs a kern as an hlist and as a vlist, and tells whether both are refused with Dimension and leave the heap.
fn is_too_large(alloc: Global, kern: i64, to: PackTo) -> Result<bool, Fail<Trouble>> {
    let mut nodes = PlainHeap::new(alloc, 1)?;
    let mut list = EMPTY;
    list.kern(&mut nodes, kern)?;
    list.kern(&mut nodes, 0)?;
    let across = hpack(alloc, &mut nodes, &[], list.head, to);
    let down = vpack(alloc, &mut nodes, &[], list.head, to);
    Ok(
        matches!(across, Err(Fail::Is(Trouble::Dimension)))
            && matches!(down, Err(Fail::Is(Trouble::Dimension)))
            && nodes.live() == 2,
    )
}

#[test]
fn sizes_end_at_the_largest_dimension(rt: HostRuntime) -> Result<(), test::Fail> {
    let a = rt.alloc();
    assert!(rt; !is_too_large(a, MAX_DIMENSION, PackTo::Additional(0))?);
    assert!(rt; is_too_large(a, MAX_DIMENSION, PackTo::Additional(1))?);
    assert!(rt; is_too_large(a, 5, PackTo::Additional(i64::MAX))?);
    assert!(rt; !is_too_large(a, 5, PackTo::Exactly(-MAX_DIMENSION))?);
    assert!(rt; is_too_large(a, 5, PackTo::Exactly(-MAX_DIMENSION - 1))?);
    assert!(rt; is_too_large(a, 5, PackTo::Exactly(MAX_DIMENSION + 1))?);
    Ok(())
}

/// A list of one kern and a box.
fn kern_and_box(
    nodes: &mut PlainHeap,
    kern: i64,
    size: (i64, i64, i64),
    shift: i64,
) -> Result<Option<u64>, Fail<Trouble>> {
    let mut list = EMPTY;
    list.kern(nodes, kern)?;
    list.shifted(nodes, Kind::Hlist, size, shift)?;
    Ok(list.head)
}

#[test]
fn natural_and_other_sizes_are_tested(rt: HostRuntime) -> Result<(), test::Fail> {
    let a = rt.alloc();
    let most = MAX_DIMENSION;
    let mut nodes = PlainHeap::new(a, 1)?;
    let wide = kern_and_box(&mut nodes, most, (1, 0, 0), 0)?;
    let across = hpack(a, &mut nodes, &[], wide, PackTo::Exactly(0));
    assert!(rt; matches!(across, Err(Fail::Is(Trouble::Dimension))));
    let size = dimensions(a, &mut nodes, &[], wide);
    assert!(rt; matches!(size, Err(Fail::Is(Trouble::Dimension))));
    let high = kern_and_box(&mut nodes, 0, (1, most, 0), -1)?;
    let across = hpack(a, &mut nodes, &[], high, PackTo::Exactly(0));
    assert!(rt; matches!(across, Err(Fail::Is(Trouble::Dimension))));
    let right = kern_and_box(&mut nodes, 0, (most, 0, 0), 1)?;
    let down = vpack(a, &mut nodes, &[], right, PackTo::Exactly(0));
    assert!(rt; matches!(down, Err(Fail::Is(Trouble::Dimension))));
    Ok(())
}

#[test]
fn nothing_and_wrong_kinds(rt: HostRuntime) -> Result<(), test::Fail> {
    let bytes = small_font(rt.alloc())?;
    let fonts = [read_font(rt.alloc(), &bytes, "T", None)?];
    let mut nodes = PlainHeap::new(rt.alloc(), 1)?;
    let none = dimensions(rt.alloc(), &mut nodes, &fonts, None)?;
    assert!(rt; none == Size { w: 0, h: 0, d: 0 });
    let mut list = EMPTY;
    let a = list.add(&mut nodes, Kind::Glyph, &[(Field::Char, 97)])?;
    let down = vpack(
        rt.alloc(),
        &mut nodes,
        &fonts,
        Some(a),
        PackTo::Additional(0),
    );
    assert!(rt; matches!(down, Err(Fail::Is(Trouble::WrongKind(1)))));
    let bare = hpack(rt.alloc(), &mut nodes, &[], Some(a), PackTo::Additional(0));
    assert!(rt; matches!(bare, Err(Fail::Is(Trouble::NoChar(1)))));
    let stale = dimensions(rt.alloc(), &mut nodes, &fonts, Some(9));
    assert!(rt; matches!(stale, Err(Fail::Is(Trouble::Stale(9)))));
    Ok(())
}

#[test]
fn names_run_out(rt: HostRuntime) -> Result<(), test::Fail> {
    let mut nodes = PlainHeap::new(rt.alloc(), (1 << 48) - 1)?;
    let (n, _none) = hpack(rt.alloc(), &mut nodes, &[], None, PackTo::Exactly(1))?;
    assert!(rt; n == (1 << 48) - 1);
    let next = vpack(rt.alloc(), &mut nodes, &[], None, PackTo::Exactly(1));
    assert!(rt; matches!(next, Err(Fail::Is(Trouble::NamesOut))));
    Ok(())
}
