//! Refusals, and what stands after them.

use super::matter::{ZERO, broken, list_of, params_of, set};
use crate::lines;
use ntx_breaks::break_items;
use ntx_item::GlueSpec;
use ntx_nodes::{Field, FieldValue, Kind, Nodes, PlainHeap, Trouble};
use ntx_num::{Fail, MAX_DIMENSION};
use std::test;

#[test]
fn lists_without_items_are_refused(rt: HostRuntime) -> Result<(), test::Fail> {
    let params = params_of(100, ZERO, ZERO);
    let breaks = break_items(rt.alloc(), &[], &params)?;
    let mut heap = PlainHeap::new(rt.alloc(), 1)?;
    let refused = lines(rt.alloc(), &mut heap, &[], 5, &breaks, &params);
    assert!(rt; refused == Err(Fail::Is(Trouble::Stale(5))));
    let _head = list_of(&mut heap, "a")?;
    let refused = lines(rt.alloc(), &mut heap, &[], 1, &breaks, &params);
    assert!(rt; refused == Err(Fail::Is(Trouble::NoChar(1))));
    let head = list_of(&mut heap, "r ")?;
    set(&mut heap, 3, Field::Next, FieldValue::Link(Some(head)))?;
    let refused = lines(rt.alloc(), &mut heap, &[], head, &breaks, &params);
    assert!(rt; refused == Err(Fail::Is(Trouble::Loop(2))));
    assert!(rt; heap.live() == 3);
    Ok(())
}

#[test]
fn a_refusal_leaves_what_was_done(rt: HostRuntime) -> Result<(), test::Fail> {
    let first = (1 << 48) - 4;
    let mut heap = PlainHeap::new(rt.alloc(), first)?;
    let head = list_of(&mut heap, "r r")?;
    let params = params_of(100, ZERO, ZERO);
    let refused = broken(rt.alloc(), &mut heap, &[], head, &params);
    assert!(rt; refused == Err(Fail::Is(Trouble::NamesOut)));
    assert!(rt; heap.live() == 4);
    assert!(rt; heap.kind_of(first + 1) == Ok((Kind::Glue, 9)));
    assert!(rt; heap.get(first + 1, Field::Next) == Ok(FieldValue::Link(None)));
    assert!(rt; heap.kind_of(first + 3) == Ok((Kind::Hlist, 1)));
    assert!(rt; heap.get(first + 3, Field::List) == Ok(FieldValue::Link(Some(first))));
    assert!(rt; heap.get(first + 3, Field::Next) == Ok(FieldValue::Link(None)));
    Ok(())
}

#[test]
fn rightskip_is_made_before_anything_is_discarded(rt: HostRuntime) -> Result<(), test::Fail> {
    let first = (1 << 48) - 4;
    let mut heap = PlainHeap::new(rt.alloc(), first)?;
    let head = list_of(&mut heap, "rF r")?;
    let params = params_of(100, ZERO, ZERO);
    let refused = broken(rt.alloc(), &mut heap, &[], head, &params);
    assert!(rt; refused == Err(Fail::Is(Trouble::NamesOut)));
    assert!(rt; heap.live() == 4);
    assert!(rt; heap.get(first + 1, Field::Next) == Ok(FieldValue::Link(None)));
    assert!(rt; heap.get(first + 2, Field::Next) == Ok(FieldValue::Link(Some(first + 3))));
    Ok(())
}

#[test]
fn a_box_is_linked_before_its_interline_glue(rt: HostRuntime) -> Result<(), test::Fail> {
    let first = (1 << 48) - 7;
    let mut heap = PlainHeap::new(rt.alloc(), first)?;
    let head = list_of(&mut heap, "r r")?;
    let params = params_of(100, ZERO, ZERO);
    let refused = broken(rt.alloc(), &mut heap, &[], head, &params);
    assert!(rt; refused == Err(Fail::Is(Trouble::NamesOut)));
    assert!(rt; heap.get(first + 3, Field::Next) == Ok(FieldValue::Link(Some(first + 4))));
    assert!(rt; heap.kind_of(first + 4) == Ok((Kind::Penalty, 0)));
    assert!(rt; heap.get(first + 4, Field::Next) == Ok(FieldValue::Link(Some(first + 6))));
    assert!(rt; heap.kind_of(first + 6) == Ok((Kind::Hlist, 1)));
    Ok(())
}

#[test]
fn a_line_that_is_too_wide(rt: HostRuntime) -> Result<(), test::Fail> {
    let mut heap = PlainHeap::new(rt.alloc(), 1)?;
    let head = list_of(&mut heap, "r")?;
    let wide = GlueSpec {
        width: MAX_DIMENSION,
        ..ZERO
    };
    let params = params_of(100, ZERO, wide);
    let refused = broken(rt.alloc(), &mut heap, &[], head, &params);
    assert!(rt; refused == Err(Fail::Is(Trouble::Dimension)));
    assert!(rt; heap.get(1, Field::Next) == Ok(FieldValue::Link(Some(2))));
    assert!(rt; heap.kind_of(2) == Ok((Kind::Glue, 9)));
    assert!(rt; heap.live() == 2);
    Ok(())
}
