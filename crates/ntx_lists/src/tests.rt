//! Worked examples of lists that are changed, freed and copied.

ghost use Rattle.std.specs.Prelude.{◌<◌, ◌^◌};

use crate::{
    copy_list, copy_tree, flush_list, free_tree, insert_after, insert_before, length, remove,
    slide, tail,
};
use ntx_nodes::{Field, FieldValue, Kind, ListKind, Nodes, PlainHeap, Ratio, Trouble, check};
use ntx_num::Fail;
use std::process::Abort;
use std::test;

/// A heap of three kerns 1, 2 and 3, one after another, and a fourth by itself.
fn three_and_one(rt: &HostRuntime) -> Result<PlainHeap, Fail<Trouble>> {
    let mut heap = PlainHeap::new(rt.alloc(), 1)?;
    for _ in 0..4 {
        heap.make(Kind::Kern, 0)?;
    }
    link(&mut heap, 1, Field::Next, Some(2))?;
    link(&mut heap, 2, Field::Next, Some(3))?;
    Ok(heap)
}

fn link(heap: &mut PlainHeap, n: u64, field: Field, to: Option<u64>) -> Result<(), Fail<Trouble>> {
    heap.set(n, field, FieldValue::Link(to)).map_err(Fail::Is)
}

/// Tests that a link leads there.
fn leads(rt: &impl Abort, heap: &PlainHeap, n: u64, field: Field, to: Option<u64>) {
    assert_eq!(rt;
        heap.get(n, field),
        Ok(FieldValue::Link(to)),
        "{n} {field:?}"
    );
}

#[test]
fn a_node_goes_before_another(rt: HostRuntime) -> Result<(), test::Fail> {
    let mut heap = three_and_one(&rt)?;
    assert_eq!(rt; insert_before(&mut heap, 1, 1, 4), Ok(4));
    leads(&rt, &heap, 4, Field::Next, Some(1));
    assert_eq!(rt; length(&mut heap, Some(4)), Ok(4));
    let mut heap = three_and_one(&rt)?;
    assert_eq!(rt; insert_before(&mut heap, 1, 3, 4), Ok(1));
    leads(&rt, &heap, 2, Field::Next, Some(4));
    leads(&rt, &heap, 4, Field::Next, Some(3));
    assert_eq!(rt; insert_before(&mut heap, 1, 3, 4), Err(Trouble::Loop(4)));
    assert_eq!(rt; insert_before(&mut heap, 9, 8, 7), Err(Trouble::Stale(9)));
    assert_eq!(rt; insert_before(&mut heap, 1, 8, 7), Err(Trouble::Stale(8)));
    assert_eq!(rt; insert_before(&mut heap, 1, 2, 7), Err(Trouble::Stale(7)));
    assert_eq!(rt;
        insert_before(&mut heap, 3, 1, 2),
        Err(Trouble::NotInList(1))
    );
    Ok(())
}

#[test]
fn a_node_goes_after_another_or_leaves(rt: HostRuntime) -> Result<(), test::Fail> {
    let mut heap = three_and_one(&rt)?;
    assert_eq!(rt; insert_after(&mut heap, 1, 2, 4), Ok(1));
    leads(&rt, &heap, 2, Field::Next, Some(4));
    leads(&rt, &heap, 4, Field::Next, Some(3));
    assert_eq!(rt; tail(&mut heap, 1), Ok(3));
    assert_eq!(rt; slide(&mut heap, 4), Ok(3));
    assert_eq!(rt; remove(&mut heap, 1, 2), Ok((Some(1), Some(4))));
    leads(&rt, &heap, 1, Field::Next, Some(4));
    leads(&rt, &heap, 2, Field::Next, None);
    assert_eq!(rt; remove(&mut heap, 1, 2), Err(Trouble::NotInList(2)));
    assert_eq!(rt; remove(&mut heap, 1, 1), Ok((Some(4), Some(4))));
    assert_eq!(rt; remove(&mut heap, 3, 3), Ok((None, None)));
    assert_eq!(rt; remove(&mut heap, 3, 9), Err(Trouble::Stale(9)));
    Ok(())
}

#[test]
fn a_shared_node_stops_flushing(rt: HostRuntime) -> Result<(), test::Fail> {
    let mut heap = PlainHeap::new(rt.alloc(), 1)?;
    let rule = heap.make(Kind::Rule, 0)?;
    let x = heap.make(Kind::Hlist, 0)?;
    let y = heap.make(Kind::Hlist, 0)?;
    link(&mut heap, x, Field::List, Some(rule))?;
    link(&mut heap, y, Field::List, Some(rule))?;
    link(&mut heap, x, Field::Next, Some(y))?;
    assert_eq!(rt; length(&mut heap, Some(x)), Ok(2));
    assert_eq!(rt; flush_list(&mut heap, Some(x)), Err(Trouble::Loop(rule)));
    assert_eq!(rt; heap.live(), 3);
    assert_eq!(rt; free_tree(&mut heap, x), Ok(()));
    assert_eq!(rt; heap.live(), 1);
    assert_eq!(rt; heap.kind_of(y), Ok((Kind::Hlist, 0)));
    assert_eq!(rt; flush_list(&mut heap, Some(y)), Err(Trouble::Stale(rule)));
    assert_eq!(rt; heap.live(), 1);
    link(&mut heap, y, Field::List, Some(y))?;
    assert_eq!(rt; free_tree(&mut heap, y), Err(Trouble::Loop(y)));
    assert_eq!(rt; flush_list(&mut heap, Some(y)), Err(Trouble::Loop(y)));
    link(&mut heap, y, Field::List, None)?;
    assert_eq!(rt; flush_list(&mut heap, Some(y)), Ok(()));
    assert_eq!(rt; heap.live(), 0);
    assert_eq!(rt; flush_list(&mut heap, None), Ok(()));
    assert_eq!(rt; length(&mut heap, None), Ok(0));
    Ok(())
}

#[test]
fn a_list_that_comes_back_is_a_loop(rt: HostRuntime) -> Result<(), test::Fail> {
    let mut heap = three_and_one(&rt)?;
    link(&mut heap, 3, Field::Next, Some(2))?;
    assert_eq!(rt; tail(&mut heap, 1), Err(Trouble::Loop(2)));
    assert_eq!(rt; length(&mut heap, Some(1)), Err(Trouble::Loop(2)));
    assert_eq!(rt; insert_after(&mut heap, 1, 2, 4), Err(Trouble::Loop(2)));
    assert_eq!(rt; flush_list(&mut heap, Some(1)), Err(Trouble::Loop(2)));
    assert_eq!(rt; heap.live(), 4);
    Ok(())
}

/// A heap of a disc 1 with pre 2 and replace 3, which a box 4 holds and a kern 5 follows there, and of a kern 6 after the box.
fn box_and_kern(rt: &HostRuntime) -> Result<PlainHeap, Fail<Trouble>> {
    let mut heap = PlainHeap::new(rt.alloc(), 1)?;
    for kind in [
        Kind::Disc,
        Kind::Glyph,
        Kind::Glyph,
        Kind::Hlist,
        Kind::Kern,
        Kind::Kern,
    ] {
        heap.make(kind, 0)?;
    }
    link(&mut heap, 1, Field::Pre, Some(2))?;
    link(&mut heap, 1, Field::Replace, Some(3))?;
    link(&mut heap, 1, Field::Next, Some(5))?;
    link(&mut heap, 4, Field::List, Some(1))?;
    link(&mut heap, 4, Field::Next, Some(6))?;
    Ok(heap)
}

#[test]
fn a_tree_is_freed_without_what_follows_it(rt: HostRuntime) -> Result<(), test::Fail> {
    let mut heap = box_and_kern(&rt)?;
    assert_eq!(rt; length(&mut heap, Some(4)), Ok(2));
    assert_eq!(rt; free_tree(&mut heap, 4), Ok(()));
    assert_eq!(rt; heap.live(), 1);
    assert_eq!(rt; heap.kind_of(6), Ok((Kind::Kern, 0)));
    let mut heap = box_and_kern(&rt)?;
    assert_eq!(rt; flush_list(&mut heap, Some(4)), Ok(()));
    assert_eq!(rt; heap.live(), 0);
    Ok(())
}

#[test]
fn copies_are_numbered_in_the_order_of_the_walk(rt: HostRuntime) -> Result<(), test::Fail> {
    let mut heap = box_and_kern(&rt)?;
    let copy = copy_list(rt.alloc(), &mut heap, Some(4))?;
    assert_eq!(rt; copy, Some(7));
    leads(&rt, &heap, 7, Field::List, Some(8));
    leads(&rt, &heap, 7, Field::Next, Some(12));
    leads(&rt, &heap, 8, Field::Pre, Some(9));
    leads(&rt, &heap, 8, Field::Post, None);
    leads(&rt, &heap, 8, Field::Replace, Some(10));
    leads(&rt, &heap, 8, Field::Next, Some(11));
    leads(&rt, &heap, 12, Field::Next, None);
    leads(&rt, &heap, 4, Field::List, Some(1));
    leads(&rt, &heap, 4, Field::Next, Some(6));
    assert_eq!(rt; heap.live(), 12);
    assert_eq!(rt; flush_list(&mut heap, Some(7)), Ok(()));
    assert_eq!(rt; heap.live(), 6);
    assert_eq!(rt; copy_list(rt.alloc(), &mut heap, None), Ok(None));
    Ok(())
}

#[test]
fn a_tree_is_copied_without_what_follows_it(rt: HostRuntime) -> Result<(), test::Fail> {
    let mut heap = box_and_kern(&rt)?;
    link(&mut heap, 1, Field::Post, Some(6))?;
    link(&mut heap, 4, Field::Next, Some(2))?;
    assert_eq!(rt;
        copy_list(rt.alloc(), &mut heap, Some(4)),
        Err(Fail::Is(Trouble::Loop(2)))
    );
    let tree = copy_tree(rt.alloc(), &mut heap, 4)?;
    assert_eq!(rt; tree, 7);
    leads(&rt, &heap, 7, Field::List, Some(8));
    leads(&rt, &heap, 7, Field::Next, None);
    leads(&rt, &heap, 8, Field::Pre, Some(9));
    leads(&rt, &heap, 8, Field::Post, Some(10));
    leads(&rt, &heap, 8, Field::Replace, Some(11));
    leads(&rt, &heap, 8, Field::Next, Some(12));
    assert_eq!(rt; heap.kind_of(10), Ok((Kind::Kern, 0)));
    assert_eq!(rt; free_tree(&mut heap, 7), Ok(()));
    assert_eq!(rt; heap.live(), 6);
    link(&mut heap, 5, Field::Next, Some(4))?;
    assert_eq!(rt;
        copy_tree(rt.alloc(), &mut heap, 4),
        Err(Fail::Is(Trouble::Loop(4)))
    );
    Ok(())
}

#[test]
fn a_node_that_leads_to_itself_is_a_loop(rt: HostRuntime) -> Result<(), test::Fail> {
    let mut heap = PlainHeap::new(rt.alloc(), 1)?;
    let x = heap.make(Kind::Hlist, 0)?;
    link(&mut heap, x, Field::List, Some(x))?;
    assert!(rt;
        matches!(check(rt.alloc(), &mut heap, Some(x), ListKind::H), Err(Fail::Is(Trouble::Loop(n))) if n == x)
    );
    assert_eq!(rt; flush_list(&mut heap, Some(x)), Err(Trouble::Loop(x)));
    assert_eq!(rt;
        copy_list(rt.alloc(), &mut heap, Some(x)),
        Err(Fail::Is(Trouble::Loop(x)))
    );
    leads(&rt, &heap, x, Field::List, Some(x));
    assert_eq!(rt; heap.live(), 1);
    let g = heap.make(Kind::Glyph, 0)?;
    link(&mut heap, g, Field::Next, Some(g))?;
    assert_eq!(rt;
        copy_list(rt.alloc(), &mut heap, Some(g)),
        Err(Fail::Is(Trouble::Loop(g)))
    );
    let copy = copy_tree(rt.alloc(), &mut heap, g)?;
    assert_eq!(rt; copy, 3);
    leads(&rt, &heap, 3, Field::Next, None);
    leads(&rt, &heap, g, Field::Next, Some(g));
    Ok(())
}

#[test]
fn a_copy_has_numbers_and_attributes(rt: HostRuntime) -> Result<(), test::Fail> {
    let mut heap = PlainHeap::new(rt.alloc(), 1)?;
    let vlist = heap.make(Kind::Vlist, 3)?;
    heap.set(vlist, Field::Shift, FieldValue::Number(-7))
        .map_err(Fail::Is)?;
    heap.set_ratio(vlist, 2, 1, Ratio { num: 5, den: 9 })
        .map_err(Fail::Is)?;
    heap.set_attr(vlist, 4, 44)?;
    let copy = copy_tree(rt.alloc(), &mut heap, vlist)?;
    assert_eq!(rt; heap.kind_of(copy), Ok((Kind::Vlist, 3)));
    assert_eq!(rt; heap.get(copy, Field::Shift), Ok(FieldValue::Number(-7)));
    assert_eq!(rt; heap.get(copy, Field::GlueOrder), Ok(FieldValue::Number(1)));
    assert_eq!(rt; heap.get(copy, Field::GlueDen), Ok(FieldValue::Number(9)));
    heap.set_attr(vlist, 4, 45)?;
    assert_eq!(rt; heap.attr(copy, 4), Ok(Some(44)));
    Ok(())
}

/// A list of kerns, one after another, in a heap whose first name is given.
fn kerns(rt: &HostRuntime, first: u64, count: u64) -> Result<PlainHeap, Fail<Trouble>>
    requires { first < 2 ^ 48 }
{
    let mut heap = PlainHeap::new(rt.alloc(), first)?;
    let mut before = heap.make(Kind::Kern, 0)?;
    for _ in 1..count {
        let kern = heap.make(Kind::Kern, 0)?;
        link(&mut heap, before, Field::Next, Some(kern))?;
        before = kern;
    }
    Ok(heap)
}

#[test]
fn a_list_of_half_the_nodes_is_copied_and_freed(rt: HostRuntime) -> Result<(), test::Fail> {
    let half: u64 = 1 << 17;
    let mut heap = kerns(&rt, 1, half)?;
    assert_eq!(rt;
        copy_list(rt.alloc(), &mut heap, Some(1)),
        Ok(Some(half + 1))
    );
    assert_eq!(rt; length(&mut heap, Some(half + 1)), Ok(half));
    assert_eq!(rt; tail(&mut heap, half + 1), Ok(2 * half));
    assert_eq!(rt; flush_list(&mut heap, Some(1)), Ok(()));
    assert_eq!(rt; heap.live(), half);
    Ok(())
}

#[test]
fn an_unfinished_copy_is_freed_where_names_run_out(rt: HostRuntime) -> Result<(), test::Fail> {
    let first = (1 << 48) - 5;
    let mut heap = kerns(&rt, first, 3)?;
    assert_eq!(rt;
        copy_list(rt.alloc(), &mut heap, Some(first)),
        Err(Fail::Is(Trouble::NamesOut))
    );
    assert_eq!(rt; heap.live(), 3);
    assert_eq!(rt; length(&mut heap, Some(first)), Ok(3));
    assert_eq!(rt; heap.kind_of(first + 3), Err(Trouble::Stale(first + 3)));
    assert_eq!(rt; heap.make(Kind::Kern, 0), Err(Fail::Is(Trouble::NamesOut)));
    Ok(())
}

#[test]
fn an_unfinished_copy_is_freed_where_nodes_are_full(rt: HostRuntime) -> Result<(), test::Fail> {
    let most = 1 << 18;
    let mut heap = kerns(&rt, 1, most - 2)?;
    link(&mut heap, 3, Field::Next, None)?;
    assert_eq!(rt;
        copy_list(rt.alloc(), &mut heap, Some(1)),
        Err(Fail::Is(Trouble::NodesFull))
    );
    assert_eq!(rt; heap.live(), most - 2);
    assert_eq!(rt; heap.kind_of(most - 1), Err(Trouble::Stale(most - 1)));
    assert_eq!(rt; heap.make(Kind::Kern, 0), Ok(most + 1));
    Ok(())
}

/// A heap of as many hlists, each of which holds the next.
fn nested(rt: &HostRuntime, count: u64) -> Result<PlainHeap, Fail<Trouble>> {
    let mut heap = PlainHeap::new(rt.alloc(), 1)?;
    let mut outer = heap.make(Kind::Hlist, 0)?;
    for _ in 1..count {
        let inner = heap.make(Kind::Hlist, 0)?;
        link(&mut heap, outer, Field::List, Some(inner))?;
        outer = inner;
    }
    Ok(heap)
}

#[test]
fn boxes_nest_to_depth_100(rt: HostRuntime) -> Result<(), test::Fail> {
    let mut heap = nested(&rt, 101)?;
    let copy = copy_list(rt.alloc(), &mut heap, Some(1))?;
    assert_eq!(rt; copy, Some(102));
    leads(&rt, &heap, 102, Field::List, Some(103));
    leads(&rt, &heap, 201, Field::List, Some(202));
    leads(&rt, &heap, 202, Field::List, None);
    let mut heap = nested(&rt, 102)?;
    assert_eq!(rt;
        copy_list(rt.alloc(), &mut heap, Some(1)),
        Err(Fail::Is(Trouble::Nest))
    );
    assert_eq!(rt;
        copy_tree(rt.alloc(), &mut heap, 1),
        Err(Fail::Is(Trouble::Nest))
    );
    assert_eq!(rt; heap.live(), 102);
    assert_eq!(rt; heap.make(Kind::Kern, 0), Ok(103));
    Ok(())
}
