//! Worked examples of heaps and walks, and the fields of each kind at the ends of their ranges.

use crate::{
    Contents, Field, FieldValue, Fields, Kind, ListKind, Nodes, PlainHeap, Ratio, Trouble, Way,
    check, fields_follow_the_table, fuel_is_enough, make_current, make_filled, make_like, names_on,
    names_reached, steps_keep_heaps_lawful, visit_list, visit_on, walks_are_sound,
};
use ntx_num::Fail;
use std::process::Abort;
use std::test;

const KINDS: [Kind; 8] = [
    Kind::Hlist,
    Kind::Vlist,
    Kind::Rule,
    Kind::Disc,
    Kind::Glue,
    Kind::Kern,
    Kind::Penalty,
    Kind::Glyph,
];

const FIELDS: [Field; 22] = [
    Field::Subtype,
    Field::Next,
    Field::Width,
    Field::Height,
    Field::Depth,
    Field::Shift,
    Field::List,
    Field::GlueSign,
    Field::GlueOrder,
    Field::GlueNum,
    Field::GlueDen,
    Field::Pre,
    Field::Post,
    Field::Replace,
    Field::Stretch,
    Field::StretchOrder,
    Field::Shrink,
    Field::ShrinkOrder,
    Field::Kern,
    Field::Penalty,
    Field::Char,
    Field::Font,
];

/// What is expected of a field.
#[derive(Clone, Copy)]
enum Sort {
    /// Numbers between these.
    Range(i64, i64),
    /// This number, which cannot be set.
    Fixed(i64),
    /// Links.
    Linked,
    /// There is no such field.
    Missing,
}

/// The fields of each kind, beside subtype and next.
fn sort_of(kind: Kind, field: Field) -> Sort {
    let dimension = Sort::Range(-1073741823, 1073741823);
    match (kind, field) {
        (Kind::Disc, Field::Subtype) => Sort::Range(0, 3),
        (_, Field::Subtype) => Sort::Range(0, 255),
        (_, Field::Next) => Sort::Linked,
        (Kind::Hlist | Kind::Vlist, Field::Width | Field::Height | Field::Depth | Field::Shift) => {
            dimension
        }
        (Kind::Hlist | Kind::Vlist, Field::List) => Sort::Linked,
        (Kind::Hlist | Kind::Vlist, Field::GlueSign | Field::GlueOrder | Field::GlueNum) => {
            Sort::Fixed(0)
        }
        (Kind::Hlist | Kind::Vlist, Field::GlueDen) => Sort::Fixed(1),
        (Kind::Rule, Field::Width | Field::Height | Field::Depth) => dimension,
        (Kind::Disc, Field::Pre | Field::Post | Field::Replace) => Sort::Linked,
        (Kind::Glue, Field::Width | Field::Stretch | Field::Shrink) => dimension,
        (Kind::Glue, Field::StretchOrder | Field::ShrinkOrder) => Sort::Range(0, 3),
        (Kind::Kern, Field::Kern) => dimension,
        (Kind::Penalty, Field::Penalty) => Sort::Range(-2147483647, 2147483647),
        (Kind::Glyph, Field::Char) => Sort::Range(0, 255),
        (Kind::Glyph, Field::Font) => Sort::Range(0, 63),
        _ => Sort::Missing,
    }
}

/// Tries a field of a new node at the ends of its range and one past them.
fn try_field(rt: &impl Abort, heap: &mut PlainHeap, n: u64, field: Field, sort: Sort) {
    let number = FieldValue::Number;
    let link = FieldValue::Link;
    match sort {
        Sort::Range(low, high) => {
            for (value, fits) in [
                (low, true),
                (low.saturating_sub(1), false),
                (high, true),
                (high.saturating_add(1), false),
            ] {
                let want = if fits { Ok(()) } else { Err(Trouble::BadValue) };
                assert_eq!(rt;
                    heap.set(n, field, number(value)),
                    want,
                    "{field:?} {value}"
                );
            }
            assert_eq!(rt; heap.get(n, field), Ok(number(high)), "{field:?}");
            assert_eq!(rt;
                heap.set(n, field, link(None)),
                Err(Trouble::BadValue),
                "{field:?}"
            );
        }
        Sort::Fixed(value) => {
            assert_eq!(rt; heap.get(n, field), Ok(number(value)), "{field:?}");
            assert_eq!(rt;
                heap.set(n, field, number(value)),
                Err(Trouble::BadValue),
                "{field:?}"
            );
        }
        Sort::Linked => {
            assert_eq!(rt; heap.get(n, field), Ok(link(None)), "{field:?}");
            assert_eq!(rt;
                heap.set(n, field, number(0)),
                Err(Trouble::BadValue),
                "{field:?}"
            );
            assert_eq!(rt;
                heap.set(n, field, link(Some(77))),
                Err(Trouble::Stale(77)),
                "{field:?}"
            );
            assert_eq!(rt; heap.set(n, field, link(Some(n))), Ok(()), "{field:?}");
            assert_eq!(rt; heap.get(n, field), Ok(link(Some(n))), "{field:?}");
            assert_eq!(rt; heap.set(n, field, link(None)), Ok(()), "{field:?}");
        }
        Sort::Missing => {
            assert_eq!(rt; heap.get(n, field), Err(Trouble::NoField), "{field:?}");
            assert_eq!(rt;
                heap.set(n, field, number(0)),
                Err(Trouble::NoField),
                "{field:?}"
            );
        }
    }
}

#[test]
fn each_kind_has_its_fields(rt: HostRuntime) -> Result<(), test::Fail> {
    let mut heap = PlainHeap::new(rt.alloc(), 1)?;
    for kind in KINDS {
        let n = heap.make(kind, 0)?;
        assert_eq!(rt; heap.kind_of(n), Ok((kind, 0)));
        assert_eq!(rt; Kind::from_number(i64::from(kind.number())), Some(kind));
        for field in FIELDS {
            try_field(&rt, &mut heap, n, field, sort_of(kind, field));
        }
    }
    assert_eq!(rt; Kind::from_number(9), None);
    Ok(())
}

#[test]
fn the_last_name_is_given_and_no_more(rt: HostRuntime) -> Result<(), test::Fail> {
    let mut heap = PlainHeap::new(rt.alloc(), (1 << 48) - 1)?;
    let last = heap.make(Kind::Glyph, 0)?;
    assert_eq!(rt; last, (1 << 48) - 1);
    assert_eq!(rt; heap.make(Kind::Glyph, 0), Err(Fail::Is(Trouble::NamesOut)));
    assert_eq!(rt; heap.copy_one(last), Err(Fail::Is(Trouble::NamesOut)));
    assert_eq!(rt; heap.copy_one(5), Err(Fail::Is(Trouble::Stale(5))));
    assert_eq!(rt;
        heap.set_attr(last, 1, 1 << 31),
        Err(Fail::Is(Trouble::BadValue))
    );
    assert_eq!(rt;
        heap.set_current(65536, 0),
        Err(Fail::Is(Trouble::BadValue))
    );
    assert_eq!(rt; heap.unset_current(3), Ok(()));
    assert_eq!(rt; heap.unset_attr(5, 1), Err(Fail::Is(Trouble::Stale(5))));
    assert_eq!(rt; heap.same_attrs(5, 5), Err(Fail::Is(Trouble::Stale(5))));
    assert_eq!(rt; heap.wear_current(5), Err(Fail::Is(Trouble::Stale(5))));
    let nothing = check(rt.alloc(), &mut heap, None, ListKind::H)?;
    assert_eq!(rt; nothing.len(), 0);
    Ok(())
}

#[test]
fn a_copy_has_the_numbers_and_attributes_and_no_links(rt: HostRuntime) -> Result<(), test::Fail> {
    let mut heap = PlainHeap::new(rt.alloc(), 1)?;
    let hlist = heap.make(Kind::Hlist, 2)?;
    heap.set(hlist, Field::Width, FieldValue::Number(7))?;
    heap.set(hlist, Field::List, FieldValue::Link(Some(hlist)))?;
    heap.set_ratio(hlist, 1, 2, Ratio { num: 3, den: 4 })?;
    heap.set_attr(hlist, 1, 10)?;
    let copy = heap.copy_one(hlist)?;
    assert_eq!(rt; copy, 2);
    heap.set_attr(copy, 1, 20)?;
    assert_eq!(rt; heap.kind_of(copy), Ok((Kind::Hlist, 2)));
    assert_eq!(rt; heap.get(copy, Field::Width), Ok(FieldValue::Number(7)));
    assert_eq!(rt; heap.get(copy, Field::GlueOrder), Ok(FieldValue::Number(2)));
    assert_eq!(rt; heap.get(copy, Field::GlueDen), Ok(FieldValue::Number(4)));
    assert_eq!(rt; heap.get(copy, Field::List), Ok(FieldValue::Link(None)));
    assert_eq!(rt; heap.attr(hlist, 1), Ok(Some(10)));
    assert_eq!(rt; heap.attr(copy, 1), Ok(Some(20)));
    heap.same_attrs(copy, hlist)?;
    assert_eq!(rt; heap.attr(copy, 1), Ok(Some(10)));
    heap.unset_attr(copy, 1)?;
    assert_eq!(rt; heap.attr(copy, 1), Ok(None));
    heap.set_current(3, 30)?;
    heap.wear_current(copy)?;
    assert_eq!(rt; heap.attr(copy, 3), Ok(Some(30)));
    assert_eq!(rt; heap.free_one(hlist), Ok(()));
    assert_eq!(rt; heap.attr(hlist, 1), Err(Trouble::Stale(1)));
    assert_eq!(rt;
        heap.set_ratio(9, 0, 0, Ratio { num: 0, den: 1 }),
        Err(Trouble::Stale(9))
    );
    assert_eq!(rt; heap.live(), 1);
    assert_eq!(rt; heap.spare(Kind::Hlist), 0);
    heap.lawful();
    Ok(())
}

#[test]
fn made_nodes_have_their_fields_and_attributes(rt: HostRuntime) -> Result<(), test::Fail> {
    let mut heap = PlainHeap::new(rt.alloc(), 1)?;
    let fields = Fields {
        subtype: 1,
        next: None,
        contents: Contents::Kern(-7),
    };
    heap.set_current(3, 30)?;
    let bare = make_filled(&mut heap, fields)?;
    let current = make_current(&mut heap, fields)?;
    heap.unset_current(3)?;
    let like = make_like(&mut heap, fields, current)?;
    for (n, value) in [(bare, None), (current, Some(30)), (like, Some(30))] {
        assert_eq!(rt; heap.fields(n), Ok(fields));
        assert_eq!(rt; heap.attr(n, 3), Ok(value));
    }
    Ok(())
}

/// Puts a node into a box, as its list.
fn boxed(heap: &mut PlainHeap, inside: u64) -> Result<u64, Fail<Trouble>> {
    let outer = heap.make(Kind::Hlist, 0)?;
    heap.set(outer, Field::List, FieldValue::Link(Some(inside)))
        .map_err(Fail::Is)?;
    Ok(outer)
}

#[test]
fn a_node_that_two_boxes_share_is_a_loop(rt: HostRuntime) -> Result<(), test::Fail> {
    let mut heap = PlainHeap::new(rt.alloc(), 1)?;
    let rule = heap.make(Kind::Rule, 0)?;
    let x = boxed(&mut heap, rule)?;
    let y = boxed(&mut heap, rule)?;
    heap.set(x, Field::Next, FieldValue::Link(Some(y)))?;
    let flat = names_reached(rt.alloc(), &mut heap, Way::Flat, Some(x), ListKind::H)?;
    assert_eq!(rt; flat.as_slice(), [2, 3].as_slice());
    let shared = Err(Trouble::Loop(rule));
    assert_eq!(rt;
        visit_list(&mut heap, Way::Plain, Some(x), ListKind::H),
        shared
    );
    assert_eq!(rt;
        visit_list(&mut heap, Way::Flat, Some(x), ListKind::H),
        Ok(())
    );
    assert_eq!(rt;
        visit_on(&mut heap, Way::Flat, Some(y), 0, ListKind::H),
        Err(Trouble::Loop(y))
    );
    heap.set(y, Field::List, FieldValue::Link(None))?;
    let names = check(rt.alloc(), &mut heap, Some(x), ListKind::H)?;
    assert_eq!(rt; names.as_slice(), [2, 1, 3].as_slice());
    heap.begin_walk();
    let inner = names_on(
        rt.alloc(),
        &mut heap,
        Way::Plain,
        Some(x),
        1,
        ListKind::H,
        names,
    )?;
    assert_eq!(rt; inner.as_slice(), [2, 1, 3, 2, 1, 3].as_slice());
    walks_are_sound();
    fields_follow_the_table();
    steps_keep_heaps_lawful();
    fuel_is_enough();
    heap.set(x, Field::List, FieldValue::Link(Some(x)))?;
    let itself = check(rt.alloc(), &mut heap, Some(x), ListKind::H);
    assert!(rt; matches!(&itself, Err(Fail::Is(Trouble::Loop(2)))));
    heap.free_one(y)?;
    assert_eq!(rt;
        visit_list(&mut heap, Way::Flat, Some(x), ListKind::H),
        Err(Trouble::Stale(y))
    );
    Ok(())
}

#[test]
fn each_walk_visits_a_node_first_once(rt: HostRuntime) -> Result<(), test::Fail> {
    let mut heap = PlainHeap::new(rt.alloc(), 1)?;
    let kern = heap.make(Kind::Kern, 0)?;
    let glue = heap.make(Kind::Glue, 0)?;
    for _ in 0..4 {
        heap.begin_walk();
        for first in [true, false, false] {
            assert_eq!(rt; heap.visit(kern), Ok(first));
        }
    }
    assert_eq!(rt; heap.visit(glue), Ok(true));
    let later = heap.make(Kind::Kern, 0)?;
    let copy = heap.copy_one(kern)?;
    for n in [later, copy] {
        for first in [true, false] {
            assert_eq!(rt; heap.visit(n), Ok(first));
        }
    }
    heap.set(glue, Field::Width, FieldValue::Number(7))?;
    heap.set_attr(kern, 1, 10)?;
    for n in [kern, glue] {
        assert_eq!(rt; heap.visit(n), Ok(false));
    }
    heap.begin_walk();
    heap.begin_walk();
    heap.free_one(kern)?;
    assert_eq!(rt; heap.visit(kern), Err(Trouble::Stale(1)));
    for n in [glue, later, copy] {
        for first in [true, false] {
            assert_eq!(rt; heap.visit(n), Ok(first));
        }
    }
    Ok(())
}

#[test]
fn a_walk_enters_a_disc_before_it_goes_on(rt: HostRuntime) -> Result<(), test::Fail> {
    let mut heap = PlainHeap::new(rt.alloc(), 1)?;
    let disc = heap.make(Kind::Disc, 3)?;
    let next = heap.make(Kind::Glue, 0)?;
    heap.set(disc, Field::Next, FieldValue::Link(Some(next)))?;
    for field in [Field::Replace, Field::Post, Field::Pre] {
        let glyph = heap.make(Kind::Glyph, 0)?;
        heap.set(disc, field, FieldValue::Link(Some(glyph)))?;
    }
    let names = check(rt.alloc(), &mut heap, Some(disc), ListKind::H)?;
    assert_eq!(rt; names.as_slice(), [1, 5, 4, 3, 2].as_slice());
    let vertical = check(rt.alloc(), &mut heap, Some(disc), ListKind::V);
    assert!(rt; matches!(&vertical, Err(Fail::Is(Trouble::WrongKind(1)))));
    heap.set(disc, Field::Post, FieldValue::Link(Some(next)))?;
    let part = check(rt.alloc(), &mut heap, Some(disc), ListKind::H);
    assert!(rt; matches!(&part, Err(Fail::Is(Trouble::WrongKind(2)))));
    Ok(())
}

#[test]
fn lists_nest_to_depth_100(rt: HostRuntime) -> Result<(), test::Fail> {
    let mut heap = PlainHeap::new(rt.alloc(), 1)?;
    let mut head = heap.make(Kind::Rule, 0)?;
    for _ in 0..100 {
        head = boxed(&mut heap, head)?;
    }
    let names = check(rt.alloc(), &mut heap, Some(head), ListKind::H)?;
    assert_eq!(rt; names.len(), 101);
    head = boxed(&mut heap, head)?;
    let deeper = check(rt.alloc(), &mut heap, Some(head), ListKind::H);
    assert!(rt; matches!(&deeper, Err(Fail::Is(Trouble::Nest))));
    Ok(())
}

#[test]
fn a_node_has_64_attributes(rt: HostRuntime) -> Result<(), test::Fail> {
    let mut heap = PlainHeap::new(rt.alloc(), 1)?;
    let kern = heap.make(Kind::Kern, 0)?;
    for id in 0..64 {
        heap.set_attr(kern, id, -2147483646)?;
        heap.set_current(65535 - id, 2147483647)?;
    }
    assert_eq!(rt;
        heap.set_attr(kern, 64, 0),
        Err(Fail::Is(Trouble::AttrFull))
    );
    assert_eq!(rt; heap.set_current(0, 0), Err(Fail::Is(Trouble::AttrFull)));
    assert_eq!(rt; heap.set_attr(kern, 63, 0), Ok(()));
    assert_eq!(rt; heap.attr(kern, 63), Ok(Some(0)));
    assert_eq!(rt; heap.attr(kern, 64), Ok(None));
    Ok(())
}

#[test]
fn as_many_nodes_are_live_as_may_be(rt: HostRuntime) -> Result<(), test::Fail> {
    let mut heap = PlainHeap::new(rt.alloc(), 1)?;
    for _ in 0..1u64 << 18 {
        heap.make(Kind::Penalty, 0)?;
    }
    assert_eq!(rt; heap.live(), 1 << 18);
    assert_eq!(rt;
        heap.make(Kind::Penalty, 0),
        Err(Fail::Is(Trouble::NodesFull))
    );
    assert_eq!(rt; heap.copy_one(1), Err(Fail::Is(Trouble::NodesFull)));
    heap.free_one(1)?;
    let again = heap.make(Kind::Penalty, 0)?;
    assert_eq!(rt; again, (1 << 18) + 1);
    assert_eq!(rt; heap.get(1, Field::Penalty), Err(Trouble::Stale(1)));
    Ok(())
}

#[test]
fn a_list_of_all_nodes_that_may_be_is_checked(rt: HostRuntime) -> Result<(), test::Fail> {
    let most: u64 = 1 << 18;
    let mut heap = PlainHeap::new(rt.alloc(), 1)?;
    let mut last = heap.make(Kind::Penalty, 0)?;
    for _ in 1..most {
        let next = heap.make(Kind::Penalty, 0)?;
        heap.set(last, Field::Next, FieldValue::Link(Some(next)))?;
        last = next;
    }
    let names = check(rt.alloc(), &mut heap, Some(1), ListKind::H)?;
    assert_eq!(rt; names.len() as u64, most);
    assert_eq!(rt; names.last().copied(), Some(most));
    Ok(())
}
