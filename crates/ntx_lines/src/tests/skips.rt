//! Glue at the sides of lines, and attributes.

use super::compare::{Line, Wanted, fields_of, line_is, nodes_are};
use super::matter::{ZERO, broken, list_of, params_of};
use ntx_item::GlueSpec;
use ntx_nodes::{Contents, Nodes, PlainHeap};
use std::test;

#[test]
fn skips_shrink_finitely(rt: HostRuntime) -> Result<(), test::Fail> {
    let left = GlueSpec {
        width: 3,
        shrink: 1,
        shrink_order: 2,
        ..ZERO
    };
    let right = GlueSpec {
        width: 7,
        stretch: 1,
        stretch_order: 1,
        shrink: 2,
        shrink_order: 3,
    };
    let mut heap = PlainHeap::new(rt.alloc(), 1)?;
    let head = list_of(&mut heap, "r r")?;
    let params = params_of(110, left, right);
    let (head, count) = broken(rt.alloc(), &mut heap, &[], head, &params)?;
    assert!(rt; count == 2);
    let list = [
        Wanted::Glue(
            8,
            GlueSpec {
                shrink_order: 0,
                ..left
            },
        ),
        Wanted::Rule(100),
        Wanted::Glue(
            9,
            GlueSpec {
                shrink_order: 0,
                ..right
            },
        ),
    ];
    let line = Line {
        size: (110, 7, 2),
        glue: (0, 0, 0, 1),
        list: &list,
    };
    let at = line_is(&rt, &heap, Some(head), &line)?;
    let between = Wanted::Glue(
        2,
        GlueSpec {
            width: 786_423,
            ..ZERO
        },
    );
    let at = nodes_are(&rt, &heap, at, &[Wanted::Penalty(300), between])?;
    let at = line_is(&rt, &heap, at, &line)?;
    assert!(rt; at.is_none());
    Ok(())
}

#[test]
fn an_order_alone_makes_leftskip(rt: HostRuntime) -> Result<(), test::Fail> {
    let left = GlueSpec {
        shrink_order: 1,
        ..ZERO
    };
    let mut heap = PlainHeap::new(rt.alloc(), 1)?;
    let head = list_of(&mut heap, "r")?;
    let params = params_of(100, left, ZERO);
    let (head, _count) = broken(rt.alloc(), &mut heap, &[], head, &params)?;
    let list = [
        Wanted::Glue(8, ZERO),
        Wanted::Rule(100),
        Wanted::Glue(9, ZERO),
    ];
    let line = Line {
        size: (100, 7, 2),
        glue: (0, 0, 0, 1),
        list: &list,
    };
    line_is(&rt, &heap, Some(head), &line)?;
    Ok(())
}

#[test]
fn made_nodes_have_the_current_attributes(rt: HostRuntime) -> Result<(), test::Fail> {
    let mut heap = PlainHeap::new(rt.alloc(), 1)?;
    let head = list_of(&mut heap, "r r")?;
    heap.set_attr(2, 7, 20)?;
    heap.set_current(7, 30)?;
    let left = GlueSpec { width: 5, ..ZERO };
    let params = params_of(105, left, ZERO);
    let (head, _count) = broken(rt.alloc(), &mut heap, &[], head, &params)?;
    assert!(rt; head == 5);
    assert!(rt; heap.attr(1, 7) == Ok(None));
    assert!(rt; heap.attr(2, 7) == Ok(Some(20)));
    for n in 4..11 {
        assert!(rt; heap.attr(n, 7) == Ok(Some(30)));
    }
    let fields = fields_of(&heap, 10)?;
    assert!(rt; fields.subtype == 2);
    assert!(rt; fields.next == Some(9));
    assert!(rt; matches!(fields.contents, Contents::Glue(_)));
    Ok(())
}
