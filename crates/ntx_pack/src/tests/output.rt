//! Glue in output, and items alone.

use super::lists::{shrink, stretch, vertical};
use crate::*;
use ntx_item::{GlueSpec, Item, Params};
use ntx_nodes::{ListKind, PlainHeap};
use ntx_num::Size;
use ntx_tfm::Font;
use ntx_view::items;
use std::process::Abort;
use std::test;

/// The size in output of the next glue, whose numbers are small.
fn next_size(rt: &impl Abort, setter: &mut GlueSetter, spec: GlueSpec) -> i64 {
    assert!(rt; spec.width.unsigned_abs() < 1000);
    assert!(rt; spec.stretch.unsigned_abs() < 1000);
    assert!(rt; spec.shrink.unsigned_abs() < 1000);
    assert!(rt; setter.total.unsigned_abs() < 1000);
    setter.next_size(&spec)
}

#[test]
fn glue_is_rounded_up_to_a_place(rt: HostRuntime) {
    let mut setter = GlueSetter::new(GlueSet {
        sign: 1,
        order: 0,
        num: 70,
        den: 3,
    });
    assert!(rt; next_size(&rt, &mut setter, stretch(0, 1, 0)) == 23);
    assert!(rt; next_size(&rt, &mut setter, stretch(0, 1, 0)) == 24);
    assert!(rt; next_size(&rt, &mut setter, stretch(5, 1, 1)) == 5);
    assert!(rt; next_size(&rt, &mut setter, stretch(0, 1, 0)) == 23);
}

#[test]
fn glue_of_an_overfull_box(rt: HostRuntime) {
    let mut setter = GlueSetter::new(GlueSet {
        sign: 2,
        order: 0,
        num: 1,
        den: 1,
    });
    assert!(rt; next_size(&rt, &mut setter, shrink(100, 10, 0)) == 90);
    assert!(rt; next_size(&rt, &mut setter, stretch(7, 10, 0)) == 7);
}

#[test]
fn glue_between_boxes_keeps_baselines_apart(rt: HostRuntime) {
    let params = Params::plain();
    let far = interline_glue(&params, 131_072, 458_752);
    assert!(rt; far.width == 196_608);
    assert!(rt; far.stretch == 0 && far.shrink == 0);
    assert!(rt; interline_glue(&params, 327_680, 458_752).width == 0);
    assert!(rt; interline_glue(&params, 327_681, 458_752).width == 65_536);
}

#[test]
fn items_are_measured_alone(rt: HostRuntime) -> Result<(), test::Fail> {
    vertical_lists_stack();
    boxes_are_sized();
    natural_boxes_are_unset();
    set_sizes_add_up();
    set_sizes_grow();
    boxes_are_filled();
    overfull_boxes_shrink_fully();
    other_sizes_stay();
    totals_stay_bounded();
    boxes_hold_their_lists();
    let mut nodes = PlainHeap::new(rt.alloc(), 1)?;
    let list = vertical(&mut nodes)?;
    let fonts: [Font; 0] = [];
    let seen = items(rt.alloc(), &mut nodes, &fonts, list.head, ListKind::V)?;
    assert!(rt; vlist_size(&seen) == Size { w: 27, h: 36, d: 5 });
    let top = Size { w: 1, h: 2, d: 3 };
    let below = Item::Kern { w: 4, font: false };
    assert!(rt; stacked(top, &below) == Size { w: 1, h: 9, d: 0 });
    let (glue, badness) = set_glue(&seen, 10);
    assert!(rt;
        glue == GlueSet {
            sign: 1,
            order: 0,
            num: 10,
            den: 5
        }
    );
    assert!(rt; badness == 800);
    Ok(())
}
