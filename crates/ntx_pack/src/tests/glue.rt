//! How glue is set, and how bad that is.

use super::lists::{EMPTY, set_of, shrink, stretch};
use crate::hpack;
use ntx_item::{GlueSpec, PackTo};
use ntx_nodes::{PlainHeap, Trouble};
use ntx_num::Fail;
use std::alloc::Global;
use std::process::Abort;
use std::test;

/// Packs these glues as an hlist, and compares how the glue is set and the badness.
fn packs(
    rt: &impl Abort,
    alloc: Global,
    specs: &[GlueSpec],
    to: PackTo,
    set: (i64, i64, i64, i64),
    badness: i64,
) -> Result<(), Fail<Trouble>> {
    let mut nodes = PlainHeap::new(alloc, 1)?;
    let mut list = EMPTY;
    for spec in specs {
        list.glue(&mut nodes, *spec)?;
    }
    let (n, bad) = hpack(alloc, &mut nodes, &[], list.head, to)?;
    assert!(rt; set_of(&nodes, n) == set);
    assert!(rt; bad == badness);
    Ok(())
}

#[test]
fn highest_order_stretches(rt: HostRuntime) -> Result<(), test::Fail> {
    let a = rt.alloc();
    let three = [stretch(0, 1, 0), stretch(0, 1, 1), stretch(0, 1, 2)];
    packs(&rt, a, &three, PackTo::Exactly(10), (1, 2, 10, 1), 0)?;
    let last = [stretch(0, 1, 3), stretch(0, 7, 0)];
    packs(&rt, a, &last, PackTo::Additional(10), (1, 3, 10, 1), 0)?;
    let gone = [stretch(0, 5, 1), stretch(0, -5, 1), stretch(0, 2, 0)];
    packs(&rt, a, &gone, PackTo::Exactly(4), (1, 0, 4, 2), 800)?;
    Ok(())
}

#[test]
fn glue_shrinks_by_all_it_can(rt: HostRuntime) -> Result<(), test::Fail> {
    let a = rt.alloc();
    let one = [shrink(100, 10, 0)];
    packs(&rt, a, &one, PackTo::Exactly(95), (2, 0, 5, 10), 12)?;
    packs(&rt, a, &one, PackTo::Exactly(90), (2, 0, 10, 10), 100)?;
    packs(&rt, a, &one, PackTo::Exactly(80), (2, 0, 1, 1), 1_000_000)?;
    let fil = [shrink(100, 10, 0), shrink(0, 4, 1)];
    packs(&rt, a, &fil, PackTo::Exactly(80), (2, 1, 20, 4), 0)?;
    Ok(())
}

#[test]
fn signs_of_negative_totals_change(rt: HostRuntime) -> Result<(), test::Fail> {
    let a = rt.alloc();
    packs(
        &rt,
        a,
        &[stretch(0, -5, 0)],
        PackTo::Exactly(10),
        (1, 0, -10, 5),
        10_000,
    )?;
    packs(
        &rt,
        a,
        &[stretch(0, -5, 1)],
        PackTo::Exactly(10),
        (1, 1, -10, 5),
        0,
    )?;
    packs(
        &rt,
        a,
        &[shrink(0, -5, 0)],
        PackTo::Exactly(-2),
        (2, 0, 1, 1),
        1_000_000,
    )?;
    packs(
        &rt,
        a,
        &[shrink(0, -5, 2)],
        PackTo::Exactly(-10),
        (2, 2, -10, 5),
        0,
    )?;
    Ok(())
}

#[test]
fn glue_is_not_set_without_a_total(rt: HostRuntime) -> Result<(), test::Fail> {
    let a = rt.alloc();
    let rigid = [stretch(10, 0, 3)];
    packs(&rt, a, &rigid, PackTo::Exactly(10), (0, 0, 0, 1), 0)?;
    packs(&rt, a, &rigid, PackTo::Exactly(20), (0, 0, 0, 1), 10_000)?;
    packs(&rt, a, &rigid, PackTo::Exactly(5), (0, 0, 0, 1), 1_000_000)?;
    packs(&rt, a, &[], PackTo::Exactly(5), (0, 0, 0, 1), 0)?;
    packs(&rt, a, &[], PackTo::Exactly(-5), (0, 0, 0, 1), 0)?;
    packs(
        &rt,
        a,
        &[stretch(3, 4, 1)],
        PackTo::Additional(0),
        (0, 0, 0, 1),
        0,
    )?;
    Ok(())
}
