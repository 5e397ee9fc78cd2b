//! How badly lines fit.

use super::paragraph::{is_in_range, paragraph};
use crate::{Line, LineTotals, line};
use ntx_item::{GlueParam, GlueSpec, Item, Param, Params};
use ntx_num::Size;
use std::alloc::Global;
use std::process::Abort;
use std::test;

/// The line from one place to another is as wanted, taken anew and from totals.
fn fits(
    rt: &impl Abort,
    alloc: Global,
    items: &[Item],
    params: &Params,
    places: (u64, u64),
    extra: i64,
    wanted: (i64, i64, u8),
) -> Result<(), test::Fail> {
    let (from, to) = places;
    let (shortfall, b, class) = wanted;
    let wanted = Line {
        shortfall,
        b,
        class,
    };
    assert!(rt; is_in_range(items));
    assert!(rt; from < to);
    assert!(rt; to <= items.len() as u64 + 1);
    assert!(rt; 0 <= extra);
    assert!(rt; extra < 1_073_741_824);
    assert!(rt; line(items, params, from, to, extra) == wanted);
    let totals = LineTotals::new(alloc, items)?;
    assert!(rt; totals.line(items, params, from, to, extra) == wanted);
    Ok(())
}

/// The same of a paragraph that is written as letters.
fn check(
    rt: &impl Abort,
    alloc: Global,
    text: &str,
    places: (u64, u64),
    extra: i64,
    hsize: i64,
    wanted: (i64, i64, u8),
) -> Result<(), test::Fail> {
    let mut params = Params::plain();
    assert!(rt; params.put(Param::Hsize, hsize).is_ok());
    let items = paragraph(alloc, text)?;
    fits(rt, alloc, &items, &params, places, extra, wanted)
}

#[test]
fn lines_stretch_and_shrink(rt: HostRuntime) -> Result<(), test::Fail> {
    let table = [
        ("a", 0, 2, 0, 327_680, (0, 0, 2)),
        ("a", 0, 2, 0, 327_681, (1, 10_000, 0)),
        ("a", 0, 2, 0, 327_679, (-1, 10_001, 3)),
        ("a a", 0, 4, 0, 873_813, (0, 0, 2)),
        ("a a", 0, 4, 0, 923_814, (50_001, 9, 2)),
        ("a a", 0, 4, 0, 913_813, (40_000, 5, 2)),
        ("a a", 0, 4, 0, 983_039, (109_226, 100, 0)),
        ("a a", 0, 4, 0, 993_813, (120_000, 132, 0)),
        ("a a", 0, 4, 0, 843_813, (-30_000, 7, 2)),
        ("a a", 0, 4, 0, 837_405, (-36_408, 12, 2)),
        ("a a", 0, 4, 0, 800_995, (-72_818, 100, 3)),
        ("a a", 0, 4, 0, 800_994, (-72_819, 10_001, 3)),
        ("a a", 0, 2, 0, 327_680, (0, 0, 2)),
        ("a a", 2, 4, 0, 327_680, (0, 0, 2)),
        ("a  a", 2, 5, 0, 327_680, (0, 0, 2)),
        ("a kpa", 2, 6, 0, 327_680, (0, 0, 2)),
        ("a na", 2, 5, 0, 309_475, (0, 0, 2)),
        ("a n a", 2, 6, 0, 855_608, (327_680, 2_698, 0)),
        ("a-a", 0, 2, 0, 546_133, (0, 0, 2)),
        ("a-a", 2, 4, 0, 327_680, (0, 0, 2)),
    ];
    for (text, from, to, extra, hsize, wanted) in table {
        check(&rt, rt.alloc(), text, (from, to), extra, hsize, wanted)?;
    }
    Ok(())
}

#[test]
fn breaks_discard_and_discretionaries_show(rt: HostRuntime) -> Result<(), test::Fail> {
    let table = [
        ("a- a", 2, 5, 0, 327_680, (0, 0, 2)),
        ("a=a", 0, 2, 0, 327_680, (0, 0, 2)),
        ("a=a", 2, 4, 0, 655_360, (0, 0, 2)),
        ("a= a", 2, 5, 0, 873_813, (0, 0, 2)),
        ("ada", 0, 4, 0, 851_968, (0, 0, 2)),
        ("ada", 0, 2, 0, 393_216, (0, 0, 2)),
        ("ada", 2, 4, 0, 458_752, (0, 0, 2)),
        ("ad ka", 2, 6, 0, 808_277, (0, 0, 2)),
        ("aiPa", 0, 5, 0, 10_000_000, (9_344_640, 0, 2)),
        ("aij", 0, 4, 0, 400_000, (72_320, 10_000, 0)),
        ("aij", 0, 4, 65_536, 400_000, (72_320, 133, 0)),
        ("a", 0, 2, 100_000, 427_680, (100_000, 100, 0)),
        ("a", 0, 2, 1_663_497, 7_558_265, (7_230_585, 8_189, 0)),
        ("a", 0, 2, 1_663_496, 7_558_265, (7_230_585, 10_000, 0)),
        ("a", 0, 2, 1_663_496, 7_558_264, (7_230_584, 8_189, 0)),
        ("as", 0, 3, 0, 300_000, (-27_680, 7, 2)),
        ("aa aa aa aaPi", 0, 6, 0, 1_474_560, (-54_613, 42, 3)),
        ("aa aa aa aaPi", 6, 14, 0, 1_474_560, (-54_613, 42, 3)),
        (
            "aa aa aa aaPi",
            0,
            14,
            0,
            1_474_560,
            (-1_802_239, 10_001, 3),
        ),
        ("a p", 2, 4, 0, 100, (100, 10_000, 0)),
        ("a p", 2, 3, 0, 0, (0, 0, 2)),
    ];
    for (text, from, to, extra, hsize, wanted) in table {
        check(&rt, rt.alloc(), text, (from, to), extra, hsize, wanted)?;
    }
    Ok(())
}

/// A rule of this width.
fn rule(w: i64) -> Item {
    Item::Rule {
        size: Size { w, h: 1, d: 0 },
    }
}

#[test]
fn skips_stretch_and_shrink_each_line(rt: HostRuntime) -> Result<(), test::Fail> {
    let mut params = Params::plain();
    let skip = GlueSpec {
        width: 0,
        stretch: 100_000,
        stretch_order: 0,
        shrink: 100_000,
        shrink_order: 0,
    };
    assert!(rt; params.put(Param::Hsize, 1_000_000).is_ok());
    assert!(rt; params.put_glue(GlueParam::Leftskip, skip).is_ok());
    let free = Item::Penalty { p: 0 };
    let fill = Item::Glue {
        spec: GlueSpec {
            stretch: 65_536,
            stretch_order: 1,
            ..GlueSpec::default()
        },
    };
    let items = [
        rule(960_000),
        free,
        rule(80_000),
        free,
        rule(100_000),
        Item::Penalty { p: 10_000 },
        fill,
    ];
    let table = [
        ((0, 2), (40_000, 6, 2)),
        ((0, 4), (-40_000, 6, 2)),
        ((2, 4), (920_000, 10_000, 0)),
        ((2, 8), (820_000, 0, 2)),
        ((4, 8), (900_000, 0, 2)),
        ((0, 8), (-140_000, 10_001, 3)),
    ];
    for (places, wanted) in table {
        fits(&rt, rt.alloc(), &items, &params, places, 0, wanted)?;
    }
    Ok(())
}
