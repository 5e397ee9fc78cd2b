//! Paragraphs worked out by hand.

use super::paragraph::{is_in_range, paragraph};
use crate::{Breaks, break_items};
use ntx_item::{GlueParam, GlueSpec, Item, Param, Params};
use ntx_num::Size;
use std::alloc::Global;
use std::process::Abort;
use std::test;

/// What is wanted: the places, the pass, the demerits, and whether the artificial rule gave a line, and one beyond the threshold.
#[derive(Clone, Copy)]
struct Wanted {
    places: [u64; 3],
    pass: u8,
    demerits: i64,
    artificial: bool,
    last_resort: bool,
}

/// The breaks of items are as wanted. Fewer than three places are followed by 0.
fn breaks_are(
    rt: &impl Abort,
    alloc: Global,
    items: &[Item],
    params: &Params,
    wanted: &Wanted,
) -> Result<(), test::Fail> {
    assert!(rt; is_in_range(items));
    let Breaks {
        mut places,
        pass,
        demerits,
        artificial,
        last_resort,
    } = break_items(alloc, items, params)?;
    for _ in places.len()..3 {
        places.push(0)?;
    }
    assert!(rt; places.as_slice() == wanted.places.as_slice());
    assert!(rt; pass == wanted.pass);
    assert!(rt; demerits == wanted.demerits);
    assert!(rt; artificial == wanted.artificial);
    assert!(rt; last_resort == wanted.last_resort);
    Ok(())
}

/// The parameters that a row sets.
#[derive(Clone, Copy)]
struct Set {
    hsize: i64,
    pretolerance: i64,
    emergencystretch: i64,
}

/// The same of a paragraph that is written as letters.
fn check(
    rt: &impl Abort,
    alloc: Global,
    text: &str,
    set: &Set,
    wanted: &Wanted,
) -> Result<(), test::Fail> {
    let mut params = Params::plain();
    assert!(rt; params.put(Param::Hsize, set.hsize).is_ok());
    assert!(rt; params.put(Param::Pretolerance, set.pretolerance).is_ok());
    assert!(rt;
        params
            .put(Param::Emergencystretch, set.emergencystretch)
            .is_ok()
    );
    let items = paragraph(alloc, text)?;
    breaks_are(rt, alloc, &items, &params, wanted)
}

#[test]
fn words_and_hyphens_break(rt: HostRuntime) -> Result<(), test::Fail> {
    let table = [
        ("aa aa aa aaPi", 1_474_560, 100, 0, [6, 14, 0], 1, 200),
        ("Pi", 1_000_000, 100, 0, [3, 0, 0], 1, 100),
        ("aPi", 327_680, 100, 0, [4, 0, 0], 1, 100),
        ("a-aPi", 655_360, 100, 0, [6, 0, 0], 1, 100),
        ("aa aa aaPi", 1_529_173, 100, 0, [6, 11, 0], 1, 1_621),
        ("aa aa aaPi", 1_453_860, 100, 0, [6, 11, 0], 1, 629),
        ("aapaaPi", 655_360, 100, 0, [3, 8, 0], 1, 2_700),
        ("aaa-aaPi", 1_310_720, 100, 1, [4, 9, 0], 2, 7_700),
        ("aaa-aaa-aaPi", 1_310_720, 100, 1, [4, 8, 13], 2, 20_300),
    ];
    for (text, hsize, pretolerance, emergencystretch, places, pass, demerits) in table {
        let set = Set {
            hsize,
            pretolerance,
            emergencystretch,
        };
        let wanted = Wanted {
            places,
            pass,
            demerits,
            artificial: false,
            last_resort: false,
        };
        check(&rt, rt.alloc(), text, &set, &wanted)?;
    }
    Ok(())
}

#[test]
fn a_final_pass_breaks_what_is_left(rt: HostRuntime) -> Result<(), test::Fail> {
    let table = [
        (
            "aa aaa-aaaPi",
            2_129_920,
            100,
            0,
            [7, 13, 0],
            2,
            2_600,
            false,
        ),
        (
            "aa aaaaaaPi",
            2_129_920,
            100,
            1_474_560,
            [3, 12, 0],
            3,
            22_100,
            false,
        ),
        (
            "aaa-aaa-aaPi",
            1_310_720,
            100,
            0,
            [4, 8, 13],
            2,
            15_200,
            false,
        ),
        ("aPi", 327_680, -1, 0, [4, 0, 0], 2, 0, false),
        ("aaaaaaaPi", 2_129_920, 100, 0, [10, 0, 0], 2, 0, true),
        ("", 1_000_000, 100, 0, [1, 0, 0], 2, 0, true),
        ("aPi", 327_679, 100, 0, [4, 0, 0], 2, 0, true),
        ("aFaPi", 400_000, 100, 0, [2, 6, 0], 2, 0, true),
        ("aa-aaPi", 655_360, 100, 0, [3, 8, 0], 2, 0, true),
    ];
    for (
        text,
        hsize,
        pretolerance,
        emergencystretch,
        places,
        pass,
        demerits,
        last_resort,
    ) in table {
        let set = Set {
            hsize,
            pretolerance,
            emergencystretch,
        };
        let wanted = Wanted {
            places,
            pass,
            demerits,
            artificial: true,
            last_resort,
        };
        check(&rt, rt.alloc(), text, &set, &wanted)?;
    }
    Ok(())
}

/// A rule of this width.
fn rule(w: i64) -> Item {
    Item::Rule {
        size: Size { w, h: 1, d: 0 },
    }
}

#[test]
fn the_later_of_equal_lines_wins(rt: HostRuntime) -> Result<(), test::Fail> {
    let mut params = Params::plain();
    let skip = GlueSpec {
        width: 0,
        stretch: 100_000,
        stretch_order: 0,
        shrink: 100_000,
        shrink_order: 0,
    };
    assert!(rt; params.put(Param::Hsize, 1_000_000).is_ok());
    assert!(rt; params.put_glue(GlueParam::Leftskip, skip).is_ok());
    let free = Item::Penalty { p: 0 };
    let fill = Item::Glue {
        spec: GlueSpec {
            stretch: 65_536,
            stretch_order: 1,
            ..GlueSpec::default()
        },
    };
    let items = [
        rule(960_000),
        free,
        rule(80_000),
        free,
        rule(100_000),
        Item::Penalty { p: 10_000 },
        fill,
    ];
    let wanted = Wanted {
        places: [4, 8, 0],
        pass: 1,
        demerits: 356,
        artificial: false,
        last_resort: false,
    };
    breaks_are(&rt, rt.alloc(), &items, &params, &wanted)
}
