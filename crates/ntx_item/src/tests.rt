use super::*;
use ntx_num::Size;
use std::process::Abort;

/// The greatest absolute value of most numbers.
const MOST: i64 = 100_000_000;

/// TeX's largest dimension.
const MAX: i64 = 1_073_741_823;

/// Sets `p` to `v`, which is in its range, and reads it.
fn takes(rt: &impl Abort, p: Param, v: i64) {
    let mut params = Params::plain();
    assert!(rt; p.accepts(v));
    assert!(rt; params.put(p, v).is_ok());
    assert!(rt; params.get(p) == v);
}

/// Sets `p` to `v`, which is outside its range, and finds its default.
fn refuses(rt: &impl Abort, p: Param, v: i64, default: i64) {
    let mut params = Params::plain();
    assert!(rt; !p.accepts(v));
    assert!(rt; params.put(p, v).is_err());
    assert!(rt; params.get(p) == default);
}

#[test]
fn numbers_have_defaults_and_ranges(rt: HostRuntime) {
    let table = [
        (Param::Pretolerance, 100, -MOST, MOST),
        (Param::Tolerance, 200, -MOST, MOST),
        (Param::Linepenalty, 10, -MOST, MOST),
        (Param::Hyphenpenalty, 50, -MOST, MOST),
        (Param::Exhyphenpenalty, 50, -MOST, MOST),
        (Param::Adjdemerits, 10_000, -MOST, MOST),
        (Param::Doublehyphendemerits, 10_000, -MOST, MOST),
        (Param::Finalhyphendemerits, 5_000, -MOST, MOST),
        (Param::Interlinepenalty, 0, -MOST, MOST),
        (Param::Clubpenalty, 150, -MOST, MOST),
        (Param::Widowpenalty, 150, -MOST, MOST),
        (Param::Brokenpenalty, 100, -MOST, MOST),
        (Param::Lefthyphenmin, 2, 1, 63),
        (Param::Righthyphenmin, 3, 1, 63),
        (Param::Hyphenchar, 45, -1, 255),
        (Param::Hsize, 30_785_863, -MAX, MAX),
        (Param::Emergencystretch, 0, -MAX, MAX),
        (Param::Parindent, 1_310_720, -MAX, MAX),
        (Param::Lineskiplimit, 0, -MAX, MAX),
    ];
    for (p, default, least, greatest) in table {
        takes(&rt, p, least);
        takes(&rt, p, greatest);
        refuses(&rt, p, least.wrapping_sub(1), default);
        refuses(&rt, p, greatest.wrapping_add(1), default);
    }
}

/// Finds `p` by its name.
fn is_named(rt: &impl Abort, p: Param, name: &str) {
    assert!(rt; p.name() == name);
    assert!(rt; Param::of_name(name.as_bytes()) == Some(p));
}

#[test]
fn numbers_have_names(rt: HostRuntime) {
    is_named(&rt, Param::Pretolerance, "pretolerance");
    is_named(&rt, Param::Tolerance, "tolerance");
    is_named(&rt, Param::Linepenalty, "linepenalty");
    is_named(&rt, Param::Hyphenpenalty, "hyphenpenalty");
    is_named(&rt, Param::Exhyphenpenalty, "exhyphenpenalty");
    is_named(&rt, Param::Adjdemerits, "adjdemerits");
    is_named(&rt, Param::Doublehyphendemerits, "doublehyphendemerits");
    is_named(&rt, Param::Finalhyphendemerits, "finalhyphendemerits");
    is_named(&rt, Param::Interlinepenalty, "interlinepenalty");
    is_named(&rt, Param::Clubpenalty, "clubpenalty");
    is_named(&rt, Param::Widowpenalty, "widowpenalty");
    is_named(&rt, Param::Brokenpenalty, "brokenpenalty");
    is_named(&rt, Param::Lefthyphenmin, "lefthyphenmin");
    is_named(&rt, Param::Righthyphenmin, "righthyphenmin");
    is_named(&rt, Param::Hyphenchar, "hyphenchar");
    is_named(&rt, Param::Hsize, "hsize");
    is_named(&rt, Param::Emergencystretch, "emergencystretch");
    is_named(&rt, Param::Parindent, "parindent");
    is_named(&rt, Param::Lineskiplimit, "lineskiplimit");
    assert!(rt; Param::of_name(b"Hsize").is_none());
}

/// Finds `g` by its name, with this default.
fn is_glue(rt: &impl Abort, g: GlueParam, name: &str, default: GlueSpec) {
    assert!(rt; g.name() == name);
    assert!(rt; GlueParam::of_name(name.as_bytes()) == Some(g));
    assert!(rt; Params::plain().get_glue(g) == default);
}

/// Glue that neither stretches nor shrinks.
fn rigid(width: i64) -> GlueSpec {
    GlueSpec {
        width,
        ..GlueSpec::default()
    }
}

#[test]
fn glues_have_names_and_defaults(rt: HostRuntime) {
    let fil = GlueSpec {
        stretch: 65_536,
        stretch_order: 1,
        ..GlueSpec::default()
    };
    is_glue(&rt, GlueParam::Baselineskip, "baselineskip", rigid(786_432));
    is_glue(&rt, GlueParam::Lineskip, "lineskip", rigid(65_536));
    is_glue(&rt, GlueParam::Topskip, "topskip", rigid(655_360));
    is_glue(&rt, GlueParam::Parskip, "parskip", rigid(0));
    is_glue(&rt, GlueParam::Leftskip, "leftskip", rigid(0));
    is_glue(&rt, GlueParam::Rightskip, "rightskip", rigid(0));
    is_glue(&rt, GlueParam::Parfillskip, "parfillskip", fil);
    assert!(rt; GlueParam::of_name(b"hsize").is_none());
}

/// Whether `topskip` takes this glue.
fn is_taken(width: i64, stretch: i64, stretch_order: u8, shrink: i64, shrink_order: u8) -> bool {
    let spec = GlueSpec {
        width,
        stretch,
        stretch_order,
        shrink,
        shrink_order,
    };
    Params::plain().put_glue(GlueParam::Topskip, spec).is_ok()
}

#[test]
fn glue_has_ranges(rt: HostRuntime) {
    assert!(rt; is_taken(-MAX, -MAX, 0, -MAX, 0));
    assert!(rt; is_taken(MAX, MAX, 3, MAX, 3));
    assert!(rt; !is_taken(MAX + 1, 0, 0, 0, 0));
    assert!(rt; !is_taken(-MAX - 1, 0, 0, 0, 0));
    assert!(rt; !is_taken(0, MAX + 1, 0, 0, 0));
    assert!(rt; !is_taken(0, -MAX - 1, 0, 0, 0));
    assert!(rt; !is_taken(0, 0, 4, 0, 0));
    assert!(rt; !is_taken(0, 0, 0, MAX + 1, 0));
    assert!(rt; !is_taken(0, 0, 0, -MAX - 1, 0));
    assert!(rt; !is_taken(0, 0, 0, 0, 4));
}

#[test]
fn glue_is_put_and_items_differ(rt: HostRuntime) {
    changes_stand_alone();
    parts_are_in_range();
    sums_add_over_parts();
    sums_are_bounded();
    let mut params = Params::plain();
    assert!(rt; rigid(1).is_in_range());
    assert!(rt; params.put_glue(GlueParam::Topskip, rigid(1)).is_ok());
    assert!(rt; params.topskip == rigid(1));
    assert!(rt; params.baselineskip == rigid(786_432));
    let size = Size { w: 1, h: 2, d: 3 };
    assert!(rt; Item::Glyph { size } != Item::Rule { size });
    assert!(rt; Item::Rule { size }.natural_width() == 1);
    let glue = Item::Glue {
        spec: GlueSpec {
            stretch: 5,
            stretch_order: 2,
            ..rigid(4)
        },
    };
    assert!(rt; glue.natural_width() == 4);
    assert!(rt; glue.amount_in(GlueChange::for_shortfall(0), 2) == 5);
    assert!(rt; glue.amount_in(GlueChange::for_shortfall(-1), 2) == 0);
    assert!(rt; PackTo::Exactly(1) != PackTo::Additional(1));
}
