//! Paragraphs written as letters, one for each node, and how they are broken.

ghost use Rattle.std.specs.Prelude.{◌≤◌};
ghost use Rattle.ntx_nodes.specs.Fields.{last_subtype};

use crate::lines;
use ntx_breaks::break_items;
use ntx_item::{GlueParam, GlueSpec, Param, Params};
use ntx_nodes::{Field, FieldValue, Kind, ListKind, Nodes, PlainHeap, Trouble};
use ntx_num::Fail;
use ntx_tfm::Font;
use ntx_view::items;
use std::alloc::{AllocError, Global};

/// A font with the character `a` alone, 327680 wide and 286720 high at its design size of 10 points.
pub fn small_font(alloc: Global) -> Result<Vec<u8>, AllocError> {
    let mut out = Vec::new(alloc);
    for n in [15u16, 2, 97, 97, 2, 2, 1, 1, 0, 0, 0, 0] {
        out.extend_from_slice(&n.to_be_bytes())?;
    }
    for word in [
        0u32,
        0x00a0_0000,
        0x0110_0000,
        0,
        0x0008_0000,
        0,
        0x0007_0000,
        0,
        0,
    ] {
        out.extend_from_slice(&word.to_be_bytes())?;
    }
    Ok(out)
}

/// Sets a field.
pub fn set(heap: &mut PlainHeap, n: u64, f: Field, v: FieldValue) -> Result<(), Fail<Trouble>> {
    match heap.set(n, f, v) {
        Ok(()) => Ok(()),
        Err(why) => Err(Fail::Is(why)),
    }
}

/// Makes a node with these numbers.
fn node(
    heap: &mut PlainHeap,
    kind: Kind,
    subtype: u8,
    values: &[(Field, i64)],
) -> Result<u64, Fail<Trouble>>
    requires { subtype ≤ last_subtype kind }
{
    let n = heap.make(kind, subtype)?;
    for (f, v) in values {
        set(heap, n, *f, FieldValue::Number(*v))?;
    }
    Ok(n)
}

/// Makes a rule of this width, 7 high and 2 deep.
fn rule(heap: &mut PlainHeap, width: i64) -> Result<u64, Fail<Trouble>> {
    let size = [(Field::Width, width), (Field::Height, 7), (Field::Depth, 2)];
    node(heap, Kind::Rule, 0, &size)
}

/// Makes a glue.
fn glue(heap: &mut PlainHeap, subtype: u8, spec: GlueSpec) -> Result<u64, Fail<Trouble>> {
    let numbers = [
        (Field::Width, spec.width),
        (Field::Stretch, spec.stretch),
        (Field::StretchOrder, i64::from(spec.stretch_order)),
        (Field::Shrink, spec.shrink),
        (Field::ShrinkOrder, i64::from(spec.shrink_order)),
    ];
    node(heap, Kind::Glue, subtype, &numbers)
}

/// Makes an explicit discretionary. Of each list that it has, there is one rule of this width.
fn disc(heap: &mut PlainHeap, parts: &[(Field, i64)]) -> Result<u64, Fail<Trouble>> {
    let n = heap.make(Kind::Disc, 1)?;
    for (f, width) in parts {
        let part = rule(heap, *width)?;
        set(heap, n, *f, FieldValue::Link(Some(part)))?;
    }
    Ok(n)
}

/// Makes the node that a letter is written for: `r`, `s`, `t`, `u` rules 100, 90, 97 and 80 wide; a space, a glue of 10 plus 5 minus 5;
/// `w` a glue of a font; `f` parfillskip; `k` an explicit kern of 7 and `n` one of a font of 3; `p`, `P` and `F` penalties of 50, 10000 and
/// -10000; `a` a glyph; `-`, `=` and `e` discretionaries: with 10 before a break, with 10 before and after and 20 without one, and
/// with nothing.
fn letter(heap: &mut PlainHeap, letter: u8) -> Result<u64, Fail<Trouble>> {
    match letter {
        b'r' => rule(heap, 100),
        b's' => rule(heap, 90),
        b't' => rule(heap, 97),
        b'u' => rule(heap, 80),
        b' ' => glue(heap, 0, SPACE),
        b'w' => glue(heap, 13, FONT_SPACE),
        b'f' => glue(heap, 15, FILL),
        b'k' => node(heap, Kind::Kern, 1, &[(Field::Kern, 7)]),
        b'n' => node(heap, Kind::Kern, 0, &[(Field::Kern, 3)]),
        b'p' => node(heap, Kind::Penalty, 0, &[(Field::Penalty, 50)]),
        b'P' => node(heap, Kind::Penalty, 0, &[(Field::Penalty, 10_000)]),
        b'F' => node(heap, Kind::Penalty, 0, &[(Field::Penalty, -10_000)]),
        b'a' => node(heap, Kind::Glyph, 0, &[(Field::Char, 97)]),
        b'-' => disc(heap, &[(Field::Pre, 10)]),
        b'=' => disc(
            heap,
            &[(Field::Pre, 10), (Field::Post, 10), (Field::Replace, 20)],
        ),
        _ => disc(heap, &[]),
    }
}

/// A glue of 10 plus 5 minus 5.
pub const SPACE: GlueSpec = GlueSpec {
    width: 10,
    stretch: 5,
    stretch_order: 0,
    shrink: 5,
    shrink_order: 0,
};

/// A glue of 163840 plus 81920 minus 40960.
pub const FONT_SPACE: GlueSpec = GlueSpec {
    width: 163_840,
    stretch: 81_920,
    stretch_order: 0,
    shrink: 40_960,
    shrink_order: 0,
};

/// A glue of 0 plus 65536 of order 1.
pub const FILL: GlueSpec = GlueSpec {
    width: 0,
    stretch: 65_536,
    stretch_order: 1,
    shrink: 0,
    shrink_order: 0,
};

/// A glue of zeros.
pub const ZERO: GlueSpec = GlueSpec {
    width: 0,
    stretch: 0,
    stretch_order: 0,
    shrink: 0,
    shrink_order: 0,
};

/// Makes a list, and gives its head.
pub fn list_of(heap: &mut PlainHeap, text: &str) -> Result<u64, Fail<Trouble>> {
    let mut head = None;
    let mut last = None;
    for byte in text.bytes() {
        let n = letter(heap, byte)?;
        if let Some(last) = last {
            set(heap, last, Field::Next, FieldValue::Link(Some(n)))?;
        }
        head = head.or(Some(n));
        last = Some(n);
    }
    Ok(head.unwrap_or(0))
}

/// The defaults with this `hsize` and these glues at the sides of lines.
pub fn params_of(hsize: i64, left: GlueSpec, right: GlueSpec) -> Params {
    let mut params = Params::plain();
    let _set = params.put(Param::Hsize, hsize);
    let _set = params.put_glue(GlueParam::Leftskip, left);
    let _set = params.put_glue(GlueParam::Rightskip, right);
    params
}

/// Breaks the list at a head, and makes its lines.
pub fn broken(
    alloc: Global,
    heap: &mut PlainHeap,
    fonts: &[Font],
    head: u64,
    params: &Params,
) -> Result<(u64, u64), Fail<Trouble>> {
    let items = items(alloc, heap, fonts, Some(head), ListKind::H)?;
    let breaks = break_items(alloc, &items, params)?;
    lines(alloc, heap, fonts, head, &breaks, params)
}
