//! Boxes to be placed and shipped, and the file that they go to.

ghost use Rattle.std.specs.Prelude.{◌<◌, ◌^◌, ℕ, Option, IfOk};
ghost use Rattle.ntx_tfm.specs.declared.def.FontDef.{FontDef};
ghost use Rattle.ntx_dvi.specs.Fonts.{AreKnown};
ghost use Rattle.ntx_dvi.specs.Writer.{IsBetweenPages};

use ntx_dvi::{Dvi, DviFull};
use ntx_item::PackTo;
use ntx_nodes::{Field, FieldValue, Kind, Nodes, PlainHeap, Trouble};
use ntx_num::Fail;
use ntx_pack::{hpack, vpack};
use ntx_tfm::Font;
use std::alloc::{AllocError, Global};

/// A node of a list.
#[derive(Clone, Copy)]
pub enum Part {
    /// A rule of this width, height and depth.
    Rule(i64, i64, i64),
    /// A kern.
    Kern(i64),
    /// Finite glue of this width, stretch and shrink.
    Glue(i64, i64, i64),
    /// The character 97 of the font of this number.
    Letter(i64),
    /// A node that is there.
    Node(u64),
}

/// Puts a value into a field.
fn put(nodes: &mut PlainHeap, n: u64, field: Field, v: FieldValue) -> Result<(), Fail<Trouble>> {
    match nodes.set(n, field, v) {
        Ok(()) => Ok(()),
        Err(why) => Err(Fail::Is(why)),
    }
}

/// Makes a node with these numbers.
fn make(nodes: &mut PlainHeap, kind: Kind, fields: &[(Field, i64)]) -> Result<u64, Fail<Trouble>> {
    let n = nodes.make(kind, 0)?;
    for (field, value) in fields {
        put(nodes, n, *field, FieldValue::Number(*value))?;
    }
    Ok(n)
}

/// The node of a part.
fn node(nodes: &mut PlainHeap, part: Part) -> Result<u64, Fail<Trouble>> {
    match part {
        Part::Rule(w, h, d) => {
            let fields = [(Field::Width, w), (Field::Height, h), (Field::Depth, d)];
            make(nodes, Kind::Rule, &fields)
        }
        Part::Kern(w) => make(nodes, Kind::Kern, &[(Field::Kern, w)]),
        Part::Glue(w, stretch, shrink) => {
            let fields = [
                (Field::Width, w),
                (Field::Stretch, stretch),
                (Field::Shrink, shrink),
            ];
            make(nodes, Kind::Glue, &fields)
        }
        Part::Letter(font) => make(
            nodes,
            Kind::Glyph,
            &[(Field::Char, 97), (Field::Font, font)],
        ),
        Part::Node(n) => Ok(n),
    }
}

/// A list of these nodes. They are made from the last to the first.
fn list(nodes: &mut PlainHeap, parts: &[Part]) -> Result<Option<u64>, Fail<Trouble>> {
    let mut next = None;
    for part in parts.iter().rev() {
        let n = node(nodes, *part)?;
        put(nodes, n, Field::Next, FieldValue::Link(next))?;
        next = Some(n);
    }
    Ok(next)
}

/// These nodes packed into an hlist.
pub fn hbox(
    alloc: Global,
    nodes: &mut PlainHeap,
    fonts: &[Font],
    parts: &[Part],
    to: PackTo,
) -> Result<u64, Fail<Trouble>> {
    let head = list(nodes, parts)?;
    Ok(hpack(alloc, nodes, fonts, head, to)?.0)
}

/// These nodes packed into a vlist.
pub fn vbox(
    alloc: Global,
    nodes: &mut PlainHeap,
    fonts: &[Font],
    parts: &[Part],
    to: PackTo,
) -> Result<u64, Fail<Trouble>> {
    let head = list(nodes, parts)?;
    Ok(vpack(alloc, nodes, fonts, head, to)?.0)
}

/// Moves a box.
pub fn shift(nodes: &mut PlainHeap, n: u64, by: i64) -> Result<(), Fail<Trouble>> {
    put(nodes, n, Field::Shift, FieldValue::Number(by))
}

/// Makes a discretionary with a letter that stands where there is no break.
pub fn disc(nodes: &mut PlainHeap) -> Result<u64, Fail<Trouble>> {
    let letter = node(nodes, Part::Letter(0))?;
    let n = nodes.make(Kind::Disc, 0)?;
    put(nodes, n, Field::Replace, FieldValue::Link(Some(letter)))?;
    Ok(n)
}

/// A file of at most so many bytes, which begins with its preamble.
pub fn begun(alloc: Global, limit: u64) -> Result<Dvi, Fail<DviFull>>
    requires { limit < 2 ^ 31 }
    ensures between { IfOk result (λ dvi. IsBetweenPages dvi) }
    ensures known { (known : ℕ → Option FontDef) → IfOk result (λ dvi. AreKnown dvi.progress.fonts known) }
{
    let mut dvi = Dvi::new(alloc, limit)?;
    dvi.begin()?;
    Ok(dvi)
}

/// The bytes of a font with the character `a` alone, 327680 wide and 286720 high at its design size of 10 points.
pub fn letter_font(alloc: Global) -> Result<Vec<u8>, AllocError> {
    let mut bytes = Vec::new(alloc);
    for n in [15u16, 2, 97, 97, 2, 2, 1, 1, 0, 0, 0, 0] {
        bytes.extend_from_slice(&n.to_be_bytes())?;
    }
    let words = [0u32, 0xa0_0000, 0x110_0000, 0, 0x8_0000, 0, 0x7_0000, 0, 0];
    for word in words {
        bytes.extend_from_slice(&word.to_be_bytes())?;
    }
    Ok(bytes)
}
