//! Lists to be packed.

use ntx_item::GlueSpec;
use ntx_nodes::{Field, FieldValue, Kind, Nodes, PlainHeap, Trouble};
use ntx_num::{Fail, Size};
use std::alloc::{AllocError, Global};

/// A font with the character `a` alone, 327680 wide and 286720 high at its design size of 10 points.
pub fn small_font(alloc: Global) -> Result<Vec<u8>, AllocError> {
    let mut out = Vec::new(alloc);
    for n in [15u16, 2, 97, 97, 2, 2, 1, 1, 0, 0, 0, 0] {
        out.extend_from_slice(&n.to_be_bytes())?;
    }
    for word in [
        0u32,
        0x00a0_0000,
        0x0110_0000,
        0,
        0x0008_0000,
        0,
        0x0007_0000,
        0,
        0,
    ] {
        out.extend_from_slice(&word.to_be_bytes())?;
    }
    Ok(out)
}

/// Puts a node after another, or into its field.
pub fn join(nodes: &mut PlainHeap, n: u64, field: Field, to: u64) -> Result<(), Fail<Trouble>> {
    match nodes.set(n, field, FieldValue::Link(Some(to))) {
        Ok(()) => Ok(()),
        Err(why) => Err(Fail::Is(why)),
    }
}

/// A list under construction.
#[derive(Clone, Copy)]
pub struct List {
    /// Its first node.
    pub head: Option<u64>,
    last: Option<u64>,
}

/// A list with nothing in it.
pub const EMPTY: List = List {
    head: None,
    last: None,
};

impl List {
    /// Makes a node with these numbers in its fields at the end.
    pub fn add(
        &mut self,
        nodes: &mut PlainHeap,
        kind: Kind,
        fields: &[(Field, i64)],
    ) -> Result<u64, Fail<Trouble>> {
        let n = nodes.make(kind, 0)?;
        for (field, value) in fields {
            if let Err(why) = nodes.set(n, *field, FieldValue::Number(*value)) {
                return Err(Fail::Is(why));
            }
        }
        match self.last {
            Some(last) => join(nodes, last, Field::Next, n)?,
            None => self.head = Some(n),
        }
        self.last = Some(n);
        Ok(n)
    }

    /// Makes a box or a rule of this size at the end.
    pub fn sized(
        &mut self,
        nodes: &mut PlainHeap,
        kind: Kind,
        size: (i64, i64, i64),
    ) -> Result<u64, Fail<Trouble>> {
        let fields = [
            (Field::Width, size.0),
            (Field::Height, size.1),
            (Field::Depth, size.2),
        ];
        self.add(nodes, kind, &fields)
    }

    /// Makes a box with a shift at the end.
    pub fn shifted(
        &mut self,
        nodes: &mut PlainHeap,
        kind: Kind,
        size: (i64, i64, i64),
        shift: i64,
    ) -> Result<(), Fail<Trouble>> {
        let n = self.sized(nodes, kind, size)?;
        match nodes.set(n, Field::Shift, FieldValue::Number(shift)) {
            Ok(()) => Ok(()),
            Err(why) => Err(Fail::Is(why)),
        }
    }

    /// Makes a glue at the end.
    pub fn glue(&mut self, nodes: &mut PlainHeap, spec: GlueSpec) -> Result<(), Fail<Trouble>> {
        let fields = [
            (Field::Width, spec.width),
            (Field::Stretch, spec.stretch),
            (Field::StretchOrder, i64::from(spec.stretch_order)),
            (Field::Shrink, spec.shrink),
            (Field::ShrinkOrder, i64::from(spec.shrink_order)),
        ];
        let _n = self.add(nodes, Kind::Glue, &fields)?;
        Ok(())
    }

    /// Makes a kern at the end.
    pub fn kern(&mut self, nodes: &mut PlainHeap, w: i64) -> Result<(), Fail<Trouble>> {
        let _n = self.add(nodes, Kind::Kern, &[(Field::Kern, w)])?;
        Ok(())
    }
}

/// Glue that stretches.
pub fn stretch(width: i64, stretch: i64, order: u8) -> GlueSpec {
    GlueSpec {
        width,
        stretch,
        stretch_order: order,
        ..GlueSpec::default()
    }
}

/// Glue that shrinks.
pub fn shrink(width: i64, shrink: i64, order: u8) -> GlueSpec {
    GlueSpec {
        width,
        shrink,
        shrink_order: order,
        ..GlueSpec::default()
    }
}

/// A horizontal list of 13 items, with each kind of node.
pub fn horizontal(nodes: &mut PlainHeap) -> Result<Option<u64>, Fail<Trouble>> {
    let mut list = EMPTY;
    let _a = list.add(nodes, Kind::Glyph, &[(Field::Char, 97)])?;
    list.kern(nodes, 5)?;
    list.glue(nodes, stretch(100, 1, 0))?;
    let _rule = list.sized(nodes, Kind::Rule, (3, 4, 1))?;
    list.shifted(nodes, Kind::Hlist, (20, 9, 0), 500_000)?;
    list.shifted(nodes, Kind::Vlist, (30, 4, 5), -600_000)?;
    let _penalty = list.add(nodes, Kind::Penalty, &[(Field::Penalty, 50)])?;
    let disc = list.add(nodes, Kind::Disc, &[])?;
    let _b = list.add(nodes, Kind::Glyph, &[(Field::Char, 97)])?;
    list.glue(nodes, stretch(1, 2, 1))?;
    list.glue(nodes, stretch(2, 3, 2))?;
    list.glue(nodes, stretch(3, 7, 3))?;
    list.kern(nodes, 7)?;
    let mut before = EMPTY;
    let first = before.add(nodes, Kind::Glyph, &[(Field::Char, 97)])?;
    let mut instead = EMPTY;
    let gap = instead.add(nodes, Kind::Kern, &[(Field::Kern, 7)])?;
    let _bar = instead.sized(nodes, Kind::Rule, (3, 4, 1))?;
    join(nodes, disc, Field::Pre, first)?;
    join(nodes, disc, Field::Replace, gap)?;
    Ok(list.head)
}

/// A vertical list with each kind of node that it may hold.
pub fn vertical(nodes: &mut PlainHeap) -> Result<List, Fail<Trouble>> {
    let mut list = EMPTY;
    let _rule = list.sized(nodes, Kind::Rule, (3, 4, 1))?;
    list.glue(nodes, stretch(10, 5, 0))?;
    list.shifted(nodes, Kind::Hlist, (20, 9, 2), 7)?;
    list.kern(nodes, 6)?;
    list.shifted(nodes, Kind::Vlist, (30, 4, 5), -40)?;
    let _penalty = list.add(nodes, Kind::Penalty, &[(Field::Penalty, 50)])?;
    Ok(list)
}

/// The number in a field; nothing of the test's nodes is -1.
pub fn number(nodes: &PlainHeap, n: u64, f: Field) -> i64 {
    match nodes.get(n, f) {
        Ok(FieldValue::Number(x)) => x,
        _ => -1,
    }
}

/// The size of a box.
pub fn size_of(nodes: &PlainHeap, n: u64) -> Size {
    Size {
        w: number(nodes, n, Field::Width),
        h: number(nodes, n, Field::Height),
        d: number(nodes, n, Field::Depth),
    }
}

/// How the glue of a box is set: sign, order, numerator and denominator.
pub fn set_of(nodes: &PlainHeap, n: u64) -> (i64, i64, i64, i64) {
    (
        number(nodes, n, Field::GlueSign),
        number(nodes, n, Field::GlueOrder),
        number(nodes, n, Field::GlueNum),
        number(nodes, n, Field::GlueDen),
    )
}
