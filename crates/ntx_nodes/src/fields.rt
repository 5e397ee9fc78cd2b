//! All the fields of a node.

ghost use Rattle.std.specs.Prelude.{◌≡◌, ◌^◌};
ghost use Rattle.ntx_nodes.specs.Fields.{contents_field, contents_with, kind_of, fresh, unlinked, last_subtype, field_of, with_field};
ghost use Rattle.ntx_nodes.specs.Steps.{with_ratio};
ghost use Rattle.ntx_nodes.specs.Walk.{inner_lists};

use crate::value::{dimension, link, number_to, number_within};
use crate::{
    BoxFields, DiscFields, Field, FieldValue, GlueFields, GlyphFields, InnerLists, Kind, ListKind,
    Ratio, RuleFields, Trouble,
};
use ntx_num::MAX_PENALTY;

/// The fields that a node has by its kind. In a heap each number is in the range that `Field` states.
#[derive(Clone, Copy, Debug, PartialEq, Eq)]
pub enum Contents {
    /// Of an hlist.
    Hlist(BoxFields),
    /// Of a vlist.
    Vlist(BoxFields),
    /// Of a rule.
    Rule(RuleFields),
    /// Of a discretionary.
    Disc(DiscFields),
    /// Of a glue.
    Glue(GlueFields),
    /// The size of a kern in scaled points, in a heap within 2^30-1 in absolute value.
    Kern(i64),
    /// The cost of a break at a penalty, in a heap within 2^31-1 in absolute value.
    Penalty(i64),
    /// Of a glyph.
    Glyph(GlyphFields),
}

impl Contents {
    /// The fields of a new node: zeros and nothings, and a box's ratio 0 over 1.
    pub fn fresh(kind: Kind) -> Contents
        ensures { result ≡ fresh kind }
    {
        let empty = BoxFields {
            width: 0,
            height: 0,
            depth: 0,
            shift: 0,
            list: None,
            glue_sign: 0,
            glue_order: 0,
            glue_num: 0,
            glue_den: 1,
        };
        match kind {
            Kind::Hlist => Contents::Hlist(empty),
            Kind::Vlist => Contents::Vlist(empty),
            Kind::Rule => Contents::Rule(RuleFields {
                width: 0,
                height: 0,
                depth: 0,
            }),
            Kind::Disc => Contents::Disc(DiscFields {
                pre: None,
                post: None,
                replace: None,
            }),
            Kind::Glue => Contents::Glue(GlueFields {
                width: 0,
                stretch: 0,
                stretch_order: 0,
                shrink: 0,
                shrink_order: 0,
            }),
            Kind::Kern => Contents::Kern(0),
            Kind::Penalty => Contents::Penalty(0),
            Kind::Glyph => Contents::Glyph(GlyphFields { char: 0, font: 0 }),
        }
    }

    /// The kind of the node.
    pub fn kind(&self) -> Kind
        ensures { result ≡ kind_of self.now }
    {
        match self {
            Contents::Hlist(_) => Kind::Hlist,
            Contents::Vlist(_) => Kind::Vlist,
            Contents::Rule(_) => Kind::Rule,
            Contents::Disc(_) => Kind::Disc,
            Contents::Glue(_) => Kind::Glue,
            Contents::Kern(_) => Kind::Kern,
            Contents::Penalty(_) => Kind::Penalty,
            Contents::Glyph(_) => Kind::Glyph,
        }
    }

    /// The same numbers, and no links.
    pub fn unlinked(self) -> Contents
        ensures { result ≡ unlinked self }
    {
        match self {
            Contents::Hlist(b) => Contents::Hlist(BoxFields { list: None, ..b }),
            Contents::Vlist(b) => Contents::Vlist(BoxFields { list: None, ..b }),
            Contents::Disc(_) => Contents::Disc(DiscFields {
                pre: None,
                post: None,
                replace: None,
            }),
            other => other,
        }
    }

    /// The inner lists of the node.
    pub fn inner_lists(&self) -> InnerLists
        ensures { result ≡ inner_lists self.now }
    {
        match self {
            Contents::Hlist(b) => InnerLists {
                first: b.list,
                ..InnerLists::none()
            },
            Contents::Vlist(b) => InnerLists {
                first: b.list,
                kind: ListKind::V,
                ..InnerLists::none()
            },
            Contents::Disc(d) => InnerLists {
                first: d.pre,
                second: d.post,
                third: d.replace,
                kind: ListKind::Part,
            },
            _ => InnerLists::none(),
        }
    }

    /// What a field holds. Refuses with NoField where there is no such field.
    pub fn field(&self, f: Field) -> Result<FieldValue, Trouble>
        ensures { result ≡ contents_field self.now f }
    {
        match self {
            Contents::Hlist(b) | Contents::Vlist(b) => b.field(f),
            Contents::Rule(r) => r.field(f),
            Contents::Disc(d) => d.field(f),
            Contents::Glue(g) => g.field(f),
            Contents::Kern(size) if f == Field::Kern => Ok(FieldValue::Number(*size)),
            Contents::Penalty(cost) if f == Field::Penalty => Ok(FieldValue::Number(*cost)),
            Contents::Glyph(g) => g.field(f),
            _ => Err(Trouble::NoField),
        }
    }

    /// The same with a value in a field. Refuses with NoField where there is no such field, and else with BadValue where it
    /// does not take the value.
    pub fn with(self, f: Field, v: FieldValue) -> Result<Contents, Trouble>
        ensures { result ≡ contents_with self f v }
    {
        Ok(match self {
            Contents::Hlist(b) => Contents::Hlist(b.with(f, v)?),
            Contents::Vlist(b) => Contents::Vlist(b.with(f, v)?),
            Contents::Rule(r) => Contents::Rule(r.with(f, v)?),
            Contents::Disc(d) => Contents::Disc(d.with(f, v)?),
            Contents::Glue(g) => Contents::Glue(g.with(f, v)?),
            Contents::Kern(_) if f == Field::Kern => Contents::Kern(dimension(v)?),
            Contents::Penalty(_) if f == Field::Penalty => Contents::Penalty(number_within(
                MAX_PENALTY,
                v,
            )?),
            Contents::Glyph(g) => Contents::Glyph(g.with(f, v)?),
            _ => return Err(Trouble::NoField),
        })
    }
}

/// All the fields of a node, which have its kind.
#[derive(Clone, Copy, Debug, PartialEq, Eq)]
pub struct Fields {
    /// A number that tells nodes of one kind apart, in a heap from 0 to 3 of a disc.
    pub subtype: u8,
    /// The node that follows in the list.
    pub next: Option<u64>,
    /// What the node has by its kind.
    pub contents: Contents,
}

impl Fields {
    /// What a field holds. Refuses with NoField where there is no such field.
    pub fn field(&self, f: Field) -> Result<FieldValue, Trouble>
        ensures { result ≡ field_of self.now f }
    {
        match f {
            Field::Subtype => Ok(FieldValue::Number(i64::from(self.subtype))),
            Field::Next => Ok(FieldValue::Link(self.next)),
            _ => self.contents.field(f),
        }
    }

    /// The same with a value in a field. Refuses with NoField where there is no such field, and else with BadValue where it
    /// does not take the value.
    pub fn with(self, f: Field, v: FieldValue) -> Result<Fields, Trouble>
        ensures { result ≡ with_field self f v }
    {
        match f {
            Field::Subtype => Ok(Fields {
                subtype: number_to(self.contents.kind().last_subtype(), v)?,
                ..self
            }),
            Field::Next => Ok(Fields {
                next: link(v)?,
                ..self
            }),
            _ => Ok(Fields {
                contents: self.contents.with(f, v)?,
                ..self
            }),
        }
    }

    /// The box with its glue set. It does not test the sign and the order. Refuses with WrongKind of `n`, the node's name,
    /// where it is no box.
    pub fn with_ratio(self, n: u64, sign: u8, order: u8, r: Ratio) -> Result<Fields, Trouble>
        ensures { result ≡ with_ratio n sign order r self }
    {
        let glued = |b: BoxFields| BoxFields {
            glue_sign: sign,
            glue_order: order,
            glue_num: r.num,
            glue_den: r.den,
            ..b
        };
        match self.contents {
            Contents::Hlist(b) => Ok(Fields {
                contents: Contents::Hlist(glued(b)),
                ..self
            }),
            Contents::Vlist(b) => Ok(Fields {
                contents: Contents::Vlist(glued(b)),
                ..self
            }),
            _ => Err(Trouble::WrongKind(n)),
        }
    }
}
