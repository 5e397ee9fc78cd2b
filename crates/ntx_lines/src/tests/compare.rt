//! Lists compared node by node.

use ntx_item::GlueSpec;
use ntx_nodes::{Contents, Fields, Nodes, PlainHeap, Trouble};
use ntx_num::Fail;
use ntx_view::glue_of;
use std::process::Abort;

/// What a node is to be.
#[derive(Clone, Copy, Debug, PartialEq, Eq)]
pub enum Wanted {
    /// A rule of this width.
    Rule(i64),
    /// The glyph `a`.
    Letter,
    /// A glue of this subtype.
    Glue(u8, GlueSpec),
    /// A kern of this subtype and size.
    Kern(u8, i64),
    /// A penalty.
    Penalty(i64),
    /// Another node, which nothing wants.
    Other,
}

/// A line that is wanted: its width, height and depth; the sign, order, numerator and denominator of its glue; and its nodes.
#[derive(Clone, Copy)]
pub struct Line<'a> {
    pub size: (i64, i64, i64),
    pub glue: (u8, u8, i64, i64),
    pub list: &'a [Wanted],
}

/// What a node is.
fn shown(fields: Fields) -> Wanted {
    match fields.contents {
        Contents::Rule(r) => Wanted::Rule(r.width),
        Contents::Glyph(g) if g.char == 97 => Wanted::Letter,
        Contents::Glue(g) => Wanted::Glue(fields.subtype, glue_of(g)),
        Contents::Kern(w) => Wanted::Kern(fields.subtype, w),
        Contents::Penalty(p) if fields.subtype == 0 => Wanted::Penalty(p),
        _ => Wanted::Other,
    }
}

/// The fields of a node.
pub fn fields_of(heap: &PlainHeap, n: u64) -> Result<Fields, Fail<Trouble>> {
    match heap.fields(n) {
        Ok(fields) => Ok(fields),
        Err(why) => Err(Fail::Is(why)),
    }
}

/// The nodes from a head on are as wanted. Gives what comes after them.
pub fn nodes_are(
    rt: &impl Abort,
    heap: &PlainHeap,
    head: Option<u64>,
    wanted: &[Wanted],
) -> Result<Option<u64>, Fail<Trouble>> {
    let mut at = head;
    for one in wanted {
        let fields = fields_of(heap, at.unwrap_or(0))?;
        assert!(rt; shown(fields) == *one);
        at = fields.next;
    }
    Ok(at)
}

/// The node is a line as wanted, whose list has these nodes and no others. Gives what comes after it.
pub fn line_is(
    rt: &impl Abort,
    heap: &PlainHeap,
    at: Option<u64>,
    wanted: &Line,
) -> Result<Option<u64>, Fail<Trouble>> {
    let fields = fields_of(heap, at.unwrap_or(0))?;
    assert!(rt; fields.subtype == 1);
    let Contents::Hlist(b) = fields.contents else {
        return Err(Fail::Is(Trouble::WrongKind(at.unwrap_or(0))));
    };
    assert!(rt; (b.width, b.height, b.depth) == wanted.size);
    assert!(rt; (b.glue_sign, b.glue_order, b.glue_num, b.glue_den) == wanted.glue);
    assert!(rt; b.shift == 0);
    let rest = nodes_are(rt, heap, b.list, wanted.list)?;
    assert!(rt; rest.is_none());
    Ok(fields.next)
}
