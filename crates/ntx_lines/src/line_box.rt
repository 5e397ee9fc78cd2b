//! The box of a line.

ghost use Rattle.std.specs.Prelude.{◌≡◌, pos, IfOk};
ghost use Rattle.ntx_num.specs.Answer.{Answers};
ghost use Rattle.ntx_num.specs.Dimension.{IsDimension};
ghost use Rattle.ntx_item.specs.declared.pack_to.PackTo.TheVariants.{Exactly};
ghost use Rattle.ntx_nodes.specs.declared.field.Field.TheVariants.{Subtype};
ghost use Rattle.ntx_nodes.specs.declared.field.FieldValue.TheVariants.{Number};
ghost use Rattle.ntx_lines.specs.LineBox.{box_fields_at, fields_of_box, line_subtype, line_box};
ghost use Rattle.ntx_lines.specs.Making as made;
ghost use Rattle.ntx_num.specs.Trace.{EndsAs};

use crate::making::set;
use ntx_item::{PackTo, Param, Params};
use ntx_nodes::{BoxFields, Contents, Field, FieldValue, Nodes, Trouble};
use ntx_num::Fail;
use ntx_pack::hpack;
use ntx_tfm::Font;
use std::alloc::Global;

/// The subtype of an hlist that is a line.
const LINE: u8 = 1;

/// The fields of the box `n` with these contents. Refuses with WrongKind where it is no box.
fn box_in(n: u64, contents: Contents) -> Result<BoxFields, Fail<Trouble>>
    ensures { Answers result (fields_of_box n contents) }
{
    match contents {
        Contents::Hlist(b) | Contents::Vlist(b) => Ok(b),
        _ => Err(Fail::Is(Trouble::WrongKind(n))),
    }
}

/// The fields of a box. Refuses with Stale of a dead `n`, and else with WrongKind where it is no box.
pub(crate) fn box_fields<N: Nodes>(nodes: &N, n: u64) -> Result<BoxFields, Fail<Trouble>>
    ensures answer { Answers result (box_fields_at n (N.heap nodes.now)) }
    ensures in_range { IfOk result (λ b. IsDimension b.height × IsDimension b.depth) }
{
    nodes.lawful();
    match nodes.fields(n) {
        Ok(fields) => box_in(n, fields.contents),
        Err(why) => Err(Fail::Is(why)),
    }
}

/// What names a box a line.
fn line_mark() -> FieldValue
    ensures { result ≡ Number (pos line_subtype) }
{
    FieldValue::Number(i64::from(LINE))
}

/// Makes a box a line. Refuses as `Nodes::set`.
fn name_line<N: Nodes>(nodes: &mut N, n: u64) -> Result<(), Fail<Trouble>>
    ensures { EndsAs result (N.heap nodes.new) (made.set n (Subtype, Number (pos line_subtype)) (N.heap nodes.old)) }
{
    set(nodes, n, Field::Subtype, line_mark())
}

/// What a line is packed to.
fn line_width(params: &Params) -> PackTo
    ensures { result ≡ Exactly params.now.hsize }
{
    PackTo::Exactly(params.get(Param::Hsize))
}

/// Packs the list at a head to `hsize`, as a line with the current attributes. Refuses as `hpack`.
pub(crate) fn pack_line<N: Nodes>(
    alloc: Global,
    nodes: &mut N,
    fonts: &[Font],
    params: &Params,
    head: Option<u64>,
) -> Result<u64, Fail<Trouble>>
    ensures { EndsAs result (N.heap nodes.new) (line_box fonts.now params.now head (N.heap nodes.old)) }
{
    let (n, _badness) = hpack(alloc, nodes, fonts, head, line_width(params))?;
    name_line(nodes, n)?;
    nodes.wear_current(n)?;
    Ok(n)
}
