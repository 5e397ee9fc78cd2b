//! Steps from which lines are made.

ghost use Rattle.std.specs.Prelude.{◌≡◌};
ghost use Rattle.ntx_nodes.specs.Writing.{AreMakable};
ghost use Rattle.ntx_lines.specs.Making.{glue_fields, penalty_fields, follows, sets, made_before, made_at_end};
ghost use Rattle.ntx_lines.specs.Making as made;
ghost use Rattle.ntx_num.specs.Trace.{EndsAs};
ghost use Rattle.ntx_lines.specs.inner.Answers.{with_memory};

use ntx_item::GlueSpec;
use ntx_nodes::{Contents, Field, FieldValue, Fields, GlueFields, Nodes, Trouble, make_current};
use ntx_num::Fail;

/// The answer of a call that takes no memory, as one of a call that takes some.
pub(crate) fn answer<A>(found: Result<A, Trouble>) -> Result<A, Fail<Trouble>>
    ensures { result ≡ with_memory found }
{
    match found {
        Ok(a) => Ok(a),
        Err(why) => Err(Fail::Is(why)),
    }
}

/// Puts a value into a field of a node. Refuses as `Nodes::set`.
pub(crate) fn set<N: Nodes>(
    nodes: &mut N,
    n: u64,
    f: Field,
    v: FieldValue,
) -> Result<(), Fail<Trouble>>
    ensures { EndsAs result (N.heap nodes.new) (made.set n (f, v) (N.heap nodes.old)) }
{
    answer(nodes.set(n, f, v))
}

/// Puts values into fields of a node, one after another. Refuses as `Nodes::set`.
pub(crate) fn set_all<N: Nodes>(
    nodes: &mut N,
    n: u64,
    values: &[(Field, FieldValue)],
) -> Result<(), Fail<Trouble>>
    ensures { EndsAs result (N.heap nodes.new) (sets n values.now (N.heap nodes.old)) }
{
    for value in values {
        set(nodes, n, value.0, value.1)?;
    }
    Ok(())
}

/// Lets a node, if there is one, be followed by another, or by nothing. Refuses as `Nodes::set`.
pub(crate) fn follow<N: Nodes>(
    nodes: &mut N,
    last: Option<u64>,
    to: Option<u64>,
) -> Result<(), Fail<Trouble>>
    ensures { EndsAs result (N.heap nodes.new) (follows last to (N.heap nodes.old)) }
{
    match last {
        None => Ok(()),
        Some(n) => set(nodes, n, Field::Next, FieldValue::Link(to)),
    }
}

/// The fields of a glue that nothing follows.
pub(crate) fn glue_fields(subtype: u8, spec: GlueSpec) -> Fields
    ensures { result ≡ glue_fields subtype spec }
{
    Fields {
        subtype,
        next: None,
        contents: Contents::Glue(GlueFields {
            width: spec.width,
            stretch: spec.stretch,
            stretch_order: spec.stretch_order,
            shrink: spec.shrink,
            shrink_order: spec.shrink_order,
        }),
    }
}

/// The fields of a penalty that nothing follows.
pub(crate) fn penalty_fields(p: i64) -> Fields
    ensures { result ≡ penalty_fields p }
{
    Fields {
        subtype: 0,
        next: None,
        contents: Contents::Penalty(p),
    }
}

/// Makes a node with these fields and the current attributes in front of a list. Refuses as the making of a node.
pub(crate) fn make_before<N: Nodes>(
    nodes: &mut N,
    fields: Fields,
    to: Option<u64>,
) -> Result<u64, Fail<Trouble>>
    requires { AreMakable (N.heap nodes.old) fields }
    ensures { EndsAs result (N.heap nodes.new) (made_before fields to (N.heap nodes.old)) }
{
    let n = make_current(nodes, fields)?;
    follow(nodes, Some(n), to)?;
    Ok(n)
}

/// Makes a node with these fields and the current attributes after the last node of a list. Refuses as the making of a node.
pub(crate) fn make_at_end<N: Nodes>(
    nodes: &mut N,
    fields: Fields,
    last: Option<u64>,
) -> Result<u64, Fail<Trouble>>
    requires { AreMakable (N.heap nodes.old) fields }
    ensures { EndsAs result (N.heap nodes.new) (made_at_end fields last (N.heap nodes.old)) }
{
    let n = make_current(nodes, fields)?;
    follow(nodes, last, Some(n))?;
    Ok(n)
}
