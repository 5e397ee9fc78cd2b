//! Writing into nodes what they take, and making nodes with all their fields, over any heap.

ghost use Rattle.std.specs.Prelude.{◌≡◌, ◌≢◌, ◌≤◌, ◌<◌, ◌+◌, ◌^◌, ◌∷◌, [], pos, ◌≤ℤ◌, Bool, false, Ok, Err, OnOk, IsOk};
ghost use Rattle.ntx_num.specs.Answer.{Steps};
ghost use Rattle.ntx_nodes.specs.declared.kind.Kind.{Kind};
ghost use Rattle.ntx_nodes.specs.Fields.{kind_of};
ghost use Rattle.ntx_nodes.specs.Steps.{set_step};
ghost use Rattle.ntx_nodes.specs.Writing.{write_step, AreMakable, make_filled_step, make_current_step, make_like_step, StepsInTwo};
ghost use Rattle.ntx_nodes.specs.inner.Fills.{CopiesFields, CopiesGlue, IsFresh, Fills};
ghost use Rattle.ntx_num.specs.Dimension.{IsWithin};

use crate::{BoxFields, Contents, Field, FieldValue, Fields, Nodes, Ratio, Trouble};
use ntx_num::Fail;

/// Writes a value into a field that takes it.
pub fn write<N: Nodes>(nodes: &mut N, n: u64, f: Field, v: FieldValue)
    requires { IsOk (set_step n f v (N.heap nodes.old)) }
    ensures step { set_step n f v (N.heap nodes.old) ≡ Ok (tt, N.heap nodes.new) }
    ensures visits { N.visited nodes.new ≡ N.visited nodes.old }
    ensures keeps { (each : Kind) → N.spare_of nodes.old each ≤ N.spare_of nodes.new each }
{
    match nodes.set(n, f, v) {
        Ok(()) => {}
        Err(_) => unreachable!(),
    }
}

/// Writes values into fields that take them, one after another.
pub fn write_all<N: Nodes>(nodes: &mut N, n: u64, values: &[(Field, FieldValue)])
    requires { IsOk (write_step n values.now (N.heap nodes.old)) }
    ensures step { write_step n values.now (N.heap nodes.old) ≡ Ok (tt, N.heap nodes.new) }
    ensures visits { N.visited nodes.new ≡ N.visited nodes.old }
    ensures keeps { (each : Kind) → N.spare_of nodes.old each ≤ N.spare_of nodes.new each }
{
    for (f, v) in values {
        write(nodes, n, *f, *v);
    }
}

/// Sets the glue in a box as in another.
fn copy_glue<N: Nodes>(nodes: &mut N, n: u64, b: BoxFields)
    requires sign { b.glue_sign ≤ 2 }
    requires order { b.glue_order ≤ 3 }
    requires num { IsWithin (2 ^ 32) b.glue_num }
    requires den { pos 1 ≤ℤ b.glue_den }
    ensures copies { CopiesGlue (N.heap nodes.old) (N.heap nodes.new) n b }
    ensures visits { N.visited nodes.new ≡ N.visited nodes.old }
    ensures keeps { (each : Kind) → N.spare_of nodes.old each ≤ N.spare_of nodes.new each }
{
    let ratio = Ratio {
        num: b.glue_num,
        den: b.glue_den,
    };
    let _done = nodes.set_ratio(n, b.glue_sign, b.glue_order, ratio);
}

/// Writes what a field of others holds into a node's field that takes it.
fn copy_field<N: Nodes>(nodes: &mut N, n: u64, from: &Fields, f: Field)
    ensures copies { CopiesFields (N.heap nodes.old) (N.heap nodes.new) n from.now (f ∷ []) }
    ensures visits { N.visited nodes.new ≡ N.visited nodes.old }
    ensures keeps { (each : Kind) → N.spare_of nodes.old each ≤ N.spare_of nodes.new each }
{
    if let Ok(v) = from.field(f) {
        let _done = nodes.set(n, f, v);
    }
}

/// The same of several fields, one after another.
fn copy_fields<N: Nodes>(nodes: &mut N, n: u64, from: &Fields, fields: &[Field])
    ensures copies { CopiesFields (N.heap nodes.old) (N.heap nodes.new) n from.now fields.now }
    ensures visits { N.visited nodes.new ≡ N.visited nodes.old }
    ensures keeps { (each : Kind) → N.spare_of nodes.old each ≤ N.spare_of nodes.new each }
{
    for f in fields {
        copy_field(nodes, n, from, *f);
    }
}

/// Writes fields into a new node of their kind and subtype.
fn fill<N: Nodes>(nodes: &mut N, n: u64, fields: Fields)
    requires makable { AreMakable (N.heap nodes.old) fields }
    requires fresh { IsFresh (N.heap nodes.old) n fields }
    ensures fills { Fills (N.heap nodes.old) (N.heap nodes.new) n fields }
    ensures visits { N.visited nodes.new ≡ N.visited nodes.old }
    ensures keeps { (each : Kind) → N.spare_of nodes.old each ≤ N.spare_of nodes.new each }
{
    copy_fields(nodes, n, &fields, fields.contents.kind().settable_fields());
    match fields.contents {
        Contents::Hlist(b) => copy_glue(nodes, n, b),
        Contents::Vlist(b) => copy_glue(nodes, n, b),
        _ => {}
    }
}

/// Makes a node with these fields and no attributes.
///
/// # Refusals
///
/// As `Nodes::make`. After a refusal, and after running out of memory, the heap is as it was.
pub fn make_filled<N: Nodes>(nodes: &mut N, fields: Fields) -> Result<u64, Fail<Trouble>>
    requires { AreMakable (N.heap nodes.old) fields }
    ensures step { Steps result (N.heap nodes.old) (N.heap nodes.new) (make_filled_step fields (N.heap nodes.old)) }
    ensures visits { N.visited nodes.new ≡ N.visited nodes.old }
    ensures memory { 0 < N.spare_of nodes.old (kind_of fields.contents) → result ≢ Err Fail.NoMemory }
    ensures spare { OnOk result ((each : Kind) → N.spare_of nodes.old each ≤ N.spare_of nodes.new each + 1) }
{
    let n = nodes.make(fields.contents.kind(), fields.subtype)?;
    fill(nodes, n, fields);
    Ok(n)
}

/// Makes a node with these fields and the current attributes.
///
/// # Refusals
///
/// As `Nodes::make`. After a refusal the heap is as it was. After running out of memory it is as it was, or has the node
/// with no attributes.
pub fn make_current<N: Nodes>(nodes: &mut N, fields: Fields) -> Result<u64, Fail<Trouble>>
    requires { AreMakable (N.heap nodes.old) fields }
    ensures step { StepsInTwo result (N.heap nodes.old) (N.heap nodes.new) (make_filled_step fields (N.heap nodes.old)) (make_current_step fields (N.heap nodes.old)) }
    ensures visits { N.visited nodes.new ≡ N.visited nodes.old }
    ensures memory { N.copies ≡ false → 0 < N.spare_of nodes.old (kind_of fields.contents) → result ≢ Err Fail.NoMemory }
    ensures spare { OnOk result ((each : Kind) → N.spare_of nodes.old each ≤ N.spare_of nodes.new each + 1) }
{
    let n = make_filled(nodes, fields)?;
    match nodes.wear_current(n) {
        Ok(()) => Ok(n),
        Err(Fail::NoMemory) => Err(Fail::NoMemory),
        Err(Fail::Is(_)) => unreachable!(),
    }
}

/// Makes a node with these fields and the attributes of another.
///
/// # Refusals
///
/// With Stale of a dead `from`, and then as `Nodes::make`. After a refusal the heap is as it was. After running out of
/// memory it is as it was, or has the node with no attributes.
pub fn make_like<N: Nodes>(nodes: &mut N, fields: Fields, from: u64) -> Result<u64, Fail<Trouble>>
    requires { AreMakable (N.heap nodes.old) fields }
    ensures step { StepsInTwo result (N.heap nodes.old) (N.heap nodes.new) (make_filled_step fields (N.heap nodes.old)) (make_like_step fields from (N.heap nodes.old)) }
    ensures visits { N.visited nodes.new ≡ N.visited nodes.old }
    ensures memory { N.copies ≡ false → 0 < N.spare_of nodes.old (kind_of fields.contents) → result ≢ Err Fail.NoMemory }
    ensures spare { OnOk result ((each : Kind) → N.spare_of nodes.old each ≤ N.spare_of nodes.new each + 1) }
{
    match nodes.fields(from) {
        Ok(_) => {}
        Err(why) => return Err(Fail::Is(why)),
    }
    nodes.lawful();
    let n = make_filled(nodes, fields)?;
    match nodes.same_attrs(n, from) {
        Ok(()) => Ok(n),
        Err(Fail::NoMemory) => Err(Fail::NoMemory),
        Err(Fail::Is(_)) => unreachable!(),
    }
}
