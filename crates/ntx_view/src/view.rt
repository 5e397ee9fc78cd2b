//! Lists of nodes as items ("TeX: The Program", sections 651 and 866).

ghost use Rattle.std.specs.Prelude.{◌≡◌, ◌≤◌, ◌*◌, ◌+◌, All, IfOk, IsOk, length, map, unsigned_abs};
ghost use Rattle.ntx_num.specs.Answer.{Gives, Answers, result_map};
ghost use Rattle.ntx_num.specs.Dimension.{max_dimension, max_nodes};
ghost use Rattle.ntx_nodes.specs.Steps.{fields_answer};
ghost use Rattle.ntx_nodes.specs.Walk.{flat_walk};
ghost use Rattle.ntx_item.specs.Items.{AreItemsInRange};
ghost use Rattle.ntx_view.specs.Natural.{max_reach, IsReaching};
ghost use Rattle.ntx_view.specs.Bounds.{list_length, parts_weight, weight_at, IsBoundedBy, AreBoundedBy};
ghost use Rattle.ntx_view.specs.Measured.{IsMeasured, HasMeasures, HeapsAreMeasured};
ghost use Rattle.ntx_view.specs.View.{first_missing_char, nodes_named, bare_item, part_size, item_with, item_of, item_at, items_answer, IsLiveAt, PartsEnd, PartsEndAt, IsOneEach};

use crate::fields::{bare_item, is_missing_char_at};
use crate::natural::hlist_size;
use ntx_item::Item;
use ntx_nodes::{
    Contents, DiscFields, Fields, ListKind, Nodes, Trouble, Way, check, names_reached,
    walks_are_sound,
};
use ntx_num::{Fail, NoMemory, Size};
use ntx_tfm::Font;
use std::alloc::Global;

/// The first of these nodes that is a glyph whose font or character is not there.
fn first_missing_char<N: Nodes>(nodes: &N, fonts: &[Font], names: &[u64]) -> Option<u64>
    ensures { result ≡ first_missing_char (N.heap nodes.now) fonts.now names.now }
{
    for n in names {
        if is_missing_char_at(nodes, fonts, *n) {
            return Some(*n);
        }
    }
    None
}

/// The nodes of a list, one after another, where its walk ends well.
fn names_along<N: Nodes>(
    alloc: Global,
    nodes: &mut N,
    to: Option<u64>,
) -> Result<Vec<u64>, NoMemory>
    requires { IsOk (flat_walk (N.heap nodes.old) to) }
    ensures same { N.heap nodes.new ≡ N.heap nodes.old }
    ensures names { IfOk result (λ names. flat_walk (N.heap nodes.old) to ≡ Ok names.items) }
    ensures live { IfOk result (λ names. All (IsLiveAt (N.heap nodes.old)) names.items) }
    ensures few { IfOk result (λ names. length names.items ≤ max_nodes) }
{
    nodes.lawful();
    walks_are_sound();
    match names_reached(alloc, nodes, Way::Flat, to, ListKind::H) {
        Ok(names) => Ok(names),
        Err(Fail::NoMemory) => Err(NoMemory),
        Err(Fail::Is(_)) => unreachable!(),
    }
}

/// The fields of a live node.
fn fields_of<N: Nodes>(nodes: &N, n: u64) -> Fields
    requires { IsLiveAt (N.heap nodes.now) n }
    ensures value { fields_answer n (N.heap nodes.now) ≡ Ok result }
    ensures measures { HasMeasures result.contents }
{
    nodes.lawful();
    match nodes.fields(n) {
        Ok(fields) => fields,
        Err(_) => unreachable!(),
    }
}

/// The nodes of these names as items, with no size for the parts of discretionaries.
fn bare_items_of<N: Nodes>(
    alloc: Global,
    nodes: &N,
    fonts: &[Font],
    names: &[u64],
) -> Result<Vec<Item>, NoMemory>
    requires { All (IsLiveAt (N.heap nodes.now)) names.now }
    ensures items { Gives (result_map (λ items. items.items) result) (map (bare_item fonts.now) (nodes_named (N.heap nodes.now) names.now)) }
    ensures bounded { IfOk result (λ items. All (IsBoundedBy 1) items.items) }
    ensures few { IfOk result (λ items. length items.items ≤ length names.now) }
{
    let mut items = Vec::new(alloc);
    for n in names {
        items.push(bare_item(fonts, fields_of(nodes, *n)))?;
    }
    Ok(items)
}

/// The natural size of a part of a discretionary, as a horizontal list.
fn part_size<N: Nodes>(
    alloc: Global,
    nodes: &mut N,
    fonts: &[Font],
    to: Option<u64>,
) -> Result<Size, NoMemory>
    requires { IsOk (flat_walk (N.heap nodes.old) to) }
    ensures same { N.heap nodes.new ≡ N.heap nodes.old }
    ensures size { Gives result (part_size (N.heap nodes.old) fonts.now to) }
    ensures width { IfOk result (λ size. unsigned_abs size.w ≤ list_length (N.heap nodes.old) to * max_dimension) }
    ensures height { IfOk result (λ size. unsigned_abs size.h ≤ max_reach) }
    ensures depth { IfOk result (λ size. unsigned_abs size.d ≤ max_reach) }
{
    let names = names_along(alloc, nodes, to)?;
    let items = bare_items_of(alloc, nodes, fonts, &names)?;
    Ok(hlist_size(&items))
}

/// A discretionary as an item, with the sizes of its parts.
fn disc_item<N: Nodes>(
    alloc: Global,
    nodes: &mut N,
    fonts: &[Font],
    subtype: u8,
    d: DiscFields,
) -> Result<Item, NoMemory>
    requires { PartsEnd (N.heap nodes.old) (Contents.Disc d) }
    ensures same { N.heap nodes.new ≡ N.heap nodes.old }
    ensures item { Gives result (item_with (part_size (N.heap nodes.old) fonts.now) fonts.now subtype (Contents.Disc d)) }
    ensures bounded { IfOk result (IsBoundedBy (1 + parts_weight (N.heap nodes.old) (Contents.Disc d))) }
{
    Ok(Item::Disc {
        pre: part_size(alloc, nodes, fonts, d.pre)?,
        post: part_size(alloc, nodes, fonts, d.post)?,
        replace: part_size(alloc, nodes, fonts, d.replace)?,
        pre_empty: d.pre.is_none(),
        post_empty: d.post.is_none(),
        regular: subtype == 3,
    })
}

/// A live node as an item. The walks along the parts of a discretionary have to end well, as they do where [`items`] or
/// `check` accepted a list with it. The number of a glyph's font is its place in `fonts`, counted from 0; a glyph whose font
/// or character is not there has no size.
pub fn item_at<N: Nodes>(
    alloc: Global,
    nodes: &mut N,
    fonts: &[Font],
    n: u64,
) -> Result<Item, NoMemory>
    requires live { IsLiveAt (N.heap nodes.old) n }
    requires parts { PartsEndAt (N.heap nodes.old) n }
    ensures same { N.heap nodes.new ≡ N.heap nodes.old }
    ensures item { IfOk result (λ item. item_at (N.heap nodes.old) fonts.now n ≡ Some item) }
    ensures bounded { IfOk result (IsBoundedBy (weight_at (N.heap nodes.old) n)) }
{
    let fields = fields_of(nodes, n);
    match fields.contents {
        Contents::Disc(d) => disc_item(alloc, nodes, fonts, fields.subtype, d),
        _ => Ok(bare_item(fonts, fields)),
    }
}

/// The nodes of these names as items.
fn items_of<N: Nodes>(
    alloc: Global,
    nodes: &mut N,
    fonts: &[Font],
    names: &[u64],
) -> Result<Vec<Item>, NoMemory>
    requires live { All (IsLiveAt (N.heap nodes.old)) names.now }
    requires parts { All (PartsEndAt (N.heap nodes.old)) names.now }
    ensures same { N.heap nodes.new ≡ N.heap nodes.old }
    ensures items { Gives (result_map (λ items. items.items) result) (map (item_of (N.heap nodes.old) fonts.now) (nodes_named (N.heap nodes.old) names.now)) }
    ensures bounded { IfOk result (λ items. AreBoundedBy (N.heap nodes.old) names.now items.items) }
{
    let mut items = Vec::new(alloc);
    for n in names {
        let item = item_at(alloc, nodes, fonts, *n)?;
        items.push(item)?;
    }
    Ok(items)
}

/// The law that the items of a list that [`items`] accepts, in a lawful heap, have no width, height, depth or shift beyond
/// TeX's largest dimension, 2^30-1 scaled points, in absolute value, where they are boxes, rules, glue or kerns.
pub fn heaps_are_measured()
    ensures { HeapsAreMeasured }
{}

/// The list at a head as items, one for each of its nodes, where the list is one of kind `k`. They are in range, as
/// [`Item`] states; no box, rule, glue or kern has a width, height, depth or shift beyond 2^30-1 scaled points in absolute
/// value; and none reaches farther than 2^31 scaled points above or below the baseline. The number of a glyph's font is its
/// place in `fonts`, counted from 0.
///
/// # Refusals
///
/// - Those of `check`: at each node of the walk through the list and all lists in it `Stale` if it is dead, `Loop` if the walk
///   reached it before, `Nest` at depth 101, and `WrongKind` if its list may not hold its kind, in this order.
/// - `NoChar` at the first glyph of that walk whose font or character is not there.
pub fn items<N: Nodes>(
    alloc: Global,
    nodes: &mut N,
    fonts: &[Font],
    head: Option<u64>,
    k: ListKind,
) -> Result<Vec<Item>, Fail<Trouble>>
    ensures same { N.heap nodes.new ≡ N.heap nodes.old }
    ensures answer { Answers (result_map (λ items. items.items) result) (items_answer (N.heap nodes.old) fonts.now head k) }
    ensures one_each { IfOk result (λ items. IsOneEach (N.heap nodes.old) fonts.now head items.items) }
    ensures in_range { IfOk result (λ items. AreItemsInRange items.items) }
    ensures measured { IfOk result (λ items. All IsMeasured items.items) }
    ensures reaching { IfOk result (λ items. All IsReaching items.items) }
{
    nodes.lawful();
    walks_are_sound();
    let names = check(alloc, nodes, head, k)?;
    if let Some(n) = first_missing_char(nodes, fonts, &names) {
        return Err(Fail::Is(Trouble::NoChar(n)));
    }
    let along = names_along(alloc, nodes, head)?;
    Ok(items_of(alloc, nodes, fonts, &along)?)
}
