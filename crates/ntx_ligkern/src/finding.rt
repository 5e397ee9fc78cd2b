//! Finding the kerns of a list.

ghost use Rattle.std.specs.Prelude.{◌≡◌, ◌++◌, All, OnOk, IfOk, slice_get};
ghost use Rattle.ntx_num.specs.Answer.{Gives, result_map};
ghost use Rattle.ntx_ligkern.specs.Along.{along};
ghost use Rattle.ntx_ligkern.specs.Kerns.{kerned, after_node, kerns_after, kerns_in, kerns_in_disc, kerns_at_end, last_of, kerns_around, kerns_at, kerns_of};
ghost use Rattle.ntx_ligkern.specs.inner.Sound.{IsWide};

use crate::glyph::pair_between;
use crate::listing::along;
use crate::place::{Kerning, Place};
use ntx_nodes::{Contents, DiscFields, Field, Nodes};
use ntx_num::NoMemory;
use ntx_pairs::Pair;
use ntx_tfm::Font;
use std::alloc::Global;

/// The name at a place of a list, if there is one.
fn name_at(names: &[u64], i: usize) -> Option<u64>
    ensures { result ≡ slice_get names.now i }
{
    names.get(i).copied()
}

/// The last name of a list, if it is not empty.
fn last_of(names: &[u64]) -> Option<u64>
    ensures { result ≡ last_of names.now }
{
    names.last().copied()
}

/// Takes the kern of two nodes for a place, if their font has one.
fn take<N: Nodes>(
    nodes: &N,
    fonts: &[Font],
    left: Option<u64>,
    right: Option<u64>,
    place: Place,
    kerns: &mut Vec<Kerning>,
) -> Result<(), NoMemory>
    requires { All IsWide kerns.old.items }
    ensures kerns { OnOk result (kerns.new.items ≡ kerns.old.items ++ kerned fonts.now (N.heap nodes.now) left right place) }
    ensures wide { OnOk result (All IsWide kerns.new.items) }
{
    let Some(left) = left else {
        return Ok(());
    };
    match pair_between(nodes, fonts, Some(left), right) {
        Pair::Kern(width) => kerns.push(Kerning { left, width, place })?,
        _ => {}
    }
    Ok(())
}

/// The place directly after a node, before what follows it.
fn after_node(n: u64, next: Option<u64>) -> Place
    ensures { result ≡ after_node n next }
{
    Place {
        at: n,
        field: Field::Next,
        next,
    }
}

/// Takes the kern between a node and what follows it.
fn take_after<N: Nodes>(
    nodes: &N,
    fonts: &[Font],
    n: u64,
    next: Option<u64>,
    kerns: &mut Vec<Kerning>,
) -> Result<(), NoMemory>
    requires { All IsWide kerns.old.items }
    ensures kerns { OnOk result (kerns.new.items ≡ kerns.old.items ++ kerns_after fonts.now (N.heap nodes.now) n next) }
    ensures wide { OnOk result (All IsWide kerns.new.items) }
{
    take(nodes, fonts, Some(n), next, after_node(n, next), kerns)
}

/// Takes the kerns within a list without discretionaries.
fn take_in<N: Nodes>(
    nodes: &N,
    fonts: &[Font],
    names: &[u64],
    kerns: &mut Vec<Kerning>,
) -> Result<(), NoMemory>
    requires { All IsWide kerns.old.items }
    ensures kerns { OnOk result (kerns.new.items ≡ kerns.old.items ++ kerns_in fonts.now (N.heap nodes.now) names.now) }
    ensures wide { OnOk result (All IsWide kerns.new.items) }
{
    for i in 0..names.len() {
        take_after(nodes, fonts, names[i], name_at(names, i + 1), kerns)?;
    }
    Ok(())
}

/// Takes the kern between the last node of a list and a node of another list, at the end of the first.
fn take_at_end<N: Nodes>(
    nodes: &N,
    fonts: &[Font],
    last: Option<u64>,
    after: Option<u64>,
    kerns: &mut Vec<Kerning>,
) -> Result<(), NoMemory>
    requires { All IsWide kerns.old.items }
    ensures kerns { OnOk result (kerns.new.items ≡ kerns.old.items ++ kerns_at_end fonts.now (N.heap nodes.now) last after) }
    ensures wide { OnOk result (All IsWide kerns.new.items) }
{
    match last {
        Some(last) => take(
            nodes,
            fonts,
            Some(last),
            after,
            after_node(last, None),
            kerns,
        ),
        None => Ok(()),
    }
}

/// Takes the kerns in the lists of a discretionary, and between these and the nodes before and after it.
fn take_at_disc<N: Nodes>(
    alloc: Global,
    nodes: &N,
    fonts: &[Font],
    before: Option<u64>,
    disc: u64,
    d: DiscFields,
    after: Option<u64>,
    kerns: &mut Vec<Kerning>,
) -> Result<(), NoMemory>
    requires { All IsWide kerns.old.items }
    ensures kerns { OnOk result (kerns.new.items ≡ kerns.old.items ++ (kerns_in_disc fonts.now (N.heap nodes.now) d ++ kerns_around fonts.now (N.heap nodes.now) before disc d after)) }
    ensures wide { OnOk result (All IsWide kerns.new.items) }
{
    let pre = along(alloc, nodes, d.pre)?;
    let post = along(alloc, nodes, d.post)?;
    let replace = along(alloc, nodes, d.replace)?;
    take_in(nodes, fonts, &pre, kerns)?;
    take_in(nodes, fonts, &post, kerns)?;
    take_in(nodes, fonts, &replace, kerns)?;
    let at_pre = Place {
        at: disc,
        field: Field::Pre,
        next: d.pre,
    };
    take(nodes, fonts, before, d.pre, at_pre, kerns)?;
    let at_replace = Place {
        at: disc,
        field: Field::Replace,
        next: d.replace,
    };
    take(nodes, fonts, before, d.replace.or(after), at_replace, kerns)?;
    take_at_end(nodes, fonts, last_of(&post), after, kerns)?;
    take_at_end(nodes, fonts, last_of(&replace), after, kerns)
}

/// Takes the kerns at a node of a list: those of a discretionary, or the one between it and what follows.
fn take_at<N: Nodes>(
    alloc: Global,
    nodes: &N,
    fonts: &[Font],
    before: Option<u64>,
    n: u64,
    after: Option<u64>,
    kerns: &mut Vec<Kerning>,
) -> Result<(), NoMemory>
    requires { All IsWide kerns.old.items }
    ensures kerns { OnOk result (kerns.new.items ≡ kerns.old.items ++ kerns_at fonts.now (N.heap nodes.now) before n after) }
    ensures wide { OnOk result (All IsWide kerns.new.items) }
{
    let Ok(fields) = nodes.fields(n) else {
        return Ok(());
    };
    match fields.contents {
        Contents::Disc(d) => take_at_disc(alloc, nodes, fonts, before, n, d, after, kerns),
        _ => take_after(nodes, fonts, n, after, kerns),
    }
}

/// The kerns of a list, from the left to the right.
pub(crate) fn kerns_of<N: Nodes>(
    alloc: Global,
    nodes: &N,
    fonts: &[Font],
    names: &[u64],
) -> Result<Vec<Kerning>, NoMemory>
    ensures kerns { Gives (result_map (λ kerns. kerns.items) result) (kerns_of fonts.now (N.heap nodes.now) names.now) }
    ensures wide { IfOk result (λ kerns. All IsWide kerns.items) }
{
    let mut kerns = Vec::new(alloc);
    let mut before = None;
    for i in 0..names.len() {
        let n = names[i];
        take_at(
            alloc,
            nodes,
            fonts,
            before,
            n,
            name_at(names, i + 1),
            &mut kerns,
        )?;
        before = Some(n);
    }
    Ok(kerns)
}
