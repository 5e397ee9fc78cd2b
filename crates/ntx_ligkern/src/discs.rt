//! Glyphs that go into discretionaries.

ghost use Rattle.std.specs.Prelude.{◌≡◌, reverse, slice_get, None};
ghost use Rattle.std.specs.Option.{option_map};
ghost use Rattle.ntx_num.specs.Answer.{Gives, result_map};
ghost use Rattle.ntx_num.specs.Trace.{EndsAs};
ghost use Rattle.ntx_ligkern.specs.Along.{along};
ghost use Rattle.ntx_ligkern.specs.Kerns.{last_of};
ghost use Rattle.ntx_ligkern.specs.Ligaturing.{disc_of, disc_at, part_of, link_at, part_at, copied_into, linked_from, moved_in, drawn_before, copied_to_post, moved_back, drawn_after};

use crate::linking::{copy, link, put_in};
use crate::listing::along;
use ntx_nodes::{Contents, DiscFields, Field, Nodes, Trouble};
use ntx_num::{Fail, NoMemory};
use std::alloc::Global;

/// The contents of a node as a discretionary, if it is one.
fn disc_of(contents: Contents) -> Option<DiscFields>
    ensures { result ≡ disc_of contents }
{
    match contents {
        Contents::Disc(d) => Some(d),
        _ => None,
    }
}

/// A node as a discretionary, if it is one.
pub(crate) fn disc_at<N: Nodes>(nodes: &N, n: u64) -> Option<DiscFields>
    ensures { result ≡ disc_at (N.heap nodes.now) n }
{
    match nodes.fields(n) {
        Ok(fields) => disc_of(fields.contents),
        Err(_) => None,
    }
}

/// The first node of a list of a discretionary, if there is one.
fn part_of(f: Field, d: DiscFields) -> Option<u64>
    ensures { result ≡ part_of f d }
{
    match f {
        Field::Pre => d.pre,
        Field::Post => d.post,
        Field::Replace => d.replace,
        _ => None,
    }
}

/// The first node of a list of a discretionary in a heap, if there is one.
fn link_at<N: Nodes>(nodes: &N, disc: u64, f: Field) -> Option<u64>
    ensures { result ≡ link_at (N.heap nodes.now) disc f }
{
    match disc_at(nodes, disc) {
        Some(d) => part_of(f, d),
        None => None,
    }
}

/// The names of a list of a discretionary, the nearest last.
pub(crate) fn names_of_part<N: Nodes>(
    alloc: Global,
    nodes: &N,
    disc: u64,
    f: Field,
) -> Result<Vec<u64>, NoMemory>
    ensures { Gives (result_map (λ names. reverse names.items) result) (part_at (N.heap nodes.now) disc f) }
{
    reversed_along(alloc, nodes, link_at(nodes, disc, f))
}

/// The names of a list, the nearest last.
pub(crate) fn reversed_along<N: Nodes>(
    alloc: Global,
    nodes: &N,
    to: Option<u64>,
) -> Result<Vec<u64>, NoMemory>
    ensures { Gives (result_map (λ names. reverse names.items) result) (along (N.heap nodes.now) to) }
{
    let mut names = along(alloc, nodes, to)?;
    names.reverse();
    Ok(names)
}

/// The last node of a list of a discretionary, if it is not empty.
pub(crate) fn last_of_part<N: Nodes>(
    alloc: Global,
    nodes: &N,
    disc: u64,
    f: Field,
) -> Result<Option<u64>, NoMemory>
    ensures { Gives result (last_of (part_at (N.heap nodes.now) disc f)) }
{
    let names = along(alloc, nodes, link_at(nodes, disc, f))?;
    Ok(names.last().copied())
}

/// Puts a copy of a node before `next`, where the link `f` of the node `at` leads to it.
fn copy_into<N: Nodes>(
    nodes: &mut N,
    n: u64,
    at: u64,
    f: Field,
    next: Option<u64>,
) -> Result<(), Fail<Trouble>>
    ensures { EndsAs result (N.heap nodes.new) (copied_into n at f next (N.heap nodes.old)) }
{
    let copy = copy(nodes, n)?;
    put_in(nodes, copy, at, f, next)
}

/// Links the node before a node to it, if there is one.
fn link_from<N: Nodes>(nodes: &mut N, before: Option<u64>, n: u64) -> Result<(), Fail<Trouble>>
    ensures { EndsAs result (N.heap nodes.new) (linked_from before n (N.heap nodes.old)) }
{
    match before {
        Some(before) => link(nodes, before, Field::Next, Some(n)),
        None => Ok(()),
    }
}

/// Moves the glyph before a discretionary to the front of `replace`.
fn move_in<N: Nodes>(
    nodes: &mut N,
    before: Option<u64>,
    n: u64,
    disc: u64,
    d: DiscFields,
) -> Result<(), Fail<Trouble>>
    ensures { EndsAs result (N.heap nodes.new) (moved_in before n disc d (N.heap nodes.old)) }
{
    link_from(nodes, before, disc)?;
    put_in(nodes, n, disc, Field::Replace, d.replace)
}

/// Takes the glyph before a discretionary into it: a copy to the front of `pre`, and itself to the front of `replace`.
pub(crate) fn draw_before<N: Nodes>(
    nodes: &mut N,
    before: Option<u64>,
    n: u64,
    disc: u64,
    d: DiscFields,
) -> Result<(), Fail<Trouble>>
    ensures { EndsAs result (N.heap nodes.new) (drawn_before before n disc d (N.heap nodes.old)) }
{
    copy_into(nodes, n, disc, Field::Pre, d.pre)?;
    move_in(nodes, before, n, disc, d)
}

/// Puts a copy of a node at the end of `post`, whose last node is this one.
fn copy_to_post<N: Nodes>(
    nodes: &mut N,
    n: u64,
    disc: u64,
    last: Option<u64>,
) -> Result<(), Fail<Trouble>>
    ensures { EndsAs result (N.heap nodes.new) (copied_to_post n disc last (N.heap nodes.old)) }
{
    match last {
        Some(last) => copy_into(nodes, n, last, Field::Next, None),
        None => copy_into(nodes, n, disc, Field::Post, None),
    }
}

/// Moves the glyph after a discretionary to the end of `replace`, whose last node is this one.
fn move_back<N: Nodes>(
    nodes: &mut N,
    disc: u64,
    last: u64,
    n: u64,
    after: Option<u64>,
) -> Result<(), Fail<Trouble>>
    ensures { EndsAs result (N.heap nodes.new) (moved_back disc last n after (N.heap nodes.old)) }
{
    link(nodes, disc, Field::Next, after)?;
    put_in(nodes, n, last, Field::Next, None)
}

/// Takes the glyph after a discretionary into it: a copy to the end of `post`, and itself to the end of `replace`.
pub(crate) fn draw_after<N: Nodes>(
    alloc: Global,
    nodes: &mut N,
    disc: u64,
    last: u64,
    n: u64,
    after: Option<u64>,
) -> Result<(), Fail<Trouble>>
    ensures { EndsAs result (N.heap nodes.new) (drawn_after disc last n after (N.heap nodes.old)) }
{
    let end = last_of_part(alloc, nodes, disc, Field::Post)?;
    copy_to_post(nodes, n, disc, end)?;
    move_back(nodes, disc, last, n, after)
}
