//! The end of a line, at its break.

ghost use Rattle.std.specs.Prelude.{◌≡◌, ◌∷◌, [], Some, Ok};
ghost use Rattle.ntx_num.specs.Answer.{Answers};
ghost use Rattle.ntx_nodes.specs.Steps.{at};
ghost use Rattle.ntx_lines.specs.LineEnd.{discards, ended, ends_at, ends_at_disc, ends_with, freed, kern_values, nothing_after, replaced, rightskip_values, whole_line};
ghost use Rattle.ntx_num.specs.Trace.{stepped, EndsAs};
ghost use Rattle.ntx_lists.specs.Trees.{flush_list_step};

use crate::ends::{Ends, ends_at};
use crate::making::{answer, follow, set_all};
use crate::skips::{RIGHTSKIP, rightskip};
use ntx_item::Params;
use ntx_lists::flush_list;
use ntx_nodes::{Contents, DiscFields, Field, FieldValue, Nodes, Trouble};
use ntx_num::Fail;
use std::alloc::Global;

/// A line up to its break.
#[derive(Clone, Copy)]
pub(crate) struct Ended {
    /// The ends of the line.
    pub line: Ends,
    /// The ends of what begins the next line before its own nodes: what a discretionary shows after the break.
    pub front: Ends,
    /// Whether the line ends with glue that the break has made rightskip.
    pub has_rightskip: bool,
    /// Whether a discretionary broke it.
    pub is_hyphenated: bool,
}

impl Ended {
    /// A line that no discretionary broke.
    fn whole(line: Ends, has_rightskip: bool) -> Ended
        ensures { result ≡ whole_line line has_rightskip }
    {
        Ended {
            line,
            front: Ends::none(),
            has_rightskip,
            is_hyphenated: false,
        }
    }
}

/// What a glue at a break gets, which becomes rightskip.
fn rightskip_values(params: &Params) -> [(Field, FieldValue); 7]
    ensures { result ≡ rightskip_values params.now }
{
    let spec = rightskip(params);
    [
        (Field::Subtype, FieldValue::Number(i64::from(RIGHTSKIP))),
        (Field::Width, FieldValue::Number(spec.width)),
        (Field::Stretch, FieldValue::Number(spec.stretch)),
        (
            Field::StretchOrder,
            FieldValue::Number(i64::from(spec.stretch_order)),
        ),
        (Field::Shrink, FieldValue::Number(spec.shrink)),
        (
            Field::ShrinkOrder,
            FieldValue::Number(i64::from(spec.shrink_order)),
        ),
        (Field::Next, FieldValue::Link(None)),
    ]
}

/// What a kern at a break gets, which comes to nothing.
fn kern_values() -> [(Field, FieldValue); 2]
    ensures { result ≡ kern_values }
{
    [
        (Field::Kern, FieldValue::Number(0)),
        (Field::Next, FieldValue::Link(None)),
    ]
}

/// What any other node at a break gets, unless it is a discretionary: nothing follows it.
fn last_values() -> [(Field, FieldValue); 1]
    ensures { result ≡ nothing_after ∷ [] }
{
    [(Field::Next, FieldValue::Link(None))]
}

/// Ends a line with a node that stays and gets these values.
fn end_with<N: Nodes>(
    nodes: &mut N,
    body: Ends,
    n: u64,
    has_rightskip: bool,
    values: &[(Field, FieldValue)],
) -> Result<Ended, Fail<Trouble>>
    ensures { EndsAs result (N.heap nodes.new) (ends_with body n has_rightskip values.now (N.heap nodes.old)) }
{
    set_all(nodes, n, values)?;
    Ok(Ended::whole(body.with_last(n), has_rightskip))
}

/// Frees all that a list reaches.
fn flush<N: Nodes>(nodes: &mut N, head: Option<u64>) -> Result<(), Fail<Trouble>>
    ensures { EndsAs result (N.heap nodes.new) (stepped (flush_list_step head (N.heap nodes.old)) (N.heap nodes.old)) }
{
    answer(flush_list(nodes, head))
}

/// Replaces a discretionary at a break by what it shows before the break. What it shows without a break is freed, what it shows
/// after the break comes in front of the node after it, and it is freed itself.
fn replace_disc<N: Nodes>(
    nodes: &mut N,
    before: Option<u64>,
    n: u64,
    disc: DiscFields,
    last_of_post: Option<u64>,
    after: Option<u64>,
) -> Result<(), Fail<Trouble>>
    ensures { EndsAs result (N.heap nodes.new) (replaced before n disc last_of_post after (N.heap nodes.old)) }
{
    follow(nodes, before, disc.pre)?;
    flush(nodes, disc.replace)?;
    follow(nodes, last_of_post, after)?;
    free(nodes, n)
}

/// Ends a line at a discretionary.
fn end_at_disc<N: Nodes>(
    alloc: Global,
    nodes: &mut N,
    body: Ends,
    n: u64,
    disc: DiscFields,
    after: Option<u64>,
) -> Result<Ended, Fail<Trouble>>
    ensures { EndsAs result (N.heap nodes.new) (ends_at_disc body n disc after (N.heap nodes.old)) }
{
    let pre = ends_at(alloc, nodes, disc.pre)?;
    let post = ends_at(alloc, nodes, disc.post)?;
    replace_disc(nodes, body.last, n, disc, post.last, after)?;
    Ok(Ended {
        line: body.then(pre),
        front: post,
        has_rightskip: false,
        is_hyphenated: true,
    })
}

/// Ends a line at a node with these contents: glue becomes rightskip, a kern comes to nothing, a discretionary is replaced by
/// what it shows before the break, and anything else stays. Nothing follows the line then.
fn end_at<N: Nodes>(
    alloc: Global,
    nodes: &mut N,
    params: &Params,
    body: Ends,
    n: u64,
    after: Option<u64>,
    contents: Contents,
) -> Result<Ended, Fail<Trouble>>
    ensures { EndsAs result (N.heap nodes.new) (ends_at params.now body n after contents (N.heap nodes.old)) }
{
    match contents {
        Contents::Glue(_) => end_with(nodes, body, n, true, &rightskip_values(params)),
        Contents::Kern(_) => end_with(nodes, body, n, false, &kern_values()),
        Contents::Disc(disc) => end_at_disc(alloc, nodes, body, n, disc, after),
        _ => end_with(nodes, body, n, false, &last_values()),
    }
}

/// The contents of a node. Refuses with Stale of a dead one.
fn contents_at<N: Nodes>(nodes: &N, n: u64) -> Result<Contents, Fail<Trouble>>
    ensures { Answers result (at (N.heap nodes.now) n (λ node. Ok node.fields.contents)) }
{
    match nodes.fields(n) {
        Ok(fields) => Ok(fields.contents),
        Err(why) => Err(Fail::Is(why)),
    }
}

/// Ends a line at its break, or at the end of the paragraph, where nothing is to be done.
pub(crate) fn end_line<N: Nodes>(
    alloc: Global,
    nodes: &mut N,
    params: &Params,
    body: Ends,
    at: Option<u64>,
    after: Option<u64>,
) -> Result<Ended, Fail<Trouble>>
    ensures { EndsAs result (N.heap nodes.new) (ended params.now body at after (N.heap nodes.old)) }
{
    let Some(n) = at else {
        return Ok(Ended::whole(body, false));
    };
    let contents = contents_at(nodes, n)?;
    end_at(alloc, nodes, params, body, n, after, contents)
}

/// Frees a node.
fn free<N: Nodes>(nodes: &mut N, n: u64) -> Result<(), Fail<Trouble>>
    ensures { EndsAs result (N.heap nodes.new) (freed n (N.heap nodes.old)) }
{
    answer(nodes.free_one(n))
}

/// Frees what a break discards.
pub(crate) fn discard<N: Nodes>(nodes: &mut N, names: &[u64]) -> Result<(), Fail<Trouble>>
    ensures { EndsAs result (N.heap nodes.new) (discards names.now (N.heap nodes.old)) }
{
    for n in names {
        free(nodes, *n)?;
    }
    Ok(())
}
