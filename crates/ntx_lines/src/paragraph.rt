//! All lines of a paragraph.

ghost use Rattle.std.specs.Prelude.{◌≡◌, length, slice_get, IfOk};
ghost use Rattle.ntx_num.specs.Answer.{Traces};
ghost use Rattle.ntx_num.specs.Dimension.{IsDimension};
ghost use Rattle.ntx_num.specs.Trace.{states, EndsAs};
ghost use Rattle.ntx_breaks.specs.Chosen.{breaks_seen};
ghost use Rattle.ntx_lines.specs.Above.{nothing_above};
ghost use Rattle.ntx_lines.specs.Ends.{no_nodes};
ghost use Rattle.ntx_lines.specs.Parts.{parts_of};
ghost use Rattle.ntx_lines.specs.Lines.{boxed, line_made, lines_made, penalized, with_right};
ghost use Rattle.ntx_lines.specs.Lines as pass;
ghost use Rattle.ntx_lines.specs.inner.Seen.{part_seen};

use crate::above::{Above, Place, line_penalty};
use crate::ends::Ends;
use crate::line_box::pack_line;
use crate::line_end::{Ended, discard, end_line};
use crate::part::Part;
use crate::skips::{make_leftskip, make_rightskip};
use ntx_breaks::Breaks;
use ntx_item::{Item, Params};
use ntx_nodes::{ListKind, Nodes, Trouble, Way, names_reached};
use ntx_num::Fail;
use ntx_tfm::Font;
use ntx_view::items;
use std::alloc::Global;

/// The ends of a line with rightskip at its end.
fn with_right<N: Nodes>(nodes: &mut N, params: &Params, line: Ended) -> Result<Ends, Fail<Trouble>>
    ensures { EndsAs result (N.heap nodes.new) (with_right params.now line (N.heap nodes.old)) }
{
    if line.has_rightskip {
        return Ok(line.line);
    }
    make_rightskip(nodes, params, line.line)
}

/// The nodes from a head on in a box at the end of the vertical list.
fn push_line<N: Nodes>(
    alloc: Global,
    nodes: &mut N,
    fonts: &[Font],
    params: &Params,
    above: Above,
    head: Option<u64>,
) -> Result<Above, Fail<Trouble>>
    requires { IsDimension above.depth }
    ensures traced { EndsAs result (N.heap nodes.new) (boxed fonts.now params.now above head (N.heap nodes.old)) }
    ensures depth { IfOk result (λ above. IsDimension above.depth) }
{
    let first = make_leftskip(nodes, params, head)?;
    let n = pack_line(alloc, nodes, fonts, params, first)?;
    above.with_box(nodes, params, n)
}

/// The vertical list with a penalty after a line that so many come after, unless it is the last one.
fn push_penalty<N: Nodes>(
    nodes: &mut N,
    params: &Params,
    is_first: bool,
    is_hyphenated: bool,
    later: usize,
    above: Above,
) -> Result<Above, Fail<Trouble>>
    ensures traced { EndsAs result (N.heap nodes.new) (penalized params.now is_first is_hyphenated later above (N.heap nodes.old)) }
    ensures depth { IfOk result (λ longer. longer.depth ≡ above.depth) }
{
    if later == 0 {
        return Ok(above);
    }
    let place = Place {
        is_first,
        is_before_last: later == 1,
        is_hyphenated,
    };
    above.with_penalty(nodes, line_penalty(params, place))
}

/// Makes one line, after which so many come later, and puts it into the vertical list. Gives the list, and the ends of what
/// begins the next line.
fn make_line<N: Nodes>(
    alloc: Global,
    nodes: &mut N,
    fonts: &[Font],
    params: &Params,
    above: Above,
    front: Ends,
    part: Part,
    later: usize,
) -> Result<(Above, Ends), Fail<Trouble>>
    requires { IsDimension above.depth }
    ensures traced { EndsAs result (N.heap nodes.new) (line_made fonts.now params.now above front (part_seen part.entry) later (N.heap nodes.old)) }
    ensures depth { IfOk result (λ done. IsDimension done.0.depth) }
{
    let body = front.then(Ends::of(part.body));
    let line = end_line(alloc, nodes, params, body, part.at, part.after)?;
    let whole = with_right(nodes, params, line)?;
    discard(nodes, part.discarded)?;
    let longer = push_line(alloc, nodes, fonts, params, above, whole.first)?;
    let is_first = above.first.is_none();
    let longest = push_penalty(nodes, params, is_first, line.is_hyphenated, later, longer)?;
    Ok((longest, line.front))
}

/// The place after so many, if there is one.
fn place_after(places: &[u64], count: usize) -> Option<u64>
    ensures { result ≡ slice_get places.now count }
{
    places.get(count).copied()
}

/// Makes the lines that end at these places.
fn make_lines<N: Nodes>(
    alloc: Global,
    nodes: &mut N,
    fonts: &[Font],
    params: &Params,
    items: &[Item],
    names: &[u64],
    places: &[u64],
) -> Result<Above, Fail<Trouble>>
    ensures { EndsAs result (N.heap nodes.new) (lines_made fonts.now params.now nothing_above no_nodes (parts_of items.now names.now 0 places.now) (N.heap nodes.old)) }
{
    let mut above = Above::nothing();
    let mut front = Ends::none();
    let mut from = 0;
    for i in 0..places.len() {
        let to = places[i] as usize;
        let part = Part::new(items, names, from, to, place_after(places, i + 1));
        let (longer, next) = make_line(
            alloc,
            nodes,
            fonts,
            params,
            above,
            front,
            part,
            places.len() - i - 1,
        )?;
        above = longer;
        front = next;
        from = to;
    }
    Ok(above)
}

/// Reads the items and the names of a list, and makes the lines that end at these places.
fn make_paragraph<N: Nodes>(
    alloc: Global,
    nodes: &mut N,
    fonts: &[Font],
    head: u64,
    places: &[u64],
    params: &Params,
) -> Result<(u64, u64), Fail<Trouble>>
    ensures { EndsAs result (N.heap nodes.new) (pass.lines fonts.now params.now head places.now (N.heap nodes.old)) }
{
    let items = items(alloc, nodes, fonts, Some(head), ListKind::H)?;
    let names = names_reached(alloc, nodes, Way::Flat, Some(head), ListKind::H)?;
    let above = make_lines(alloc, nodes, fonts, params, &items, &names, places)?;
    Ok((above.first.unwrap_or(head), places.len() as u64))
}

/// Makes a vertical list of lines from the horizontal list at a head ("TeX: The Program", sections 876 to 890), and gives its
/// head and the number of lines. The breaks are meant to be those that `break_items` gives of the list's items and the
/// parameters.
///
/// Each line is made before the next one, in this order:
///
/// 1. Glue at its break becomes `rightskip`, an explicit kern there becomes 0, and a penalty stays. A discretionary is
///    replaced by what it shows before the break; what it shows without one is freed, what it shows after it begins the next
///    line, and it is freed itself. Then nothing follows the line.
/// 2. `rightskip` is made at its end, unless glue has become it.
/// 3. The glue, penalties and explicit kerns directly after the break, up to the next break, are freed, unless a
///    discretionary shows something after the break.
/// 4. `leftskip` is made in front, unless its five numbers are 0.
/// 5. The line is packed to `hsize`, in scaled points, into an hlist of subtype 1, and comes to the end of the vertical list.
/// 6. If it is not the first line, interline glue is made before it: `baselineskip` less the depth of the line before and the
///    height of this one, or `lineskip` if that is below `lineskiplimit`.
/// 7. If it is not the last line, a penalty is made after it, unless it would be 0: `interlinepenalty`, and `clubpenalty`
///    after the first line, `widowpenalty` before the last, and `brokenpenalty` after a discretionary.
///
/// `leftskip` and `rightskip` shrink finitely. What is made has the current attributes.
///
/// # Refusals
///
/// - First those of `ntx_view::items` for a horizontal list: `Stale`, `Loop`, `Nest`, `WrongKind` and `NoChar`. The heap stays
///   then.
/// - `Dimension` where the width, height or depth of a line, or the width of interline glue, is beyond 2^30-1 in absolute
///   value.
/// - `NodesFull` if 2^18 nodes are live where a node is to be made, else `NamesOut` if the next name is 2^48.
///
/// After one of the last three, and after running out of memory, what was done before is done.
pub fn lines<N: Nodes>(
    alloc: Global,
    nodes: &mut N,
    fonts: &[Font],
    head: u64,
    b: &Breaks,
    params: &Params,
) -> Result<(u64, u64), Fail<Trouble>>
    ensures { let made = pass.lines fonts.now params.now head (breaks_seen b.now).places (N.heap nodes.old) in Traces result (N.heap nodes.new) (states made) made.ending }
{
    make_paragraph(alloc, nodes, fonts, head, &b.places, params)
}
