//! The vertical list of a paragraph.

ghost use Rattle.std.specs.Prelude.{◌≡◌, ◌≤◌, ◌^◌, ◌+ℤ◌, ◌-ℤ◌, int_lt, IfOk};
ghost use Rattle.ntx_num.specs.Dimension.{IsDimension, IsWithin, max_penalty};
ghost use Rattle.ntx_num.specs.Answer.{Answers};
ghost use Rattle.ntx_nodes.specs.Heap.{Heap};
ghost use Rattle.ntx_nodes.specs.Writing.{AreMakable};
ghost use Rattle.ntx_item.specs.Parameters.{IsGlueInRange};
ghost use Rattle.ntx_pack.specs.Vertical.{interline_glue};
ghost use Rattle.ntx_lines.specs.Above.{nothing_above, above_with, interline_subtype, checked_glue, interline_fields, interline, interline_after, with_box, line_penalty, only_if, with_penalty};
ghost use Rattle.ntx_num.specs.Trace.{EndsAs};

use crate::line_box::box_fields;
use crate::making::{follow, glue_fields, make_at_end, make_before, penalty_fields};
use ntx_item::{GlueParam, GlueSpec, Param, Params};
use ntx_nodes::{Fields, Nodes, Trouble};
use ntx_num::{Fail, is_dimension};

/// The subtypes of glue between two lines.
const LINESKIP: u8 = 1;

const BASELINESKIP: u8 = 2;

/// The vertical list so far.
#[derive(Clone, Copy)]
pub(crate) struct Above {
    /// The first node.
    pub first: Option<u64>,
    /// The last node.
    pub last: Option<u64>,
    /// The depth of the last line, in scaled points.
    pub depth: i64,
}

/// What the penalty after a line depends on.
#[derive(Clone, Copy)]
pub(crate) struct Place {
    /// Whether the line is the first one.
    pub is_first: bool,
    /// Whether the last line alone comes later.
    pub is_before_last: bool,
    /// Whether a discretionary broke it.
    pub is_hyphenated: bool,
}

/// What a width leaves between a box of this depth and one of this height below it.
fn left_between(width: i64, depth: i64, height: i64) -> i64
    requires width { IsDimension width }
    requires depth { IsDimension depth }
    requires height { IsDimension height }
    ensures { result ≡ (width -ℤ depth) -ℤ height }
{
    width - depth - height
}

/// What baselineskip leaves between a box of this depth and one of this height below it, in scaled points.
fn gap(params: &Params, depth: i64, height: i64) -> i64
    requires depth { IsDimension depth }
    requires height { IsDimension height }
    ensures { result ≡ (params.now.baselineskip.width -ℤ depth) -ℤ height }
{
    let baselineskip = params.get_glue(GlueParam::Baselineskip);
    left_between(baselineskip.width, depth, height)
}

/// Whether boxes with this gap between them would be too close.
fn is_close(params: &Params, gap: i64) -> bool
    ensures { result ≡ int_lt gap params.now.lineskiplimit }
{
    gap < params.get(Param::Lineskiplimit)
}

/// The subtype of the glue between a box of this depth and one of this height below it: lineskip if they would be too close.
fn interline_subtype(params: &Params, depth: i64, height: i64) -> u8
    requires depth { IsDimension depth }
    requires height { IsDimension height }
    ensures value { result ≡ interline_subtype params.now depth height }
    ensures byte { result ≤ 255 }
{
    if is_close(params, gap(params, depth, height)) {
        return LINESKIP;
    }
    BASELINESKIP
}

/// The glue between the same boxes. All but its width can be a node's.
fn interline_spec(params: &Params, depth: i64, height: i64) -> GlueSpec
    requires depth { IsDimension depth }
    requires height { IsDimension height }
    ensures value { result ≡ interline_glue params.now depth height }
    ensures in_range { IsDimension result.width → IsGlueInRange result }
{
    let width = gap(params, depth, height);
    if is_close(params, width) {
        return params.get_glue(GlueParam::Lineskip);
    }
    GlueSpec {
        width,
        ..params.get_glue(GlueParam::Baselineskip)
    }
}

/// Refuses with Dimension where a glue is wider than a node can be.
fn checked_glue(spec: GlueSpec) -> Result<GlueSpec, Fail<Trouble>>
    requires { IsDimension spec.width → IsGlueInRange spec }
    ensures answer { Answers result (checked_glue spec) }
    ensures in_range { IfOk result IsGlueInRange }
{
    if is_dimension(spec.width) {
        return Ok(spec);
    }
    Err(Fail::Is(Trouble::Dimension))
}

/// The fields of that glue. Refuses with Dimension where it is wider than a node can be.
fn interline_fields(params: &Params, depth: i64, height: i64) -> Result<Fields, Fail<Trouble>>
    requires depth { IsDimension depth }
    requires height { IsDimension height }
    ensures answer { Answers result (interline_fields params.now depth height) }
    ensures makable { IfOk result (λ fields. (heap : Heap) → AreMakable heap fields) }
{
    let spec = checked_glue(interline_spec(params, depth, height))?;
    Ok(glue_fields(interline_subtype(params, depth, height), spec))
}

/// Makes the glue between the last node of a list and the box `n`, of this height, after it.
fn make_interline<N: Nodes>(
    nodes: &mut N,
    params: &Params,
    depth: i64,
    height: i64,
    last: u64,
    n: u64,
) -> Result<(), Fail<Trouble>>
    requires depth { IsDimension depth }
    requires height { IsDimension height }
    ensures { EndsAs result (N.heap nodes.new) (interline params.now depth height last n (N.heap nodes.old)) }
{
    let fields = interline_fields(params, depth, height)?;
    let glue = make_before(nodes, fields, Some(n))?;
    follow(nodes, Some(last), Some(glue))
}

/// The same after the last node of a list, or nothing if the list has no nodes.
fn make_interline_after<N: Nodes>(
    nodes: &mut N,
    params: &Params,
    depth: i64,
    height: i64,
    last: Option<u64>,
    n: u64,
) -> Result<(), Fail<Trouble>>
    requires depth { IsDimension depth }
    requires height { IsDimension height }
    ensures { EndsAs result (N.heap nodes.new) (interline_after params.now depth height last n (N.heap nodes.old)) }
{
    match last {
        None => Ok(()),
        Some(last) => make_interline(nodes, params, depth, height, last, n),
    }
}

/// A number, or 0.
fn only_if(test: bool, p: i64) -> i64
    ensures value { result ≡ only_if test p }
    ensures in_range { IsWithin (10 ^ 8) p → IsWithin (10 ^ 8) result }
{
    if test { p } else { 0 }
}

/// The sum of four penalties that parameters may be set to.
fn sum(a: i64, b: i64, c: i64, d: i64) -> i64
    requires a { IsWithin (10 ^ 8) a }
    requires b { IsWithin (10 ^ 8) b }
    requires c { IsWithin (10 ^ 8) c }
    requires d { IsWithin (10 ^ 8) d }
    ensures value { result ≡ ((a +ℤ b) +ℤ c) +ℤ d }
    ensures in_range { IsWithin max_penalty result }
{
    a + b + c + d
}

/// The penalty after a line.
pub(crate) fn line_penalty(params: &Params, place: Place) -> i64
    ensures value { result ≡ line_penalty params.now place.is_first place.is_before_last place.is_hyphenated }
    ensures in_range { IsWithin max_penalty result }
{
    let each = params.get(Param::Interlinepenalty);
    let club = params.get(Param::Clubpenalty);
    let widow = params.get(Param::Widowpenalty);
    let broken = params.get(Param::Brokenpenalty);
    let at_first = only_if(place.is_first, club);
    let at_last = only_if(place.is_before_last, widow);
    let at_hyphen = only_if(place.is_hyphenated, broken);
    sum(each, at_first, at_last, at_hyphen)
}

impl Above {
    /// No lines.
    pub fn nothing() -> Above
        ensures { result ≡ nothing_above }
    {
        Above {
            first: None,
            last: None,
            depth: 0,
        }
    }

    /// With this node more, a box of this depth.
    fn with(self, n: u64, depth: i64) -> Above
        ensures { result ≡ above_with self n depth }
    {
        Above {
            first: self.first.or(Some(n)),
            last: Some(n),
            depth,
        }
    }

    /// Puts a box at the end, after interline glue if it is not the first one. Refuses with Dimension where the glue is wider
    /// than a node can be, and as the making of a node.
    pub fn with_box<N: Nodes>(
        self,
        nodes: &mut N,
        params: &Params,
        n: u64,
    ) -> Result<Above, Fail<Trouble>>
        requires { IsDimension self.depth }
        ensures traced { EndsAs result (N.heap nodes.new) (with_box params.now self n (N.heap nodes.old)) }
        ensures depth { IfOk result (λ above. IsDimension above.depth) }
    {
        let fields = box_fields(nodes, n)?;
        follow(nodes, self.last, Some(n))?;
        make_interline_after(nodes, params, self.depth, fields.height, self.last, n)?;
        Ok(self.with(n, fields.depth))
    }

    /// Puts a penalty at the end, unless it is 0. Refuses as the making of a node.
    pub fn with_penalty<N: Nodes>(self, nodes: &mut N, p: i64) -> Result<Above, Fail<Trouble>>
        requires { IsWithin max_penalty p }
        ensures traced { EndsAs result (N.heap nodes.new) (with_penalty p self (N.heap nodes.old)) }
        ensures depth { IfOk result (λ above. above.depth ≡ self.depth) }
    {
        if p == 0 {
            return Ok(self);
        }
        let n = make_at_end(nodes, penalty_fields(p), self.last)?;
        Ok(Above {
            last: Some(n),
            ..self
        })
    }
}
