//! The glue at both sides of a line.

ghost use Rattle.std.specs.Prelude.{◌≡◌};
ghost use Rattle.ntx_item.specs.Parameters.{IsGlueInRange};
ghost use Rattle.ntx_lines.specs.Skips.{finite, is_zero_glue, with_leftskip, with_rightskip};
ghost use Rattle.ntx_num.specs.Trace.{EndsAs};

use crate::ends::Ends;
use crate::making::{glue_fields, make_at_end, make_before};
use ntx_item::{GlueParam, GlueSpec, Params};
use ntx_nodes::{Nodes, Trouble};
use ntx_num::Fail;

/// The subtype of a glue that is leftskip.
const LEFTSKIP: u8 = 8;

/// The subtype of a glue that is rightskip.
pub(crate) const RIGHTSKIP: u8 = 9;

/// This glue with finite shrink.
fn finite(spec: GlueSpec) -> GlueSpec
    requires in_range { IsGlueInRange spec }
    ensures value { result ≡ finite spec }
    ensures in_range { IsGlueInRange result }
{
    GlueSpec {
        shrink_order: 0,
        ..spec
    }
}

/// Whether all five numbers of a glue are 0.
fn is_zero(spec: GlueSpec) -> bool
    ensures { result ≡ is_zero_glue spec }
{
    spec.width == 0
        && spec.stretch == 0
        && spec.stretch_order == 0
        && spec.shrink == 0
        && spec.shrink_order == 0
}

/// What stands at the right side of a line.
pub(crate) fn rightskip(params: &Params) -> GlueSpec
    ensures value { result ≡ finite params.now.rightskip }
    ensures in_range { IsGlueInRange result }
{
    finite(params.get_glue(GlueParam::Rightskip))
}

/// Makes rightskip at the end of a line, and gives the line's ends then. Refuses as the making of a node.
pub(crate) fn make_rightskip<N: Nodes>(
    nodes: &mut N,
    params: &Params,
    line: Ends,
) -> Result<Ends, Fail<Trouble>>
    ensures { EndsAs result (N.heap nodes.new) (with_rightskip params.now line (N.heap nodes.old)) }
{
    let n = make_at_end(nodes, glue_fields(RIGHTSKIP, rightskip(params)), line.last)?;
    Ok(line.with_last(n))
}

/// Makes leftskip in front of a line, unless all its numbers are 0, and gives the line's head then. Refuses as the making of a
/// node.
pub(crate) fn make_leftskip<N: Nodes>(
    nodes: &mut N,
    params: &Params,
    head: Option<u64>,
) -> Result<Option<u64>, Fail<Trouble>>
    ensures { EndsAs result (N.heap nodes.new) (with_leftskip params.now head (N.heap nodes.old)) }
{
    let leftskip = params.get_glue(GlueParam::Leftskip);
    if is_zero(leftskip) {
        return Ok(head);
    }
    let n = make_before(nodes, glue_fields(LEFTSKIP, finite(leftskip)), head)?;
    Ok(Some(n))
}
