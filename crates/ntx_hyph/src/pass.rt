//! The pass over a list.

ghost use Rattle.std.specs.Prelude.{◌≡◌, List};
ghost use Rattle.ntx_num.specs.Answer.{Answers, Traces, result_map};
ghost use Rattle.ntx_lists.specs.MadeNodes.{RefusesAs};
ghost use Rattle.ntx_patterns.specs.Kept.{table};
ghost use Rattle.ntx_patterns.specs.Pattern.{Pattern};
ghost use Rattle.ntx_patterns.specs.Points.{points_in, points_of};
ghost use Rattle.ntx_patterns.specs.Table.{table_of};
ghost use Rattle.ntx_num.specs.Trace.{states, EndsAs};
ghost use Rattle.ntx_hyph.specs.Hyphenation.{list_names, hyphen_char, hyphenation};

use crate::insertion::hyphenate_gaps;
use crate::reading::gaps_in;
use ntx_item::{Param, Params};
use ntx_nodes::{ListKind, Nodes, Trouble, Way, names_reached, visit_list};
use ntx_num::Fail;
use ntx_patterns::Patterns;
use std::alloc::Global;

/// The nodes of the list itself. Refuses as the check of a horizontal list does.
fn list_names<N: Nodes>(alloc: Global, nodes: &mut N, head: u64) -> Result<Vec<u64>, Fail<Trouble>>
    ensures same { N.heap nodes.new ≡ N.heap nodes.old }
    ensures names { Answers (result_map (λ names. names.items) result) (list_names (N.heap nodes.old) head) }
{
    match visit_list(nodes, Way::Checked, Some(head), ListKind::H) {
        Ok(()) => {}
        Err(why) => return Err(Fail::Is(why)),
    }
    names_reached(alloc, nodes, Way::Flat, Some(head), ListKind::H)
}

/// The code of the hyphen, if there is one.
fn hyphen_char(params: &Params) -> Option<u8>
    ensures { result ≡ hyphen_char params.now.hyphenchar }
{
    let code = params.get(Param::Hyphenchar);
    if code < 0 { None } else { Some(code as u8) }
}

/// Makes the walk that checks the list, and then the pass over it.
fn hyphenate_list<N: Nodes>(
    alloc: Global,
    nodes: &mut N,
    p: &Patterns,
    params: &Params,
    head: u64,
) -> Result<(), Fail<Trouble>>
    ensures traced { EndsAs result (N.heap nodes.new) (hyphenation (points_in (table p.now)) params.now head (N.heap nodes.old)) }
    ensures refused { RefusesAs (N.heap nodes.old) head result }
{
    let names = list_names(alloc, nodes, head)?;
    nodes.lawful();
    match hyphen_char(params) {
        None => Ok(()),
        Some(char) => {
            let gaps = gaps_in(alloc, nodes, p, params, &names)?;
            hyphenate_gaps(nodes, char, &gaps)
        }
    }
}

/// Hyphenates the words of the list at a head. A word is a maximal run of adjacent glyphs of the list itself that have one
/// font and whose codes are letters, A to Z or a to z. At each point that the patterns give it, with at least
/// `lefthyphenmin` letters before and `righthyphenmin` after, from the left to the right, a regular discretionary is made,
/// and then a glyph with the code `hyphenchar` and the word's font, which stands before a break there. Both take the
/// attributes of the glyph before the point. If `hyphenchar` is -1, nothing is made.
///
/// # Refusals
///
/// - Those of `check`: at each node of the walk through the list and all lists in it `Stale` if it is dead, `Loop` if the
///   walk reached it before, `Nest` at depth 101, and `WrongKind` if its list may not hold its kind, in this order.
/// - `NodesFull` if 2^18 nodes are live where a node is to be made, else `NamesOut` if the next name is 2^48.
///
/// After a refusal, and after running out of memory, what was made before stands in the list.
pub fn hyphenate<N: Nodes>(
    alloc: Global,
    nodes: &mut N,
    p: &Patterns,
    params: &Params,
    head: u64,
) -> Result<(), Fail<Trouble>>
    ensures traced { let pass = hyphenation (points_in (table p.now)) params.now head (N.heap nodes.old) in Traces result (N.heap nodes.new) (states pass) pass.ending }
    ensures pairs { (patterns : List Pattern) → table p.now ≡ table_of patterns → let pass = hyphenation (points_of patterns) params.now head (N.heap nodes.old) in Traces result (N.heap nodes.new) (states pass) pass.ending }
    ensures refused { RefusesAs (N.heap nodes.old) head result }
{
    hyphenate_list(alloc, nodes, p, params, head)
}
