//! The two ends of a list.

ghost use Rattle.std.specs.Prelude.{◌≡◌};
ghost use Rattle.ntx_num.specs.Trace.{EndsAs};
ghost use Rattle.ntx_lines.specs.Ends.{ends_of, joined, no_nodes, with_last};
ghost use Rattle.ntx_lines.specs.LineEnd.{ends_found};

use ntx_nodes::{ListKind, Nodes, Trouble, Way, names_reached};
use ntx_num::Fail;
use std::alloc::Global;

/// The first and the last node of a list, which may be empty.
#[derive(Clone, Copy, Debug, PartialEq, Eq)]
pub(crate) struct Ends {
    /// The first node.
    pub first: Option<u64>,
    /// The last node.
    pub last: Option<u64>,
}

impl Ends {
    /// Those of the empty list.
    pub fn none() -> Ends
        ensures { result ≡ no_nodes }
    {
        Ends {
            first: None,
            last: None,
        }
    }

    /// Those of a list of these nodes.
    pub fn of(names: &[u64]) -> Ends
        ensures { result ≡ ends_of names.now }
    {
        Ends {
            first: names.first().copied(),
            last: names.last().copied(),
        }
    }

    /// Those of a list and then another.
    pub fn then(self, later: Ends) -> Ends
        ensures { result ≡ joined self later }
    {
        Ends {
            first: self.first.or(later.first),
            last: later.last.or(self.last),
        }
    }

    /// Those of a list with one node more at its end.
    pub fn with_last(self, n: u64) -> Ends
        ensures { result ≡ with_last self n }
    {
        self.then(Ends {
            first: Some(n),
            last: Some(n),
        })
    }
}

/// The ends of the list at a head. Refuses along the list with Stale where a node is dead, and Loop where the list comes to it
/// a second time.
pub(crate) fn ends_at<N: Nodes>(
    alloc: Global,
    nodes: &mut N,
    head: Option<u64>,
) -> Result<Ends, Fail<Trouble>>
    ensures { EndsAs result (N.heap nodes.new) (ends_found head (N.heap nodes.old)) }
{
    let names = names_reached(alloc, nodes, Way::Flat, head, ListKind::H)?;
    Ok(Ends::of(&names))
}
