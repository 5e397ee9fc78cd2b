//! One way along a list.

ghost use Rattle.std.specs.Prelude.{◌≡◌, ◌+◌, ◌<◌, ◌^◌};
ghost use Rattle.ntx_lists.specs.Survey.{survey_with, Surveys};

use crate::links::following;
use ntx_nodes::{Nodes, Trouble};

/// What was seen on the way along a list.
#[derive(Clone, Copy, Debug, PartialEq, Eq)]
pub(crate) struct Survey {
    /// How many nodes there are.
    pub length: u64,
    /// The last of them.
    pub last: Option<u64>,
    /// The node before the one that is looked for.
    pub before: Option<u64>,
    /// Whether that one was met.
    pub found: bool,
}

impl Survey {
    /// With one more node at the end, where `cur` is looked for.
    fn with(self, n: u64, cur: u64) -> Survey
        requires { self.length + 1 < 2 ^ 64 }
        ensures { result ≡ survey_with self n cur }
    {
        let here = cur == n;
        Survey {
            length: self.length + 1,
            last: Some(n),
            before: if self.found || !here {
                self.before
            } else {
                self.last
            },
            found: self.found || here,
        }
    }
}

/// Goes along the list at a head, looking for `cur`, from the nodes that are visited already, and visits its nodes.
///
/// At each node it refuses with Stale where it is dead, and else with Loop where it was visited before.
pub(crate) fn go_along<N: Nodes>(nodes: &mut N, head: u64, cur: u64) -> Result<Survey, Trouble>
    ensures same { N.heap nodes.new ≡ N.heap nodes.old }
    ensures surveys { Surveys (N.heap nodes.old) head cur (N.visited nodes.old) (N.visited nodes.new) result }
{
    nodes.lawful();
    let mut seen = Survey {
        length: 0,
        last: None,
        before: None,
        found: false,
    };
    let mut at = Some(head);
    while let Some(n) = at {
        if !nodes.visit(n)? {
            return Err(Trouble::Loop(n));
        }
        seen = seen.with(n, cur);
        at = following(nodes, n);
    }
    Ok(seen)
}
