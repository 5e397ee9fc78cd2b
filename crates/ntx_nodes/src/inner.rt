//! The inner lists of a node.

ghost use Rattle.std.specs.Prelude.{◌≡◌};
ghost use Rattle.ntx_nodes.specs.Walk.{no_lists};

use crate::ListKind;

/// The inner lists of a node, all of one kind, in the order in which a walk enters them. A box has one, a discretionary
/// three, and any other node none.
#[derive(Clone, Copy, Debug, PartialEq, Eq)]
pub struct InnerLists {
    /// The list in a box, or what stands before a break at a discretionary.
    pub first: Option<u64>,
    /// What stands after a break at a discretionary.
    pub second: Option<u64>,
    /// What stands at a discretionary with no break.
    pub third: Option<u64>,
    /// What each of them may hold.
    pub kind: ListKind,
}

impl InnerLists {
    /// No lists.
    pub fn none() -> InnerLists
        ensures { result ≡ no_lists }
    {
        InnerLists {
            first: None,
            second: None,
            third: None,
            kind: ListKind::H,
        }
    }
}
