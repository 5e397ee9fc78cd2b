//! Why a page is not shipped.

use ntx_nodes::Trouble;

/// Why a page is not shipped.
#[derive(Clone, Copy, Debug, PartialEq, Eq)]
pub enum ShipFault {
    /// The page cannot be placed.
    Trouble(Trouble),
    /// An operation would end past the limit on the length of the DVI file.
    DviFull,
}
