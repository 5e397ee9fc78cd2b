//! The parts of a machine that its steps change.

use ntx_dvi::Dvi;
use ntx_item::Params;

/// The parts of a machine that its steps change.
#[derive(Drop)]
pub struct Engine<N> {
    /// The nodes.
    pub nodes: N,
    /// The parameters.
    pub params: Params,
    /// The head of the main vertical list, if anything stands in it.
    pub main: Option<u64>,
    /// The DVI file.
    pub dvi: Dvi,
}
