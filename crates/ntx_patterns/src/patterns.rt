//! Patterns as they are kept.

use crate::trie::Node;

/// Patterns as they are kept. Contracts see their `table`: for each list of symbols the digits that the patterns with these
/// symbols have, each the greatest of its place.
///
/// Each symbol of a pattern takes at most about 100 bytes of memory. Patterns that begin alike share those of their beginning.
#[derive(Debug, Drop)]
pub struct Patterns {
    pub(crate) trie: Node,
}
