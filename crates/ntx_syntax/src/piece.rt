//! The pieces that a script is cut into.

use crate::fault::SyntaxWhy;
use crate::token::Sort;

/// What a run of bytes spells.
#[derive(Clone, Copy, Debug, PartialEq, Eq)]
pub enum Piece {
    /// A blank or a comment, which parts tokens.
    Gap,
    /// A token.
    Token(Sort),
    /// What may not stand in a script.
    Wrong(SyntaxWhy),
}
