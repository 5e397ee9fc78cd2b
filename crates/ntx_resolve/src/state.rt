//! What was resolved so far.

use crate::code::Function;
use crate::scope::Scope;
use sqlite_items::Items;

/// What was resolved so far.
#[derive(Drop)]
pub struct State {
    /// The functions whose bodies were resolved.
    pub functions: Items<Function>,
    /// The names in scope.
    pub scope: Scope,
}
