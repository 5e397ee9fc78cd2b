//! Why a call of a script, or of its store, is refused.

use ntx_nodes::Trouble;

/// Why a script cannot go on.
#[derive(Clone, Copy, Debug, PartialEq, Eq)]
pub enum LuaWhy {
    /// An operator, a call or an index of a value that is not of its sort.
    WrongType,
    /// `//` or `%` by 0.
    ZeroDivisor,
    /// A table is set at nil.
    NilKey,
    /// A 201st function of the script would be active.
    Levels,
    /// There would be a 65537th table, or a 65537th key in one table.
    TablesFull,
    /// There would be more than 2^24 bytes of distinct texts, or more than 2^20 in one text.
    TextsFull,
    /// More than 2^24 bytes would be printed.
    PrintFull,
    /// A numeric `for` has step 0.
    ForStep,
    /// An argument of a function that no script wrote is of a wrong sort or value.
    BadArgument,
    /// A call on nodes is refused.
    Node(Trouble),
}

/// The key that a table's walk is to go on from is not nil and was never held.
#[derive(Clone, Copy, Debug, PartialEq, Eq)]
pub struct BadKey;
