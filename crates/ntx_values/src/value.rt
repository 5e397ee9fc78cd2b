//! Values of scripts.

ghost use Rattle.std.specs.Prelude.{◌≡◌};
ghost use Rattle.ntx_values.specs.Value.{is_nil};

use crate::Primitive;

/// The number of a text of a store: its place among the texts made, from 0.
#[derive(Clone, Copy, Debug, PartialEq, Eq, Hash)]
pub struct TextId {
    pub(crate) number: usize,
}

/// The number of a table of a store: its place among the tables made, from 0.
#[derive(Clone, Copy, Debug, PartialEq, Eq, Hash)]
pub struct TableId {
    pub(crate) number: usize,
}

/// The number of a function of a store: how many were given before it.
#[derive(Clone, Copy, Debug, PartialEq, Eq, Hash)]
pub struct FuncId {
    pub(crate) number: u64,
}

/// A value of a script (Lua 5.3 Reference Manual, section 2.1). Two values are equal where they are the same: texts by
/// their bytes, since a store has each text once, tables and functions by identity, nodes by name.
#[derive(Clone, Copy, Debug, PartialEq, Eq, Hash)]
pub enum Value {
    /// No value.
    Nil,
    /// A truth value.
    Bool(bool),
    /// An integer of 64 bits.
    Int(i64),
    /// A text of the store.
    Text(TextId),
    /// A table of the store.
    Table(TableId),
    /// A function that the script wrote, of the store.
    Function(FuncId),
    /// A function of the library or of the engine.
    Prim(Primitive),
    /// A node by its name, which is below 2^48; it may be dead.
    Node(u64),
}

impl FuncId {
    /// How many functions of its store were given a number before it.
    pub fn number(self) -> u64
        ensures { result ≡ self.number }
    {
        self.number
    }
}

impl Value {
    /// Whether it is nil.
    pub fn is_nil(self) -> bool
        ensures { result ≡ is_nil self }
    {
        matches!(self, Value::Nil)
    }
}
