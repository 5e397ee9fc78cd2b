//! Functions that no script wrote: those of the library, and the primitives of the engine.

use ntx_nodes::Kind;

/// A function of the library for scripts, and the iterator that `ipairs` gives (Lua 5.3 Reference Manual, section 6).
#[derive(Clone, Copy, Debug, PartialEq, Eq, Hash)]
pub enum LibFn {
    /// `print`
    Print,
    /// `tostring`
    ToString,
    /// `type`
    TypeOf,
    /// `pairs`
    Pairs,
    /// `ipairs`
    Ipairs,
    /// The iterator that `ipairs` gives.
    IpairsNext,
    /// `next`
    Next,
    /// `string.len`
    StringLen,
    /// `string.sub`
    StringSub,
    /// `string.byte`
    StringByte,
    /// `string.char`
    StringChar,
    /// `string.rep`
    StringRep,
    /// `string.format`
    StringFormat,
    /// `table.insert`
    TableInsert,
    /// `table.remove`
    TableRemove,
    /// `table.concat`
    TableConcat,
    /// `math.abs`
    MathAbs,
    /// `math.max`
    MathMax,
    /// `math.min`
    MathMin,
}

/// A function that no script wrote (LuaTeX Reference Manual, chapters "Nodes" and "Callbacks"). Two are equal where
/// their variants are.
#[derive(Clone, Copy, Debug, PartialEq, Eq)]
#[derive_where(Hash)]
pub enum Primitive {
    /// A function of the library.
    Lib(LibFn),
    /// `node.new`
    NodeNew,
    /// `node.free`
    NodeFree,
    /// `node.flush_list`
    NodeFlushList,
    /// `node.copy`
    NodeCopy,
    /// `node.copy_list`
    NodeCopyList,
    /// `node.insert_before`
    NodeInsertBefore,
    /// `node.insert_after`
    NodeInsertAfter,
    /// `node.remove`
    NodeRemove,
    /// `node.slide`
    NodeSlide,
    /// `node.tail`
    NodeTail,
    /// `node.length`
    NodeLength,
    /// `node.traverse`
    NodeTraverse,
    /// `node.traverse_id`
    NodeTraverseId,
    /// `node.id`
    NodeId,
    /// `node.type`
    NodeType,
    /// `node.is_node`
    NodeIsNode,
    /// `node.hpack`
    NodeHpack,
    /// `node.vpack`
    NodeVpack,
    /// `node.dimensions`
    NodeDimensions,
    /// `node.set_attribute`
    NodeSetAttribute,
    /// `node.unset_attribute`
    NodeUnsetAttribute,
    /// `node.has_attribute`
    NodeHasAttribute,
    /// `node.ligaturing`
    NodeLigaturing,
    /// `node.kerning`
    NodeKerning,
    /// `lang.hyphenate`
    LangHyphenate,
    /// `tex.get`
    TexGet,
    /// `tex.set`
    TexSet,
    /// `tex.linebreak`
    TexLinebreak,
    /// `tex.typeset`
    TexTypeset,
    /// `callback.register`
    CallbackRegister,
    /// `callback.find`
    CallbackFind,
    /// What reads a field: `n.f`, with the node and the key.
    NodeGet,
    /// What sets a field: `n.f = v`, with the node, the key and the value.
    NodeSet,
    /// The iterator that `node.traverse` gives.
    ListNext,
    /// The iterator that `node.traverse_id` gives for a kind.
    KindNext(#[derive_where(skip(Hash))] Kind),
}
