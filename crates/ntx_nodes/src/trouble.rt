//! What a heap or a pass over lists refuses, and where.

/// Why a call on nodes refuses what was asked. A name in it is the node that it is about.
#[derive(Clone, Copy, Debug, PartialEq, Eq)]
pub enum Trouble {
    /// No live node has this name.
    Stale(u64),
    /// This node is of a kind that may not stand there, or is no box where a box is asked for.
    WrongKind(u64),
    /// A walk reached this node a second time, or the node that was to be inserted is in the list already.
    Loop(u64),
    /// The list does not reach this node.
    NotInList(u64),
    /// Nodes of this kind have no such field.
    NoField,
    /// The value is outside the field's range, or not of the field's sort.
    BadValue,
    /// 2^18 nodes are live, as many as may be.
    NodesFull,
    /// No name below 2^48 is left.
    NamesOut,
    /// There would be a 65th attribute.
    AttrFull,
    /// A size, or a position on a page, is beyond TeX's largest dimension, 2^30-1 scaled points, in absolute value.
    Dimension,
    /// The 256th ligature step without a move.
    LigLoop,
    /// This glyph names a font or a character that is not there.
    NoChar(u64),
    /// The paragraph's lines have no hlist at their top level.
    NoBox,
    /// A ninth job would run inside the others.
    Deep,
    /// A list that is not empty lies at depth 101 inside others.
    Nest,
}

/// What was being done when trouble came.
#[derive(Clone, Copy, Debug, PartialEq, Eq)]
pub enum Phase {
    /// Words were hyphenated.
    Hyphenate,
    /// Ligatures were made.
    Ligaturing,
    /// Kerns were put in.
    Kerning,
    /// A paragraph was given its last glue.
    Parfill,
    /// A paragraph was got ready to be broken.
    PreLinebreak,
    /// A paragraph was broken into lines.
    Linebreak,
    /// The lines were looked at.
    PostLinebreak,
    /// The lines were handed on.
    Done,
    /// A box was packed.
    Hpack,
    /// A list was built.
    Build,
    /// The page was built.
    Page,
    /// The page was written.
    Ship,
    /// A job was started.
    Start,
}
