//! The parts of a DVI file.

/// Where in the file a writer is.
#[derive(Clone, Copy)]
pub enum Part {
    /// Nothing is written.
    BeforeBegin,
    /// The preamble and whole pages are written.
    BetweenPages,
    /// A page has begun and not ended.
    InPage,
    /// The postamble is written.
    AfterEnd,
}
