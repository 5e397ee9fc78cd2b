//! The outside of `ntx`: where bytes come from and where they go, with a count of faults beside each.
//!
//! The traits [`Source`], [`Sink`] and [`Feed`] say what may be known of the outside: the bytes that a source has left and
//! those that a sink has taken, if it exposes them, and how often it has failed. [`MemSource`], [`MemFeed`] and [`MemSink`] expose everything;
//! [`NullSink`] and the adapters over files and standard output expose nothing of their content. It stands on `ntx_num`.
#![tactic(auto)]

mod feed;
mod file;
mod memory;
mod outside;
#[cfg(test)]
mod tests;
mod whole;

pub use feed::{FileFeed, MemFeed, font_name, read_feed};
pub use file::{FileSink, FileSource, StdoutSink};
pub use memory::{MemSink, MemSource, NullSink};
pub use outside::{Failed, Feed, Sink, Source};
pub use whole::{ReadWhy, WriteFault, read_all, write_all};
