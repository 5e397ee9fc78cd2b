//! A document typeset in memory.

use crate::font::font_file;
use ntx_io::{Feed, MemFeed, MemSink, MemSource};
use ntx_nodes::{Nodes, PlainHeap};
use ntx_run::{Place, Status, run_over};
use std::alloc::Global;
use std::test::Fail;

/// Four files, and a font at its design size and at 450000 scaled points.
const WORDS: [&str; 6] = [
    "document",
    "script",
    "patterns",
    "dvi",
    "T.tfm",
    "U.tfm@450000",
];

/// What a run gave.
#[derive(Drop)]
pub struct Given {
    /// How it ended.
    pub status: Status,
    /// Where it stopped.
    pub place: Option<Place>,
    /// All bytes of the DVI file.
    pub dvi: Vec<u8>,
    /// How many nodes are left, if they are given back.
    pub live: Option<u64>,
}

/// The feed of the small font under a name.
fn feed(alloc: Global, name: &str) -> Result<Box<MemFeed>, Fail> {
    let feed = MemFeed::new(
        String::from_str(alloc, name)?,
        font_file(alloc)?,
        Vec::new(alloc),
    );
    Ok(Box::new(alloc, feed)?)
}

/// The words as texts of their own.
fn texts(alloc: Global, words: &[&str]) -> Result<Vec<String>, Fail> {
    let mut texts = Vec::new(alloc);
    for word in words {
        texts.push(String::from_str(alloc, word)?)?;
    }
    Ok(texts)
}

/// Typesets a document over nodes of its own.
pub fn typeset(alloc: Global, document: &[u8]) -> Result<Given, Fail> {
    let mut fonts: Vec<Box<dyn Feed>> = Vec::new(alloc);
    fonts.push(feed(alloc, "T")?)?;
    fonts.push(feed(alloc, "U")?)?;
    let mut dvi = MemSink::new(alloc, 8192, Vec::new(alloc))?;
    let mut lines = MemSink::new(alloc, 4096, Vec::new(alloc))?;
    let (status, place, nodes) = run_over(
        alloc,
        PlainHeap::new(alloc, 1)?,
        texts(alloc, &WORDS)?.as_slice(),
        &mut MemSource::new(document.to_vec(alloc)?, Vec::new(alloc)),
        &mut MemSource::new(Vec::new(alloc), Vec::new(alloc)),
        &mut MemSource::new(Vec::new(alloc), Vec::new(alloc)),
        &mut fonts,
        &mut dvi,
        &mut lines,
    );
    Ok(Given {
        status,
        place,
        dvi: dvi.taken().to_vec(alloc)?,
        live: nodes.map(|nodes| nodes.live()),
    })
}
