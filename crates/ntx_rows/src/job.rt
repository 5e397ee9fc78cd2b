//! A job in memory.

use ntx_io::{Feed, MemFeed, MemSink, MemSource};
use ntx_nodes::{Nodes, PlainHeap};
use ntx_run::{Outcome, run, run_over};
use std::alloc::Global;
use std::test::Fail;

/// The calls at which each source and sink fails, counted from 1.
#[derive(Clone, Copy, Default)]
pub struct Fails {
    /// Of the document.
    pub doc: Option<u64>,
    /// Of the script.
    pub script: Option<u64>,
    /// Of the patterns.
    pub patterns: Option<u64>,
    /// Of the DVI file.
    pub dvi: Option<u64>,
    /// Of what is printed.
    pub lines: Option<u64>,
}

/// The file of a font.
#[derive(Clone, Copy)]
pub struct FontFile<'a> {
    /// The name of its feed.
    pub name: &'a str,
    /// Its bytes.
    pub bytes: &'a [u8],
    /// The call at which the feed fails, counted from 1.
    pub fails: Option<u64>,
}

/// The inputs of a job.
#[derive(Clone, Copy)]
pub struct Job<'a> {
    /// The words of the command line.
    pub words: &'a [&'a str],
    /// The document.
    pub doc: &'a [u8],
    /// The script.
    pub script: &'a [u8],
    /// The patterns.
    pub patterns: &'a [u8],
    /// The fonts.
    pub fonts: &'a [FontFile<'a>],
    /// When the sources and sinks fail.
    pub fails: Fails,
}

/// What a job gave.
#[derive(Drop)]
pub struct Given {
    /// How it ended.
    pub outcome: Outcome,
    /// The bytes of the DVI file.
    pub dvi: Vec<u8>,
    /// What was printed.
    pub lines: Vec<u8>,
}

/// Four words that name files.
pub const FILES: [&str; 4] = ["box.txt", "script.lua", "patterns.txt", "box.dvi"];

/// A box with one rule.
pub const BOX: &[u8] = b"hbox\nrule 65536 65536 0\nend";

/// The DVI file of that box.
pub const BOX_FILE: [u8; 120] = [
    // the preamble
    0xf7, 0x02, 0x01, 0x83, 0x92, 0xc0, 0x1c, 0x3b, 0x00, 0x00, 0x00, 0x00, 0x03, 0xe8, 0x03, 0x6e,
    0x74, 0x78, //
    // the page
    0x8b, 0x00, 0x00, 0x00, 0x01, 0x00, 0x00, 0x00, 0x00, 0x00, 0x00, 0x00, 0x00, 0x00, 0x00, 0x00,
    0x00, 0x00, 0x00, 0x00, 0x00, 0x00, 0x00, 0x00, 0x00, 0x00, 0x00, 0x00, 0x00, 0x00, 0x00, 0x00,
    0x00, 0x00, 0x00, 0x00, 0x00, 0x00, 0x00, 0x00, 0x00, 0xff, 0xff, 0xff, 0xff, 0x8d, 0x9f, 0x0a,
    0x00, 0x00, 0x84, 0x00, 0x01, 0x00, 0x00, 0x00, 0x01, 0x00, 0x00, 0x8e, 0x8c, //
    // the postamble
    0xf8, 0x00, 0x00, 0x00, 0x12, 0x01, 0x83, 0x92, 0xc0, 0x1c, 0x3b, 0x00, 0x00, 0x00, 0x00, 0x03,
    0xe8, 0x00, 0x0a, 0x00, 0x00, 0x00, 0x01, 0x00, 0x00, 0x00, 0x01, 0x00, 0x01, //
    // what follows it
    0xf9, 0x00, 0x00, 0x00, 0x4f, 0x02, 0xdf, 0xdf, 0xdf, 0xdf, 0xdf, 0xdf,
];

fn calls(alloc: Global, at: Option<u64>) -> Result<Vec<u64>, Fail> {
    let mut calls = Vec::new(alloc);
    if let Some(call) = at {
        calls.push(call)?;
    }
    Ok(calls)
}

fn source(alloc: Global, bytes: &[u8], fails: Option<u64>) -> Result<MemSource, Fail> {
    Ok(MemSource::new(bytes.to_vec(alloc)?, calls(alloc, fails)?))
}

fn feed(alloc: Global, font: &FontFile) -> Result<Box<MemFeed>, Fail> {
    let feed = MemFeed::new(
        String::from_str(alloc, font.name)?,
        font.bytes.to_vec(alloc)?,
        calls(alloc, font.fails)?,
    );
    Ok(Box::new(alloc, feed)?)
}

/// The words as texts of their own.
pub fn texts(alloc: Global, words: &[&str]) -> Result<Vec<String>, Fail> {
    let mut texts = Vec::new(alloc);
    for word in words {
        texts.push(String::from_str(alloc, word)?)?;
    }
    Ok(texts)
}

impl Job<'_> {
    /// Runs the job with ample memory over nodes of its own, and says how many of them are left, if they were given back.
    pub fn run_over(&self, alloc: Global) -> Result<(Given, Option<u64>), Fail> {
        let mut fonts: Vec<Box<dyn Feed>> = Vec::new(alloc);
        for font in self.fonts {
            fonts.push(feed(alloc, font)?)?;
        }
        let mut dvi = MemSink::new(alloc, 8192, calls(alloc, self.fails.dvi)?)?;
        let mut lines = MemSink::new(alloc, 4096, calls(alloc, self.fails.lines)?)?;
        let (status, place, nodes) = run_over(
            alloc,
            PlainHeap::new(alloc, 1)?,
            texts(alloc, self.words)?.as_slice(),
            &mut source(alloc, self.doc, self.fails.doc)?,
            &mut source(alloc, self.script, self.fails.script)?,
            &mut source(alloc, self.patterns, self.fails.patterns)?,
            &mut fonts,
            &mut dvi,
            &mut lines,
        );
        let given = Given {
            outcome: Outcome { status, place },
            dvi: dvi.taken().to_vec(alloc)?,
            lines: lines.taken().to_vec(alloc)?,
        };
        Ok((given, nodes.map(|nodes| nodes.live())))
    }

    /// Runs the job with ample memory.
    pub fn run(&self, alloc: Global) -> Result<Given, Fail> {
        let mut fonts: Vec<Box<dyn Feed>> = Vec::new(alloc);
        for font in self.fonts {
            fonts.push(feed(alloc, font)?)?;
        }
        let mut dvi = MemSink::new(alloc, 8192, calls(alloc, self.fails.dvi)?)?;
        let mut lines = MemSink::new(alloc, 4096, calls(alloc, self.fails.lines)?)?;
        let outcome = run(
            alloc,
            texts(alloc, self.words)?.as_slice(),
            &mut source(alloc, self.doc, self.fails.doc)?,
            &mut source(alloc, self.script, self.fails.script)?,
            &mut source(alloc, self.patterns, self.fails.patterns)?,
            &mut fonts,
            &mut dvi,
            &mut lines,
        );
        Ok(Given {
            outcome,
            dvi: dvi.taken().to_vec(alloc)?,
            lines: lines.taken().to_vec(alloc)?,
        })
    }
}

/// A job with this document, and nothing that fails.
pub fn of_document(doc: &[u8]) -> Job<'_> {
    Job {
        words: &FILES,
        doc,
        script: b"",
        patterns: b"",
        fonts: &[],
        fails: Fails::default(),
    }
}
