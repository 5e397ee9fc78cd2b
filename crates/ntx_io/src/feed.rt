//! Feeds: sources with a name, over memory and over files.

ghost use Rattle.std.specs.Prelude.{◌≡◌, ◌≤◌, ◌↔◌, None, Some, IsErr, IfOk, length, min, string_bytes, vec_len};
ghost use Rattle.std.specs.Io.KnownBytes.{ReadConsumes};
ghost use Rattle.ntx_io.specs.Outside.{HasCause, ReadsBytes, next_count};
ghost use Rattle.ntx_io.specs.Memory.{FailsNext};
ghost use Rattle.ntx_io.specs.File.{exposed_by};
ghost use Rattle.ntx_num.specs.Answer.{result_map};
ghost use Rattle.ntx_io.specs.Whole.{HasReadCause, ReadsToEnd};
ghost use Rattle.ntx_io.specs.Feed.{IsFontName, IsLastPart, IsWithoutTfm};

use crate::file::FileSource;
use crate::memory::MemSource;
use crate::outside::{Failed, Feed, Source};
use crate::whole::{PIECE, ReadWhy};
use ntx_num::{Fail, NoMemory};
use std::alloc::Global;
use std::io::Read;
use std::marker::Model;
use std::rt::Files;

/// A feed over bytes in memory: a [`MemSource`] with a name.
#[derive(Drop)]
pub struct MemFeed {
    name: String,
    source: MemSource,
}

impl Model for MemFeed {
    ghost use Rattle.std.specs.Prelude.{string_bytes};
    ghost use Rattle.ntx_io.specs.Feed.{FeedState};

    ghost Value = { FeedState };

    ghost view = { λ f. record { name = string_bytes f.name; source = f.source } };
}

impl MemFeed {
    /// A feed of this name and these bytes whose k-th read, counted from 1, fails where k is among `fails`. The count of reads stands still
    /// at 2^64-1.
    pub fn new(name: String, bytes: Vec<u8>, fails: Vec<u64>) -> MemFeed
        ensures { result ≡ record { name = string_bytes name; source = record { left = bytes.items; calls = 0; fails = fails.items; faults = 0 } } }
    {
        MemFeed {
            name,
            source: MemSource::new(bytes, fails),
        }
    }
}

impl Feed for MemFeed {
    ghost named = { λ f. record { name = f.name; input = record { left = Some f.source.left; faults = f.source.faults } } };

    fn name(&self) -> &str {
        self.name.as_str()
    }

    fn read(&mut self, buf: &mut [u8]) -> Result<usize, Failed>
        ensures bound { IfOk result (λ k. k ≤ length buf.new) }
        ensures named { self.new.name ≡ self.old.name }
        ensures bytes { ReadsBytes (Some self.old.source.left) (Some self.new.source.left) buf.new result }
        ensures cause { HasCause self.old.source.faults self.new.source.faults result }

        ensures fails { IsErr result ↔ FailsNext self.old.source.fails self.old.source.calls }
        ensures counted { (self.new.source.calls ≡ next_count self.old.source.calls) × (self.new.source.fails ≡ self.old.source.fails) }
        ensures fills { IfOk result (λ k. k ≡ min (length buf.new) (length self.old.source.left)) }
    {
        self.source.read(buf)
    }
}

/// The last part of a path.
fn last_part(path: &str) -> &str
    ensures { IsLastPart path.now result.now }
{
    match path.rsplit_once('/') {
        Some((_, file)) => file,
        None => path,
    }
}

/// The name of a file without an ending `.tfm`.
fn without_tfm(file: &str) -> &str
    ensures { IsWithoutTfm file.now result.now }
{
    match file.strip_suffix(".tfm") {
        Some(name) => name,
        None => file,
    }
}

/// The name of the font whose file has this path: the part after the last `/`, without an ending `.tfm`.
pub fn font_name(path: &str) -> &str
    ensures { IsFontName path.now result.now }
{
    without_tfm(last_part(path))
}

/// A feed over a file: a [`FileSource`], named after the file. If the file cannot be opened, every read fails: so it is written, and no clause
/// says it.
#[derive(Drop)]
pub struct FileFeed<F> {
    name: String,
    source: FileSource<F>,
}

impl<F: Read + Drop> FileFeed<F> {
    /// A feed over the file at `path`, with no fault yet, also if the file cannot be opened. Its name is that of [`font_name`].
    pub fn open<R: Files<File = F>>(
        rt: &R,
        alloc: Global,
        path: &str,
    ) -> Result<FileFeed<F>, NoMemory>
        ensures name { IfOk result (λ feed. IsFontName path.now (string_bytes feed.name)) }
        ensures faults { IfOk result (λ feed. feed.source.faults ≡ 0) }
    {
        Ok(FileFeed {
            name: String::from_str(alloc, font_name(path))?,
            source: FileSource::open(rt, path),
        })
    }
}

impl<F: Read + Drop> Feed for FileFeed<F> {
    ghost named = { λ f. record { name = string_bytes f.name; input = record { left = None; faults = f.source.faults } } };

    fn name(&self) -> &str {
        self.name.as_str()
    }

    fn read(&mut self, buf: &mut [u8]) -> Result<usize, Failed>
        ensures bound { IfOk result (λ k. k ≤ length buf.new) }
        ensures named { string_bytes self.new.name ≡ string_bytes self.old.name }
        ensures bytes { ReadsBytes None None buf.new result }
        ensures cause { HasCause self.old.source.faults self.new.source.faults result }

        ensures passes { ReadConsumes (exposed_by F.remaining self.old.source.file) (exposed_by F.remaining self.new.source.file) result buf.new }
    {
        self.source.read(buf)
    }
}

/// All bytes of the feed to its end, if they are at most `limit`. It promises what [`read_all`](crate::read_all) promises, and that the feed's name stays.
///
/// # Refusals
///
/// - `ReadFault`: a read failed;
/// - `TooLarge`: the feed gave more than `limit` bytes.
///
/// After a fault, and if memory ran out, a feed that exposes its bytes gave no more than `limit` of them.
pub fn read_feed(alloc: Global, feed: &mut dyn Feed, limit: u64) -> Result<Vec<u8>, Fail<ReadWhy>>
    ensures bytes { ReadsToEnd (named feed.old).input.left (named feed.new).input.left limit (result_map (λ v. v.items) result) }
    ensures limited { IfOk result (λ bytes. vec_len bytes ≤ limit) }
    ensures cause { HasReadCause (named feed.old).input.faults (named feed.new).input.faults (result_map (λ v. v.items) result) }
    ensures named { (named feed.new).name ≡ (named feed.old).name }
{
    let mut bytes = Vec::new(alloc);
    let mut buffer = [0u8; PIECE];
    loop {
        let count = feed.read(&mut buffer)?;
        if count == 0 {
            return Ok(bytes);
        }
        if count as u64 > limit - bytes.len() as u64 {
            return Err(Fail::Is(ReadWhy::TooLarge));
        }
        bytes.extend_from_slice(&buffer[..count])?;
    }
}
