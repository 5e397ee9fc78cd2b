//! Files and standard output. What they hold is outside what any contract says: these adapters expose no content, only the count of their
//! faults. If the file under a [`FileSource`] or a [`FileSink`] exposes its bytes, the clause `passes` says what a call does to them.

ghost use Rattle.std.specs.Prelude.{None, ◌≡◌, ◌≤◌, IfOk, length};
ghost use Rattle.std.specs.Io.KnownBytes.{ReadConsumes, WriteAppends};
ghost use Rattle.ntx_io.specs.File.{exposed_by};
ghost use Rattle.ntx_io.specs.Outside.{HasCause, ReadsBytes, TakesBytes, TakesSome};

use crate::outside::{Failed, Sink, Source};
use std::fs;
use std::io::{Read, Write};
use std::rt::Files;

/// A source over a file. If the file cannot be opened, every read fails: so it is written, and no clause says it.
#[derive(Drop)]
pub struct FileSource<F> {
    file: Option<F>,
    faults: u64,
}

impl<F: Read + Drop> FileSource<F> {
    /// A source over the file at `path`, with no fault yet, also if the file cannot be opened.
    pub fn open<R: Files<File = F>>(rt: &R, path: &str) -> FileSource<F>
        ensures { result.faults ≡ 0 }
    {
        FileSource {
            file: fs::open(rt, path).ok(),
            faults: 0,
        }
    }
}

impl<F: Read + Drop> Source for FileSource<F> {
    ghost input = { λ s. record { left = None; faults = s.faults } };

    fn read(&mut self, buf: &mut [u8]) -> Result<usize, Failed>
        ensures bound { IfOk result (λ k. k ≤ length buf.new) }
        ensures bytes { ReadsBytes None None buf.new result }
        ensures cause { HasCause self.old.faults self.new.faults result }

        ensures passes { ReadConsumes (exposed_by F.remaining self.old.file) (exposed_by F.remaining self.new.file) result buf.new }
    {
        if let Some(file) = &mut self.file {
            if let Ok(count) = file.read(buf) {
                return Ok(count);
            }
        }
        self.faults = self.faults.saturating_add(1);
        Err(Failed)
    }
}

/// A sink over a file. If the file cannot be created, every write fails: so it is written, and no clause says it.
#[derive(Drop)]
pub struct FileSink<F> {
    file: Option<F>,
    faults: u64,
}

impl<F: Write + Drop> FileSink<F> {
    /// A sink over the file at `path`, with no fault yet, also if the file cannot be created. The file is created or emptied: so it is
    /// written, and no clause says it.
    pub fn create<R: Files<File = F>>(rt: &R, path: &str) -> FileSink<F>
        ensures { result.faults ≡ 0 }
    {
        FileSink {
            file: fs::create(rt, path).ok(),
            faults: 0,
        }
    }
}

impl<F: Write + Drop> Sink for FileSink<F> {
    ghost output = { λ s. record { taken = None; faults = s.faults } };

    fn write(&mut self, bytes: &[u8]) -> Result<usize, Failed>
        ensures some { TakesSome bytes.now result }
        ensures bytes { TakesBytes None None bytes.now result }
        ensures cause { HasCause self.old.faults self.new.faults result }

        ensures passes { WriteAppends (exposed_by F.contents self.old.file) (exposed_by F.contents self.new.file) result bytes.now }
    {
        if let Some(file) = &mut self.file {
            if let Ok(count) = file.write(bytes) {
                if count > 0 || bytes.is_empty() {
                    return Ok(count);
                }
            }
        }
        self.faults = self.faults.saturating_add(1);
        Err(Failed)
    }
}

/// A sink over standard output.
#[derive(Drop)]
pub struct StdoutSink<'a, P> {
    out: &'a P,
    faults: u64,
}

impl<'a, P: Print> StdoutSink<'a, P> {
    /// A sink over the standard output of this runtime, with no fault yet.
    pub fn new(rt: &'a P) -> StdoutSink<'a, P>
        ensures { result.faults ≡ 0 }
    {
        StdoutSink { out: rt, faults: 0 }
    }
}

impl<P: Print> Sink for StdoutSink<'_, P> {
    ghost output = { λ s. record { taken = None; faults = s.faults } };

    fn write(&mut self, bytes: &[u8]) -> Result<usize, Failed> {
        if let Ok(count) = self.out.write_some(bytes) {
            if count > 0 || bytes.is_empty() {
                return Ok(count);
            }
        }
        self.faults = self.faults.saturating_add(1);
        Err(Failed)
    }
}
