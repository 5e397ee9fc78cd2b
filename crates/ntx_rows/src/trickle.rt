//! A source and a sink that go on one byte at a time.

ghost use Rattle.std.specs.Prelude.{Some};

use crate::job::{BOX, BOX_FILE, FILES, texts};
use ntx_io::{Failed, Feed, MemSink, MemSource, Sink, Source};
use ntx_run::{Status, run};
use std::test::Fail;

/// A source that gives one byte at a call.
#[derive(Drop)]
struct Dripping(MemSource);

impl Source for Dripping {
    ghost input = { λ s. record { left = Some s.0.left; faults = s.0.faults } };

    fn read(&mut self, buf: &mut [u8]) -> Result<usize, Failed> {
        let count = buf.len().min(1);
        self.0.read(&mut buf[..count])
    }
}

/// A sink that takes one byte at a call.
#[derive(Drop)]
struct Sipping(MemSink);

impl Sink for Sipping {
    ghost output = { λ s. record { taken = Some s.0.taken; faults = s.0.faults } };

    fn write(&mut self, bytes: &[u8]) -> Result<usize, Failed> {
        let count = bytes.len().min(1);
        self.0.write(&bytes[..count])
    }
}

#[test]
fn pieces_of_one_byte_give_the_same_file(rt: HostRuntime) -> Result<(), Fail> {
    let alloc = rt.alloc();
    let mut fonts: Vec<Box<dyn Feed>> = Vec::new(alloc);
    let mut document = Dripping(MemSource::new(BOX.to_vec(alloc)?, Vec::new(alloc)));
    let mut script = MemSource::new(Vec::new(alloc), Vec::new(alloc));
    let mut patterns = MemSource::new(Vec::new(alloc), Vec::new(alloc));
    let mut dvi = Sipping(MemSink::new(alloc, 4096, Vec::new(alloc))?);
    let mut lines = Sipping(MemSink::new(alloc, 4096, Vec::new(alloc))?);
    let outcome = run(
        alloc,
        texts(alloc, &FILES)?.as_slice(),
        &mut document,
        &mut script,
        &mut patterns,
        &mut fonts,
        &mut dvi,
        &mut lines,
    );
    assert_eq!(rt; outcome.status, Status::Done);
    assert_eq!(rt; dvi.0.taken(), BOX_FILE.as_slice());
    assert_eq!(rt; lines.0.taken().len(), 0);
    Ok(())
}
