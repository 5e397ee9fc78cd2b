//! Words under hyphenation patterns.

use crate::fault::Fault;
use ntx_patterns::{points, read_patterns};
use std::alloc::Global;

/// Numbers that follow one another as in many C libraries, modulo 2^31.
#[derive(Drop)]
struct Draws {
    last: u64,
}

impl Draws {
    /// The next number.
    fn next(&mut self) -> u64 {
        self.last = self.last.wrapping_mul(1103515245).wrapping_add(12345) % (1 << 31);
        self.last / 65536
    }

    /// A letter from `a` to `z`.
    fn letter(&mut self) -> u8 {
        b'a' + (self.next() % 26) as u8
    }

    /// A digit from 1 to 5.
    fn digit(&mut self) -> u8 {
        b'1' + (self.next() % 5) as u8
    }
}

/// A file of `n` patterns, each of five letters with a digit among them.
fn file(alloc: Global, draws: &mut Draws, n: u64) -> Result<Vec<u8>, Fault> {
    let mut bytes = Vec::new(alloc);
    for _ in 0..n {
        let place = draws.next() % 5;
        for i in 0..5u64 {
            if i == place {
                bytes.push(draws.digit())?;
            }
            bytes.push(draws.letter())?;
        }
        bytes.push(b'\n')?;
    }
    Ok(bytes)
}

/// Hyphenates `n` words of ten letters by the patterns of a file.
pub fn hyphenate(alloc: Global, file: &[u8], n: u64) -> Result<(), Fault> {
    let patterns = read_patterns(alloc, file)?;
    let mut draws = Draws { last: 1 };
    let mut word: Vec<u8> = Vec::new(alloc);
    for _ in 0..n {
        word.clear();
        for _ in 0..10u64 {
            word.push(draws.letter())?;
        }
        points(alloc, &patterns, &word, 2, 3)?;
    }
    Ok(())
}

/// Hyphenates `n` words of ten letters by so many patterns.
pub fn hyphenate_by(alloc: Global, patterns: u64, n: u64) -> Result<(), Fault> {
    let mut draws = Draws { last: 2 };
    let bytes = file(alloc, &mut draws, patterns)?;
    hyphenate(alloc, &bytes, n)
}
