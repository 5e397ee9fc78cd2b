//! Documents, from bytes to commands.

use crate::fault::Fault;
use ntx_doc::read_doc;
use std::alloc::Global;

/// A line of words, and lines of glue and of a rule: 64 bytes.
const LINES: &[u8] = b"text words that are set side by side\nglue 9 1 0 1 0\nrule 15 7 0\n";

/// Reads a document of about `n` bytes: one box, and in it lines of words, glue and rules.
pub fn read(alloc: Global, n: u64) -> Result<(), Fault> {
    let mut bytes = Vec::new(alloc);
    bytes.extend_from_slice(b"hbox\n")?;
    for _ in 0..n / 64 {
        bytes.extend_from_slice(LINES)?;
    }
    bytes.extend_from_slice(b"end\n")?;
    read_doc(alloc, &bytes, 1)?;
    Ok(())
}
