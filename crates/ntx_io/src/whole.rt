//! A source read to its end, and a text written whole.

ghost use Rattle.std.specs.Prelude.{◌≡◌, ◌≤◌, ◌<◌, IfOk, OnOk, IsOk, Ok, Err, length, vec_len};
ghost use Rattle.ntx_num.specs.Answer.{result_map};
ghost use Rattle.ntx_io.specs.Outside.{HasCause, Rose};
ghost use Rattle.ntx_io.specs.Whole.{HasReadCause, ReadsToEnd, TakesWhole};

use crate::outside::{Failed, Sink, Source};
use ntx_num::Fail;
use std::alloc::Global;

/// Why a source was not read to its end.
#[derive(Clone, Copy, Debug, PartialEq, Eq)]
pub enum ReadWhy {
    /// A read failed.
    ReadFault,
    /// There are more bytes than the limit.
    TooLarge,
}

/// A write failed.
#[derive(Clone, Copy, Debug, PartialEq, Eq)]
pub struct WriteFault;

impl From<Failed> for Fail<ReadWhy> {
    ghost use Rattle.ntx_num.specs.declared.answer.Fail.TheVariants.{Is};
    ghost use Rattle.ntx_io.specs.declared.whole.ReadWhy.TheVariants.{ReadFault};

    ghost from_gives = { λ _ e. e ≡ Is ReadFault };

    fn from(_failed: Failed) -> Fail<ReadWhy> {
        Fail::Is(ReadWhy::ReadFault)
    }
}

impl From<Failed> for WriteFault {
    ghost from_gives = { λ _ e. e ≡ record {} };

    fn from(_failed: Failed) -> WriteFault {
        WriteFault
    }
}

/// How many bytes one read asks for.
pub(crate) const PIECE: usize = 4096;

/// All bytes of the source to its end, if they are at most `limit`. That they are all is said if the source exposes its bytes, and that
/// they are no more than `limit` of every source.
///
/// # Refusals
///
/// - `ReadFault`: a read failed;
/// - `TooLarge`: the source gave more than `limit` bytes.
///
/// After a fault, and if memory ran out, a source that exposes its bytes gave no more than `limit` of them.
pub fn read_all<S: Source>(
    alloc: Global,
    source: &mut S,
    limit: u64,
) -> Result<Vec<u8>, Fail<ReadWhy>>
    ensures bytes { ReadsToEnd (S.input source.old).left (S.input source.new).left limit (result_map (λ v. v.items) result) }
    ensures limited { IfOk result (λ bytes. vec_len bytes ≤ limit) }
    ensures cause { HasReadCause (S.input source.old).faults (S.input source.new).faults (result_map (λ v. v.items) result) }
{
    let mut bytes = Vec::new(alloc);
    let mut buffer = [0u8; PIECE];
    loop {
        let count = source.read(&mut buffer)?;
        if count == 0 {
            return Ok(bytes);
        }
        if count as u64 > limit - bytes.len() as u64 {
            return Err(Fail::Is(ReadWhy::TooLarge));
        }
        bytes.extend_from_slice(&buffer[..count])?;
    }
}

/// Writes all bytes of the text. An empty text is never refused and leaves the sink as it was.
///
/// # Refusals
///
/// `WriteFault`: a write failed. A sink that exposes its bytes took a prefix of the text, and not the whole text.
pub fn write_all<K: Sink>(sink: &mut K, bytes: &[u8]) -> Result<(), WriteFault>
    ensures bytes { TakesWhole (K.output sink.old).taken (K.output sink.new).taken bytes.now result }
    ensures cause { HasCause (K.output sink.old).faults (K.output sink.new).faults result }
    // No empty piece is written.
    ensures nothing { length bytes.now ≡ 0 → IsOk result × (sink.new ≡ sink.old) }
{
    let mut rest = bytes;
    while !rest.is_empty() {
        let count = sink.write(rest)?;
        rest = rest.split_at(count).1;
    }
    Ok(())
}
