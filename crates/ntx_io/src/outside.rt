//! What a contract may know of the outside.

ghost use Rattle.std.specs.Prelude.{◌≡◌, ◌≤◌, length, IfOk};
ghost use Rattle.ntx_io.specs.Outside.{HasCause, Input, NamedInput, Output, ReadsBytes, TakesBytes, TakesSome};

/// A read or a write failed. The count of faults of its object rose, and if the object exposes its bytes they are as they were.
#[derive(Clone, Copy, Debug, PartialEq, Eq)]
pub struct Failed;

/// Bytes that come from outside, in pieces.
pub trait Source {
    /// The bytes not yet given, if the source exposes them, and how often a read has failed. At 2^64-1 the count is taken as risen.
    ghost input: { Self → Input };

    /// Puts bytes at the start of `buf` and answers how many. If the source exposes its bytes, they are the next ones, and the number is 0
    /// for a nonempty buffer at the end alone.
    ///
    /// # Refusals
    ///
    /// `Failed`: the read failed, and the count of faults rose. If the source exposes its bytes, all of them are left.
    fn read(&mut self, buf: &mut [u8]) -> Result<usize, Failed>
        ensures bound { IfOk result (λ k. k ≤ length buf.new) }
        ensures bytes { ReadsBytes (input self.old).left (input self.new).left buf.new result }
        ensures cause { HasCause (input self.old).faults (input self.new).faults result };
}

/// Where bytes go, in pieces.
pub trait Sink {
    /// The bytes taken so far, if the sink exposes them, and how often a write has failed. At 2^64-1 the count is taken as risen.
    ghost output: { Self → Output };

    /// Takes bytes of the piece and answers how many, at least one of a nonempty piece. If the sink exposes its bytes, they are the first
    /// ones of the piece.
    ///
    /// # Refusals
    ///
    /// `Failed`: the write failed, and the count of faults rose. If the sink exposes its bytes, it took none.
    fn write(&mut self, bytes: &[u8]) -> Result<usize, Failed>
        ensures some { TakesSome bytes.now result }
        ensures bytes { TakesBytes (output self.old).taken (output self.new).taken bytes.now result }
        ensures cause { HasCause (output self.old).faults (output self.new).faults result };
}

/// A source with a name that never changes, made so that it can be boxed.
pub trait Feed: Drop {
    /// The bytes of its name, those not yet given, if the feed exposes them, and how often a read has failed. At 2^64-1 the count is taken
    /// as risen.
    ghost named: { Self → NamedInput };

    /// The name of what it feeds.
    fn name(&self) -> &str
        ensures { result.now ≡ (named self.now).name };

    /// Puts bytes at the start of `buf` and answers how many. If the feed exposes its bytes, they are the next ones, and the number is 0
    /// for a nonempty buffer at the end alone.
    ///
    /// # Refusals
    ///
    /// `Failed`: the read failed, and the count of faults rose. If the feed exposes its bytes, all of them are left.
    fn read(&mut self, buf: &mut [u8]) -> Result<usize, Failed>
        ensures bound { IfOk result (λ k. k ≤ length buf.new) }
        ensures named { (named self.new).name ≡ (named self.old).name }
        ensures bytes { ReadsBytes (named self.old).input.left (named self.new).input.left buf.new result }
        ensures cause { HasCause (named self.old).input.faults (named self.new).input.faults result };
}
