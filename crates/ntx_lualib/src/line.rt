//! Bytes that are put together piece by piece.

ghost use Rattle.std.specs.Prelude.{◌≡◌, ◌<◌, ◌^◌, ◌++◌, [], Some, OnOk, ok_or, if◌then◌else◌};
ghost use Rattle.ntx_num.specs.Answer.{result_map, Answers};
ghost use Rattle.ntx_lualib.specs.inner.Lines.{added};

use ntx_num::{Fail, NoMemory};
use ntx_values::LuaWhy;
use std::alloc::Global;
use std::marker::Model;

/// The most bytes of one text.
pub(crate) const MAX_TEXT: usize = 1 << 20;

/// Bytes under a limit. Once they pass it they are given up, and only that is kept. It is seen as an Option.
#[derive(Drop)]
pub(crate) struct Line {
    bytes: Vec<u8>,
    full: bool,
}

impl Model for Line {
    ghost use Rattle.std.specs.Prelude.{Option, Some, None, List, ℕ, if◌then◌else◌};

    ghost Value = { Option (List ℕ) };

    ghost view = { λ a. if a.full then None else Some a.bytes.items };
}

impl Line {
    /// No bytes. It takes no memory.
    pub fn new(alloc: Global) -> Line
        ensures { result ≡ Some [] }
    {
        Line {
            bytes: Vec::new(alloc),
            full: false,
        }
    }

    /// Adds bytes. The limit is the same in each call.
    pub fn add(&mut self, limit: usize, more: &[u8]) -> Result<(), NoMemory>
        ensures { OnOk result (self.new ≡ added limit self.old more.now) }
    {
        if self.full {
            return Ok(());
        }
        if self.bytes.len() + more.len() > limit {
            self.full = true;
            return Ok(());
        }
        self.bytes.extend_from_slice(more)?;
        Ok(())
    }

    /// Adds a part, with the bytes between parts before it unless it is the first.
    pub fn add_part(
        &mut self,
        limit: usize,
        first: bool,
        between: &[u8],
        part: &[u8],
    ) -> Result<(), NoMemory>
        ensures { OnOk result (self.new ≡ added limit (if first then self.old else added limit self.old between.now) part.now) }
    {
        if !first {
            self.add(limit, between)?;
        }
        self.add(limit, part)
    }

    /// The bytes, or the refusal `why` if they passed the limit.
    pub fn finish(self, why: LuaWhy) -> Result<Vec<u8>, Fail<LuaWhy>>
        ensures { Answers (result_map (λ bytes. bytes.items) result) (ok_or self why) }
    {
        if self.full {
            return Err(Fail::Is(why));
        }
        Ok(self.bytes)
    }
}
