//! Bytes that wait to be taken, and how far they may go on.

ghost use Rattle.std.specs.Prelude.{◌≡◌, ◌≤◌, []};
ghost use Rattle.ntx_num.specs.Answer.{Steps};
ghost use Rattle.ntx_dvi.specs.Output.{append_step};

use crate::full::DviFull;
use ntx_num::Fail;
use std::alloc::Global;
use std::marker::Model;
use std::mem;

/// The bytes of a file that were not yet taken, and the file's length and greatest length, in bytes.
#[derive(Drop)]
pub struct Output {
    alloc: Global,
    limit: u64,
    place: u64,
    waiting: Vec<u8>,
}

impl Model for Output {
    ghost use Rattle.std.specs.Prelude.{◌≤◌};
    ghost use Rattle.ntx_dvi.specs.Output.{Room};

    ghost Value = { Room };

    ghost view = { λ o. record { limit = o.limit; place = o.place; waiting = o.waiting.items } };

    ghost invariant = { λ o. o.place ≤ o.limit };
}

impl Output {
    /// An empty file of at most `limit` bytes.
    pub fn new(alloc: Global, limit: u64) -> Output
        ensures { result ≡ record { limit = limit; place = 0; waiting = [] } }
    {
        Output {
            alloc,
            limit,
            place: 0,
            waiting: Vec::new(alloc),
        }
    }

    /// How many bytes the file has, which is the place of the next one.
    pub fn place(&self) -> u64
        ensures { result ≡ self.now.place }
    {
        self.place
    }

    /// Appends all the bytes, or none.
    pub fn append(&mut self, bytes: &[u8]) -> Result<(), Fail<DviFull>>
        ensures steps { Steps result self.old self.new (append_step bytes.now self.old) }
        ensures within { self.new.place ≤ self.new.limit }
        ensures grows { self.old.place ≤ self.new.place }
        ensures limit_stays { self.new.limit ≡ self.old.limit }
    {
        let length = bytes.len() as u64;
        if length > self.limit - self.place {
            return Err(Fail::Is(DviFull));
        }
        self.waiting.extend_from_slice(bytes)?;
        self.place += length;
        Ok(())
    }

    /// The bytes that were not yet taken. It takes no memory.
    pub fn take(&mut self) -> Vec<u8>
        ensures taken { result.items ≡ self.old.waiting }
        ensures rest { self.new ≡ record self.old { waiting = [] } }
    {
        mem::replace(&mut self.waiting, Vec::new(self.alloc))
    }
}
