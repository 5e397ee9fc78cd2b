//! What a script has printed.

ghost use Rattle.std.specs.Prelude.{◌≡◌, [], Ok};
ghost use Rattle.ntx_num.specs.Answer.{result_map, Steps};
ghost use Rattle.ntx_lualib.specs.Output.{nothing_printed, print_step};

use ntx_num::{Fail, NoMemory};
use ntx_values::LuaWhy;
use std::alloc::Global;
use std::marker::Model;
use std::mem;

/// The most bytes that one run prints.
pub(crate) const MAX_PRINTED: usize = 1 << 24;

/// The bytes that scripts of one run have printed: those not yet taken, and how many there were in all.
#[derive(Drop)]
pub struct Printed {
    alloc: Global,
    bytes: Vec<u8>,
    count: usize,
}

impl Model for Printed {
    ghost use Rattle.ntx_lualib.specs.Output.{PrintedState, IsWithin};

    ghost Value = { PrintedState };

    ghost view = { λ a. record { waiting = a.bytes.items; total = a.count } };

    ghost invariant = { λ a. IsWithin (record { waiting = a.bytes.items; total = a.count }) };
}

impl Printed {
    /// Nothing is printed yet. It takes no memory.
    pub fn new(alloc: Global) -> Result<Printed, NoMemory>
        ensures { result ≡ Ok nothing_printed }
    {
        Ok(Printed {
            alloc,
            bytes: Vec::new(alloc),
            count: 0,
        })
    }

    /// Takes the bytes that were printed and not yet taken. No bytes wait after it, and the count of all stays. It takes no memory.
    pub fn take(&mut self) -> Vec<u8>
        ensures bytes { result.items ≡ self.old.waiting }
        ensures after { self.new ≡ record self.old { waiting = [] } }
    {
        mem::replace(&mut self.bytes, Vec::new(self.alloc))
    }

    /// Prints more bytes.
    ///
    /// # Refusals
    ///
    /// PrintFull if more than 2^24 bytes would be printed in all.
    pub(crate) fn print(&mut self, bytes: &[u8]) -> Result<(), Fail<LuaWhy>>
        ensures { Steps result self.old self.new (result_map (λ out. (tt, out)) (print_step bytes.now self.old)) }
    {
        if bytes.len() > MAX_PRINTED - self.count {
            return Err(Fail::Is(LuaWhy::PrintFull));
        }
        self.bytes.extend_from_slice(bytes)?;
        self.count += bytes.len();
        Ok(())
    }
}
