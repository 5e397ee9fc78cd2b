//! Sources and sinks over memory. [`MemSource`] and [`MemSink`] expose everything and fail at the calls that their maker names;
//! [`NullSink`] keeps nothing.

ghost use Rattle.std.specs.Prelude.{◌≡◌, ◌+◌, ◌-◌, ◌<◌, ◌≤◌, ◌↔◌, ◌⊎◌, Some, None, Ok, [], IsErr, IfOk, min, length, vec_len};
ghost use Rattle.ntx_num.specs.Answer.{Gives};
ghost use Rattle.ntx_io.specs.Outside.{HasCause, ReadsBytes, TakesBytes, TakesSome, next_count};
ghost use Rattle.ntx_io.specs.Memory.{FailsNext, IsFullFor};

use crate::outside::{Failed, Sink, Source};
use ntx_num::NoMemory;
use std::alloc::Global;
use std::marker::Model;

/// A source over bytes in memory. It exposes its bytes. A read fails at the calls that its maker named and at no others; any other
/// gives all bytes that are left, as far as the buffer has room for them.
#[derive(Drop)]
pub struct MemSource {
    bytes: Vec<u8>,
    given: usize,
    calls: u64,
    fails: Vec<u64>,
    faults: u64,
}

impl Model for MemSource {
    ghost use Rattle.std.specs.Prelude.{◌≤◌, drop, vec_len};
    ghost use Rattle.ntx_io.specs.Memory.{SourceState};

    ghost Value = { SourceState };

    ghost view = { λ s. record { left = drop s.given s.bytes.items; calls = s.calls; fails = s.fails.items; faults = s.faults } };

    ghost invariant = { λ s. s.given ≤ vec_len s.bytes };
}

impl MemSource {
    /// A source of these bytes whose k-th read, counted from 1, fails where k is among `fails`. The count of reads stands still at 2^64-1.
    pub fn new(bytes: Vec<u8>, fails: Vec<u64>) -> MemSource
        ensures { result ≡ record { left = bytes.items; calls = 0; fails = fails.items; faults = 0 } }
    {
        MemSource {
            bytes,
            given: 0,
            calls: 0,
            fails,
            faults: 0,
        }
    }
}

impl Source for MemSource {
    ghost input = { λ s. record { left = Some s.left; faults = s.faults } };

    fn read(&mut self, buf: &mut [u8]) -> Result<usize, Failed>
        ensures bound { IfOk result (λ k. k ≤ length buf.new) }
        ensures bytes { ReadsBytes (Some self.old.left) (Some self.new.left) buf.new result }
        ensures cause { HasCause self.old.faults self.new.faults result }

        ensures fails { IsErr result ↔ FailsNext self.old.fails self.old.calls }
        ensures counted { (self.new.calls ≡ next_count self.old.calls) × (self.new.fails ≡ self.old.fails) }
        ensures fills { IfOk result (λ k. k ≡ min (length buf.new) (length self.old.left)) }
    {
        self.calls = self.calls.saturating_add(1);
        if self.fails.contains(&self.calls) {
            self.faults = self.faults.saturating_add(1);
            return Err(Failed);
        }
        let rest = &self.bytes[self.given..];
        let count = rest.len().min(buf.len());
        buf[..count].copy_from_slice(&rest[..count]);
        self.given += count;
        Ok(count)
    }
}

/// A sink over memory that was taken beforehand. It exposes what it took. A write fails at the calls that its maker named and if
/// there is no room for a byte of a nonempty piece, and at no others; any other takes the whole piece, as far as there is room for it.
#[derive(Drop)]
pub struct MemSink {
    bytes: Vec<u8>,
    room: usize,
    calls: u64,
    fails: Vec<u64>,
    faults: u64,
}

impl Model for MemSink {
    ghost use Rattle.std.specs.Prelude.{◌≤◌, vec_len, vec_capacity};
    ghost use Rattle.ntx_io.specs.Memory.{SinkState};

    ghost Value = { SinkState };

    ghost view = { λ s. record { taken = s.bytes.items; room = s.room; calls = s.calls; fails = s.fails.items; faults = s.faults } };

    ghost invariant = { λ s. (vec_len s.bytes ≤ s.room) × (s.room ≤ vec_capacity s.bytes) };
}

impl MemSink {
    /// A sink with room for `room` bytes in all, whose k-th write, counted from 1, fails where k is among `fails`. The count of writes
    /// stands still at 2^64-1.
    pub fn new(alloc: Global, room: u64, fails: Vec<u64>) -> Result<MemSink, NoMemory>
        ensures { Gives result (record { taken = []; room = room; calls = 0; fails = fails.items; faults = 0 }) }
    {
        let room = room as usize;
        Ok(MemSink {
            bytes: Vec::with_capacity(alloc, room)?,
            room,
            calls: 0,
            fails,
            faults: 0,
        })
    }

    /// The bytes taken so far.
    pub fn taken(&self) -> &[u8]
        ensures { result.now ≡ self.now.taken }
    {
        self.bytes.as_slice()
    }
}

impl Sink for MemSink {
    ghost output = { λ s. record { taken = Some s.taken; faults = s.faults } };

    fn write(&mut self, bytes: &[u8]) -> Result<usize, Failed>
        ensures some { TakesSome bytes.now result }
        ensures bytes { TakesBytes (Some self.old.taken) (Some self.new.taken) bytes.now result }
        ensures cause { HasCause self.old.faults self.new.faults result }

        ensures fails { IsErr result ↔ (FailsNext self.old.fails self.old.calls ⊎ IsFullFor self.old bytes.now) }
        ensures counted { (self.new.calls ≡ next_count self.old.calls) × (self.new.fails ≡ self.old.fails) × (self.new.room ≡ self.old.room) }
        ensures fills { IfOk result (λ k. k ≡ min (length bytes.now) (self.old.room - length self.old.taken)) }
    {
        self.calls = self.calls.saturating_add(1);
        let count = bytes.len().min(self.room - self.bytes.len());
        let full = count == 0 && !bytes.is_empty();
        if full
            || self.fails.contains(&self.calls)
            || self.bytes.extend_from_slice(&bytes[..count]).is_err()
        {
            self.faults = self.faults.saturating_add(1);
            return Err(Failed);
        }
        Ok(count)
    }
}

/// A sink that takes every piece whole and keeps nothing. It exposes nothing and never fails.
#[derive(Clone, Copy, Debug, PartialEq, Eq)]
pub struct NullSink;

impl NullSink {
    /// The sink that keeps nothing.
    pub fn new() -> NullSink {
        NullSink
    }
}

impl Sink for NullSink {
    ghost output = { λ _. record { taken = None; faults = 0 } };

    fn write(&mut self, bytes: &[u8]) -> Result<usize, Failed>
        ensures some { TakesSome bytes.now result }
        ensures bytes { TakesBytes None None bytes.now result }
        ensures cause { HasCause 0 0 result }
        ensures whole { result ≡ Ok (length bytes.now) }
    {
        Ok(bytes.len())
    }
}
