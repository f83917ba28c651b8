//! Sources and sinks in memory, whose calls fail where they are told to.

ghost use Rattle.std.specs.Prelude.{◌≡◌, ℕ, ◌<◌, ◌≤◌, ◌↔◌, ◌⊎◌, List, [], ◌++◌, Option, None, Some, Ok, length, min, take, drop, Contains, IsErr, IfOk, OnErr};
ghost use Rattle.std.specs.Io.{ReadsAtMost, WritesAtMost};
ghost use Rattle.std.specs.Io.KnownBytes.{ReadConsumes, WriteAppends};
ghost use Rattle.tc_edge.specs.Faults.{count_after, is_failed_write, HasCause};
ghost use Rattle.tc_bytes.specs.Counts.{next_count, Rose};
ghost use Rattle.tc_edge.specs.Memory.{MemoryInput, MemoryOutput};

use crate::streams::{EdgeFault, Sink, Source};
use std::alloc::Global;
use std::marker::Model;

/// A source over bytes in memory.
#[derive(Drop)]
pub struct MemSource {
    bytes: Vec<u8>,
    at: usize,
    piece: usize,
    failing: Vec<u64>,
    calls: u64,
    faults: u64,
}

impl Model for MemSource {
    ghost Value = { MemoryInput };

    ghost view = { λ s. record {
      left = drop s.at s.bytes.items;
      piece = s.piece;
      failing = s.failing.items;
      calls = s.calls;
      faults = s.faults;
    } };

    ghost invariant = { λ s. (s.at ≤ length s.bytes.items) × (0 < s.piece) };
}

impl MemSource {
    /// A source that gives the bytes in order, at most `piece` in a call. The calls whose numbers
    /// stand in `failing` fail; the first call has the number 0.
    pub fn new(bytes: Vec<u8>, piece: usize, failing: Vec<u64>) -> MemSource
        requires { 0 < piece }
        ensures { result ≡ record {
          left = bytes.items;
          piece = piece;
          failing = failing.items;
          calls = 0;
          faults = 0;
        } }
    {
        MemSource {
            bytes,
            at: 0,
            piece,
            failing,
            calls: 0,
            faults: 0,
        }
    }
}

impl<O: Sink> Source<O> for MemSource {
    ghost left = { λ s. Some s.left };

    ghost faults = { λ s. s.faults };

    ghost moments = { λ s. None };

    fn read(&mut self, into: &mut [u8], _beside: &O) -> Result<usize, EdgeFault>
        ensures bound { ReadsAtMost result into.new }
        ensures bytes { ReadConsumes (Some self.old.left) (Some self.new.left) result into.new }
        ensures cause { HasCause self.old.faults self.new.faults result }

        ensures fails { IsErr result ↔ Contains self.old.failing self.old.calls }
        ensures err { OnErr result (self.new ≡ record self.old {
          calls = next_count self.old.calls;
          faults = next_count self.old.faults;
        }) }
        ensures count { IfOk result (λ n. n
            ≡ min (min (length self.old.left) (length into.old)) self.old.piece) }
        ensures ok { IfOk result (λ n. self.new ≡ record self.old {
          left = drop n self.old.left;
          calls = next_count self.old.calls;
        }) }
    {
        let call = self.calls;
        self.calls = call.saturating_add(1);
        if self.failing.contains(&call) {
            self.faults = self.faults.saturating_add(1);
            return Err(EdgeFault);
        }
        let left = &self.bytes[self.at..];
        let count = left.len().min(into.len()).min(self.piece);
        into[..count].copy_from_slice(&left[..count]);
        self.at += count;
        Ok(count)
    }
}

/// A sink that keeps the bytes in memory.
#[derive(Drop)]
pub struct MemSink {
    bytes: Vec<u8>,
    piece: usize,
    failing: Vec<u64>,
    calls: u64,
    faults: u64,
}

impl Model for MemSink {
    ghost Value = { MemoryOutput };

    ghost view = { λ s. record {
      taken = s.bytes.items;
      piece = s.piece;
      failing = s.failing.items;
      calls = s.calls;
      faults = s.faults;
    } };
}

impl MemSink {
    /// A sink that takes at most `piece` bytes in a call. The calls whose numbers stand in
    /// `failing` fail; the first call has the number 0. A `piece` of 0 takes nothing, and each
    /// piece that is not empty is then a fault.
    pub fn new(alloc: Global, piece: usize, failing: Vec<u64>) -> MemSink
        ensures { result ≡ record {
          taken = [];
          piece = piece;
          failing = failing.items;
          calls = 0;
          faults = 0;
        } }
    {
        MemSink {
            bytes: Vec::new(alloc),
            piece,
            failing,
            calls: 0,
            faults: 0,
        }
    }

    /// The bytes that were taken so far.
    pub fn taken(&self) -> &[u8]
        ensures { result.now ≡ self.now.taken }
    {
        self.bytes.as_slice()
    }
}

impl Sink for MemSink {
    ghost taken = { λ s. Some s.taken };

    ghost faults = { λ s. s.faults };

    // Memory that is refused for the bytes to be taken fails the call.
    fn write(&mut self, from: &[u8]) -> Result<usize, EdgeFault>
        ensures bound { WritesAtMost result from.now }
        ensures bytes { WriteAppends (Some self.old.taken) (Some self.new.taken) result from.now }
        ensures cause { HasCause self.old.faults self.new.faults result }
        ensures none { result ≡ Ok 0 → 0 < length from.now → Rose self.old.faults self.new.faults }

        ensures fails { Contains self.old.failing self.old.calls → IsErr result }
        ensures fails_only { OnErr result (Contains self.old.failing self.old.calls
            ⊎ (0 < min (length from.now) self.old.piece)) }
        ensures err { OnErr result (self.new ≡ record self.old {
          calls = next_count self.old.calls;
          faults = next_count self.old.faults;
        }) }
        ensures count { IfOk result (λ n. n ≡ min (length from.now) self.old.piece) }
        ensures ok { IfOk result (λ n. self.new ≡ record self.old {
          taken = self.old.taken ++ take n from.now;
          calls = next_count self.old.calls;
          faults = count_after (is_failed_write result from.now) self.old.faults;
        }) }
    {
        let call = self.calls;
        self.calls = call.saturating_add(1);
        if self.failing.contains(&call) {
            self.faults = self.faults.saturating_add(1);
            return Err(EdgeFault);
        }
        let count = from.len().min(self.piece);
        if count == 0 {
            if !from.is_empty() {
                self.faults = self.faults.saturating_add(1);
            }
            return Ok(0);
        }
        if self.bytes.extend_from_slice(&from[..count]).is_err() {
            self.faults = self.faults.saturating_add(1);
            return Err(EdgeFault);
        }
        Ok(count)
    }
}
