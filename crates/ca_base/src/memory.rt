//! A source and a sink in memory, for runs whose failing calls are chosen.

ghost use Rattle.std.specs.Prelude.{◌≡◌, ◌<◌, ◌↔◌, ◌==◌, ◌||◌, ◌++◌, length, min, take, drop};
ghost use Rattle.std.specs.Prelude.{Some, IfOk, OnErr, IsErr, IsTrue};
ghost use Rattle.ca_base.specs.Faults.{Counts};
ghost use Rattle.ca_base.specs.Memory.{new_source, new_sink, room_of, is_failing};
ghost use Rattle.ca_base.specs.Memory.{source_gave, source_failed, sink_took, sink_failed};

use crate::{Bytes, Failed, Faults, NoMemory, Sink, Source};
use std::alloc::Global;
use std::marker::Model;

/// A source that gives these bytes. Its calls are numbered from 1, and a call fails if its number was named.
#[derive(Drop)]
pub struct MemSource {
    bytes: Bytes,
    given: usize,
    calls: u64,
    failing: Vec<u64>,
    faults: Faults,
}

impl Model for MemSource {
    ghost use Rattle.std.specs.Prelude.{◌≤◌, length, drop};
    ghost use Rattle.ca_base.specs.Memory.{SourceState};

    ghost Value = { SourceState };

    ghost view = { λ s. record {
      left = drop s.given s.bytes.list;
      calls = s.calls;
      failing = s.failing.items;
      faults = s.faults;
    } };

    ghost invariant = { λ s. s.given ≤ length s.bytes.list };
}

impl MemSource {
    /// A source of these bytes, whose calls with these numbers fail.
    pub fn new(bytes: Bytes, failing: Vec<u64>) -> MemSource
        ensures { result ≡ new_source bytes.list failing.items }
    {
        MemSource {
            bytes,
            given: 0,
            calls: 0,
            failing,
            faults: Faults::new(),
        }
    }

    /// How many calls have failed. The count saturates at 2^64 - 1.
    pub fn faults(&self) -> u64
        ensures { result ≡ self.now.faults }
    {
        self.faults.count()
    }
}

impl Source for MemSource {
    ghost faults = { λ s. s.faults };

    ghost left = { λ s. Some s.left };

    /// Gives as many bytes as `buf` holds, or all that are left. A call that fails gives nothing.
    fn read(&mut self, buf: &mut [u8]) -> Result<usize, Failed>
        requires { 0 < length buf.old }
        ensures cause { Counts result self.old.faults self.new.faults }
        ensures fails { IsErr result ↔ IsTrue (is_failing self.old.calls self.old.failing) }
        ensures count { IfOk result (λ n. n ≡ min (length buf.old) (length self.old.left)) }
        ensures gives { IfOk result (λ n. buf.new ≡ take n self.old.left ++ drop n buf.old) }
        ensures ok { IfOk result (λ n. self.new ≡ source_gave n self.old) }
        ensures err { OnErr result (self.new ≡ source_failed self.old) }
        ensures keeps { OnErr result (buf.new ≡ buf.old) }
    {
        self.calls = self.calls.saturating_add(1);
        if self.failing.contains(&self.calls) {
            return Err(self.faults.raise());
        }
        let (_, left) = self.bytes.as_slice().split_at(self.given);
        let count = buf.len().min(left.len());
        buf[..count].copy_from_slice(&left[..count]);
        self.given += count;
        Ok(count)
    }
}

/// A sink that takes `capacity` bytes in all. Its calls are numbered from 1, and a call fails if its number was named.
#[derive(Drop)]
pub struct MemSink {
    bytes: Bytes,
    capacity: usize,
    calls: u64,
    failing: Vec<u64>,
    faults: Faults,
}

impl Model for MemSink {
    ghost use Rattle.std.specs.Prelude.{◌≤◌, length};
    ghost use Rattle.ca_base.specs.Memory.{SinkState};

    ghost Value = { SinkState };

    ghost view = { λ s. record {
      written = s.bytes.list;
      capacity = s.capacity;
      calls = s.calls;
      failing = s.failing.items;
      faults = s.faults;
    } };

    ghost use Rattle.ca_base.specs.WithinCapacity.{WithinCapacity};

    ghost invariant = { λ s. WithinCapacity s.bytes s.capacity };
}

impl MemSink {
    /// An empty sink that takes `capacity` bytes in all. Their memory is taken now.
    pub fn new(alloc: Global, capacity: usize, failing: Vec<u64>) -> Result<MemSink, NoMemory>
        ensures { IfOk result (λ s. s ≡ new_sink capacity failing.items) }
    {
        let bytes = Bytes::with_capacity(alloc, capacity)?;
        Ok(MemSink {
            bytes,
            capacity,
            calls: 0,
            failing,
            faults: Faults::new(),
        })
    }

    /// All that was written.
    pub fn written(&self) -> &[u8]
        ensures { result.now ≡ self.now.written }
    {
        self.bytes.as_slice()
    }

    /// How many calls have failed. The count saturates at 2^64 - 1.
    pub fn faults(&self) -> u64
        ensures { result ≡ self.now.faults }
    {
        self.faults.count()
    }
}

impl Sink for MemSink {
    ghost faults = { λ s. s.faults };

    ghost written = { λ s. Some s.written };

    /// Takes what still fits. A call that fails takes nothing, and one that finds no room fails.
    fn write(&mut self, piece: &[u8]) -> Result<usize, Failed>
        requires { 0 < length piece.now }
        ensures cause { Counts result self.old.faults self.new.faults }
        ensures fails { IsErr result ↔ IsTrue (is_failing self.old.calls self.old.failing || (room_of self.old == 0)) }
        ensures count { IfOk result (λ n. n ≡ min (length piece.now) (room_of self.old)) }
        ensures ok { IfOk result (λ n. self.new ≡ sink_took (take n piece.now) self.old) }
        ensures err { OnErr result (self.new ≡ sink_failed self.old) }
    {
        self.calls = self.calls.saturating_add(1);
        let count = piece.len().min(self.capacity - self.bytes.len());
        if count == 0 || self.failing.contains(&self.calls) {
            return Err(self.faults.raise());
        }
        match self.bytes.append(&piece[..count]) {
            Ok(()) => Ok(count),
            Err(_) => unreachable!(),
        }
    }
}
