//! A store that one thread holds: a ring of words, and a gate.

ghost use Rattle.std.specs.Prelude.{◌≡◌, ◌+◌, ◌≤◌, ◌^◌, ◌++◌, length, take, drop};

use crate::{EngineSide, FrameStore, Put, Retired};
use ca_base::{Dir, Gate, NoMemory, Reason, Seen};
use circular_buffer::HeapCircularBuffer;
use std::alloc::Global;
use std::marker::Model;

/// A store of words for either direction. Its memory is taken when it is made, and no call takes more. Once its gate is
/// closed it holds no words.
#[derive(Drop)]
pub struct PlainStore {
    cap: u32,
    dir: Dir,
    gate: Gate,
    words: HeapCircularBuffer<u64>,
}

impl Model for PlainStore {
    ghost use Rattle.std.specs.Prelude.{◌≡◌, ◌≤◌, length};
    ghost use Rattle.buffer_ring.specs.Kept.{Kept};
    ghost use Rattle.buffer_ring.specs.Plain.{IsRoomFor};

    ghost Value = { Kept };

    ghost view = { λ s. record { cap = s.cap; dir = s.dir; gate = s.gate; words = s.words.items } };

    ghost invariant = { λ s. IsRoomFor s.words s.cap };
}

impl PlainStore {
    /// How many words are there.
    fn count(&self) -> u32
        ensures { result ≡ length self.now.words }
    {
        let _cap = self.cap;
        self.words.len() as u32
    }
}

/// Copies the words from place `i` on of a list that is in two pieces, as many as fill the slice.
fn copy_from(front: &[u64], back: &[u64], i: usize, words: &mut [u64])
    requires { i + length words.old ≤ length front.now + length back.now }
    ensures { words.new ≡ take (length words.old) (drop i (front.now ++ back.now)) }
{
    let skipped = i.min(front.len());
    let (_, front) = front.split_at(skipped);
    let (_, back) = back.split_at(i - skipped);
    let from_front = words.len().min(front.len());
    let from_back = words.len() - from_front;
    let (start, rest) = words.split_at_mut(from_front);
    start.copy_from_slice(&front[..from_front]);
    rest.copy_from_slice(&back[..from_back]);
}

impl EngineSide for PlainStore {
    ghost use Rattle.buffer_ring.specs.Kept.{state_of, RunsSteps};
    ghost use Rattle.buffer_ring.specs.Plain.{RunsSteps-append, state_of-after};
    ghost use Rattle.std.specs.Prelude.{refl};

    ghost state = { state_of };

    ghost moves = { RunsSteps };

    ghost none = { λ a. refl };

    ghost joins = { RunsSteps-append };

    ghost goes = { state_of-after };

    fn held(&mut self) -> u32 {
        self.count()
    }

    fn get(&mut self, i: u32) -> u64 {
        self.client_get(i)
    }

    fn read(&mut self, i: u32, words: &mut [u64]) {
        let (front, back) = self.words.as_slices();
        copy_from(front, back, i as usize, words);
    }

    fn retire(&mut self, n: u32) {
        self.words.truncate_front(self.words.len() - n as usize);
    }

    fn put(&mut self, words: &[u64]) {
        self.words.fill_from_slice(words);
    }

    fn close(&mut self, reason: Reason) -> u32 {
        let held = self.count();
        self.gate = Gate::Closed(reason);
        self.words.clear();
        held
    }
}

impl FrameStore for PlainStore {
    ghost use Rattle.std.specs.Prelude.{refl};

    ghost kept = { λ s. s };

    ghost whole = { λ a. refl };

    ghost exact = { λ a b ss h. h };

    fn new(alloc: Global, cap: u32, dir: Dir) -> Result<PlainStore, NoMemory> {
        let words = HeapCircularBuffer::with_capacity(alloc, cap as usize)?;
        Ok(PlainStore {
            cap,
            dir,
            gate: Gate::Open,
            words,
        })
    }

    fn look(&mut self) -> Seen {
        Seen {
            words: self.count(),
            gate: self.gate,
        }
    }

    fn client_put(&mut self, words: &[u64]) -> Put {
        match self.gate {
            Gate::Open => {
                self.put(words);
                Put::Done
            }
            Gate::Closed(reason) => Put::Closed(reason),
        }
    }

    fn client_get(&mut self, i: u32) -> u64 {
        match self.words.get(i as usize) {
            Some(word) => *word,
            None => unreachable!(),
        }
    }

    fn client_retire(&mut self, n: u32) -> Retired {
        match self.gate {
            Gate::Open => {
                self.retire(n);
                Retired::Done
            }
            Gate::Closed(reason) => Retired::Closed(reason),
        }
    }
}
