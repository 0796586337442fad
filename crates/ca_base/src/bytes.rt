//! Bytes on the heap, with memory that is taken ahead.

ghost use Rattle.std.specs.Prelude.{◌≡◌, ◌+◌, ◌≤◌, [], ◌++◌, length, IsOk, IfOk, OnOk, OnErr};

use crate::NoMemory;
use std::alloc::Global;
use std::marker::Model;

/// A list of bytes, and its capacity: how many bytes fit without asking for memory.
#[derive(Drop)]
pub struct Bytes {
    items: Vec<u8>,
}

impl Model for Bytes {
    ghost use Rattle.std.specs.Prelude.{vec_capacity};
    ghost use Rattle.ca_base.specs.Buffer.{Buffer};

    ghost Value = { Buffer };

    ghost view = { λ b. record { list = b.items.items; capacity = vec_capacity b.items } };
}

impl Bytes {
    /// No bytes. It takes no memory.
    pub fn new(alloc: Global) -> Bytes
        ensures { result.list ≡ [] }
    {
        Bytes {
            items: Vec::new(alloc),
        }
    }

    /// No bytes, with memory for `capacity` bytes.
    pub fn with_capacity(alloc: Global, capacity: usize) -> Result<Bytes, NoMemory>
        ensures list { IfOk result (λ b. b.list ≡ []) }
        ensures capacity { IfOk result (λ b. b.capacity ≡ capacity) }
    {
        let items = Vec::with_capacity(alloc, capacity)?;
        Ok(Bytes { items })
    }

    /// A copy of these bytes.
    pub fn from_slice(alloc: Global, bytes: &[u8]) -> Result<Bytes, NoMemory>
        ensures { IfOk result (λ b. b.list ≡ bytes.now) }
    {
        let items = Vec::from_slice(alloc, bytes)?;
        Ok(Bytes { items })
    }

    pub fn len(&self) -> usize
        ensures { result ≡ length self.now.list }
    {
        self.items.len()
    }

    pub fn as_slice(&self) -> &[u8]
        ensures { result.now ≡ self.now.list }
    {
        self.items.as_slice()
    }

    /// Takes memory for `more` bytes behind those of the list. `NoMemory` changes nothing.
    pub fn reserve(&mut self, more: usize) -> Result<(), NoMemory>
        ensures list { self.new.list ≡ self.old.list }
        ensures ok { OnOk result (length self.old.list + more ≤ self.new.capacity) }
        ensures keeps { self.old.capacity ≤ self.new.capacity }
        ensures fits { length self.old.list + more ≤ self.old.capacity → IsOk result }
        ensures err { OnErr result (self.new ≡ self.old) }
    {
        self.items.reserve(more)?;
        Ok(())
    }

    /// Adds the piece at the end. It asks for memory only if the piece exceeds the capacity. `NoMemory` leaves the list
    /// as it was.
    pub fn append(&mut self, piece: &[u8]) -> Result<(), NoMemory>
        ensures ok { OnOk result (self.new.list ≡ self.old.list ++ piece.now) }
        ensures keeps { self.old.capacity ≤ self.new.capacity }
        ensures fits { length self.old.list + length piece.now ≤ self.old.capacity → IsOk result }
        ensures err { OnErr result (self.new.list ≡ self.old.list) }
    {
        self.items.extend_from_slice(piece)?;
        Ok(())
    }

    /// Adds bytes that fit without asking for memory.
    pub fn append_reserved(&mut self, piece: &[u8])
        requires { length self.old.list + length piece.now ≤ self.old.capacity }
        ensures list { self.new.list ≡ self.old.list ++ piece.now }
        ensures keeps { self.old.capacity ≤ self.new.capacity }
    {
        if self.append(piece).is_err() {
            unreachable!();
        }
    }

    /// Drops all bytes, and keeps the capacity.
    pub fn clear(&mut self)
        ensures list { self.new.list ≡ [] }
        ensures keeps { self.old.capacity ≤ self.new.capacity }
    {
        self.items.clear();
    }
}
