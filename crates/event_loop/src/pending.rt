//! The bytes that were read and aren't answered yet.

ghost use Rattle.std.specs.Prelude.{◌≡◌, ◌+◌, ◌-◌, ◌<◌, ◌≤◌, [], length, take, drop, vec_len};
ghost use Rattle.std.specs.Prelude.{IfOk, IfErr, OnOk, OnErr, MatchResult};
ghost use Rattle.event_loop.specs.Ends.{RoseIf, is_read_fault};
ghost use Rattle.event_loop.specs.Parts.{LacksRoom, ReadsPiece, StopsRead, end_of};

use crate::ends::Stop;
use ca_base::limits::{LENGTH_SIZE, LONGEST_BODY, READ_SIZE};
use ca_base::{NoMemory, Source};
use std::alloc::Global;
use std::marker::Model;

/// The pending bytes are those from `start` to `end` in a buffer. What was answered leaves at the front by a higher
/// `start`, and a piece comes in behind `end`. The buffer grows by zeros, and is never zeroed again. It has at most a
/// frame and a piece.
#[derive(Drop)]
pub struct Pending {
    bytes: Vec<u8>,
    start: usize,
    end: usize,
}

impl Model for Pending {
    ghost use Rattle.std.specs.Prelude.{◌-◌, length, take, drop};
    ghost use Rattle.event_loop.specs.Window.{IsWindow, PendingBytes};

    ghost Value = { PendingBytes };

    ghost view = { λ p. record {
      list = take (p.end - p.start) (drop p.start p.bytes.items);
      capacity = length p.bytes.items - p.start;
      size = length p.bytes.items;
    } };

    ghost invariant = { λ p. IsWindow p.start p.end (length p.bytes.items) };
}

/// Moves the bytes from `start` to `end` to the front of the buffer.
fn move_to_front(bytes: &mut Vec<u8>, start: usize, end: usize)
    requires ordered { start ≤ end }
    requires within { end ≤ vec_len bytes.old }
    ensures front { take (end - start) bytes.new.items ≡ take (end - start) (drop start bytes.old.items) }
    ensures size { vec_len bytes.new ≡ vec_len bytes.old }
{
    if start > 0 {
        bytes.copy_within(start..end, 0);
    }
}

impl Pending {
    /// No bytes. It takes no memory.
    pub fn new(alloc: Global) -> Pending
        ensures { result.list ≡ [] }
    {
        Pending {
            bytes: Vec::new(alloc),
            start: 0,
            end: 0,
        }
    }

    pub fn len(&self) -> usize
        ensures { result ≡ length self.now.list }
    {
        self.end - self.start
    }

    pub fn as_slice(&self) -> &[u8]
        ensures { result.now ≡ self.now.list }
    {
        &self.bytes[self.start..self.end]
    }

    /// Drops the first `used` bytes.
    pub fn drop_front(&mut self, used: usize)
        requires { used ≤ length self.old.list }
        ensures list { self.new.list ≡ drop used self.old.list }
        ensures size { self.new.size ≡ self.old.size }
    {
        self.start += used;
    }

    /// Makes room for a piece behind the bytes: they move to the front of the buffer if the room behind them is too
    /// small, and then the buffer grows if it must. Only that takes memory.
    fn make_room(&mut self) -> Result<(), NoMemory>
        requires { length self.old.list ≤ LENGTH_SIZE + LONGEST_BODY }
        ensures list { self.new.list ≡ self.old.list }
        ensures ok { OnOk result (length self.old.list + READ_SIZE ≤ self.new.capacity) }
        ensures size { OnOk result (READ_SIZE ≤ self.new.size) }
        ensures err { OnErr result (LacksRoom self.old.size self.old.list) }
    {
        if self.bytes.len() - self.end >= READ_SIZE {
            return Ok(());
        }
        move_to_front(&mut self.bytes, self.start, self.end);
        self.end -= self.start;
        self.start = 0;
        let size = self.end + READ_SIZE;
        if self.bytes.len() < size {
            self.bytes.resize(size, 0)?;
        }
        Ok(())
    }

    /// Reads at most `limit` bytes behind the pending ones, and answers how many came. 0 is the end of the source.
    /// After `NoMemory` the source wasn't asked. That comes only if the whole buffer is too small for a piece behind
    /// them.
    pub fn read<S: Source>(&mut self, input: &mut S, limit: u64) -> Result<usize, Stop>
        requires more { 0 < limit }
        requires incomplete { length self.old.list ≤ LENGTH_SIZE + LONGEST_BODY }
        ensures ok { IfOk result (λ count.
            ReadsPiece self.old.list self.new.list (S.left input.old) (S.left input.new) limit count) }
        ensures list { OnErr result (self.new.list ≡ self.old.list) }
        ensures left { OnErr result (S.left input.new ≡ S.left input.old) }
        ensures err { IfErr result (StopsRead self.old.size self.old.list) }
        ensures size { OnOk result (READ_SIZE ≤ self.new.size) }
        ensures faults { MatchResult result (λ _. S.faults input.new ≡ S.faults input.old)
            (λ stop. RoseIf (is_read_fault (end_of stop)) (S.faults input.old) (S.faults input.new)) }
    {
        self.make_room()?;
        let count = limit.min(READ_SIZE as u64) as usize;
        let end = self.end;
        match input.read(&mut self.bytes[end..end + count]) {
            Ok(count) => {
                self.end += count;
                Ok(count)
            }
            Err(_) => Err(Stop::ReadFault),
        }
    }
}
