//! Replies: asked of the desk, and written whole.

ghost use Rattle.std.specs.Prelude.{◌≡◌, ℕ, ◌+◌, ◌≤◌, IfOk, OnOk, OnErr};
ghost use Rattle.std.specs.Io.KnownBytes.{Appends};
ghost use Rattle.ca_base.specs.Faults.{Counts};
ghost use Rattle.ca_model.specs.declared.event.Event.{Event as TheEvent};
ghost use Rattle.event_loop.specs.Parts.{AnswersOne, CutsOff};

use ca_base::limits::LONGEST_BODY;
use ca_base::{Bytes, Failed, Hr, NoMemory, Sink};
use ca_model::{Event, Reply};
use call_wire::{Desk, write_reply};
use std::alloc::Global;
use std::marker::Model;

/// The bytes of a reply's frame before its payload: its length, kind, connection, tag and result.
const REPLY_HEAD: usize = 14;

/// Memory for a reply whose payload has at most `room` bytes, and for its frame. It is taken once and serves each
/// reply.
#[derive(Drop)]
pub struct ReplyBuffers {
    room: usize,
    reply: Reply,
    frame: Bytes,
}

impl Model for ReplyBuffers {
    ghost use Rattle.std.specs.Prelude.{ℕ, ◌+◌, ◌≤◌};

    ghost Value = { ℕ };

    ghost view = { λ b. b.room };

    ghost invariant = { λ b. (b.room ≤ b.reply.payload.capacity) × (14 + b.room ≤ b.frame.capacity) };
}

/// Writes all of the bytes. After `Failed` some of them at the end are missing.
fn write_all<K: Sink>(output: &mut K, bytes: &[u8]) -> Result<(), Failed>
    ensures ok { OnOk result (Appends (K.written output.old) (K.written output.new) bytes.now) }
    ensures err { OnErr result (CutsOff (K.written output.old) (K.written output.new) bytes.now) }
    ensures cause { Counts result (K.faults output.old) (K.faults output.new) }
{
    let mut done = 0;
    'pieces: while done < bytes.len() {
        let (_, rest) = bytes.split_at(done);
        done += output.write(rest)?;
    }
    Ok(())
}

impl ReplyBuffers {
    /// Takes the memory.
    pub fn new(alloc: Global, room: usize) -> Result<ReplyBuffers, NoMemory>
        requires { 10 + room ≤ LONGEST_BODY }
        ensures { IfOk result (λ b. b ≡ room) }
    {
        let payload = Bytes::with_capacity(alloc, room)?;
        let frame = Bytes::with_capacity(alloc, REPLY_HEAD + room)?;
        let reply = Reply {
            kind: 0,
            conn: 0,
            tag: 0,
            result: Hr::S_OK,
            payload,
        };
        Ok(ReplyBuffers { room, reply, frame })
    }

    /// Asks the desk, and writes its reply. No memory is taken for them.
    pub fn answer<K: Sink, M: Desk>(
        &mut self,
        event: &Event,
        output: &mut K,
        desk: &mut M,
    ) -> Result<(), Failed>
        requires { (m : M) (e : TheEvent) → M.reply_room m e ≤ self.old }
        ensures ok { OnOk result
            (AnswersOne M.answers Appends event.now desk.old desk.new (K.written output.old) (K.written output.new)) }
        ensures err { OnErr result
            (AnswersOne M.answers CutsOff event.now desk.old desk.new (K.written output.old) (K.written output.new)) }
        ensures cause { Counts result (K.faults output.old) (K.faults output.new) }
        ensures room { self.new ≡ self.old }
    {
        self.reply.payload.clear();
        if desk.ask(event, &mut self.reply).is_err() {
            unreachable!();
        }
        self.frame.clear();
        if write_reply(&self.reply, &mut self.frame).is_err() {
            unreachable!();
        }
        write_all(output, self.frame.as_slice())
    }
}
