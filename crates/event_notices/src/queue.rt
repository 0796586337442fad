//! What a connection registered for, and its notices.

ghost use Rattle.std.specs.Prelude.{◌≡◌, IfOk};
ghost use Rattle.event_notices.specs.Notices.{no_notices};

use crate::{Notice, Registration};
use ca_base::NoMemory;
use ca_base::limits::NOTICES;
use circular_buffer::HeapCircularBuffer;
use std::alloc::Global;
use std::marker::Model;

/// What a connection registered for, in the order of the numbers, how many registrations it ever made, the last 256
/// notices that matched one, the oldest first, and how many older ones were lost since the last `take`. The count of
/// lost ones saturates at 2^64 - 1. The memory of the notices is taken when the queue is made.
#[derive(Drop)]
pub struct NoticeQueue {
    pub(crate) registrations: Vec<Registration>,
    pub(crate) made: u64,
    pub(crate) kept: HeapCircularBuffer<Notice>,
    pub(crate) lost: u64,
}

impl Model for NoticeQueue {
    ghost use Rattle.event_notices.specs.Notices.{Notices};
    ghost use Rattle.event_notices.specs.Queue.{IsQueue, notices_of};

    ghost Value = { Notices };

    ghost view = { notices_of };

    ghost invariant = { IsQueue };
}

impl NoticeQueue {
    /// No registrations and no notices, and memory for 256 notices.
    pub fn new(alloc: Global) -> Result<NoticeQueue, NoMemory>
        ensures { IfOk result (λ q. q ≡ no_notices) }
    {
        let kept = HeapCircularBuffer::with_capacity(alloc, NOTICES)?;
        Ok(NoticeQueue {
            registrations: Vec::new(alloc),
            made: 0,
            kept,
            lost: 0,
        })
    }

    /// Drops all registrations and notices, as of a connection that ended. It keeps the memory of the notices.
    pub fn clear(&mut self)
        ensures { self.new ≡ no_notices }
    {
        self.registrations.clear();
        self.made = 0;
        self.kept.clear();
        self.lost = 0;
    }
}
