//! The loop.

ghost use Rattle.std.specs.Prelude.{◌≡◌, ◌+◌, ◌≤◌};
ghost use Rattle.ca_model.specs.declared.event.Event.{Event as TheEvent};
ghost use Rattle.event_loop.specs.Runs.{Runs};
ghost use Rattle.event_loop.specs.Ends.{Ends, RoseIf, is_read_fault, is_write_fault, moment};

use crate::ends::LoopEnd;
use crate::front::{Front, answer_front};
use crate::pending::Pending;
use crate::replies::ReplyBuffers;
use ca_base::limits::{LONGEST_BODY, LONGEST_INPUT};
use ca_base::{Sink, Source};
use call_wire::Desk;
use std::alloc::Global;

/// Reads events from the source to its end, asks the desk for each in order, and writes each reply after its event. The
/// payload of a reply has at most `room` bytes: memory for the reply and its frame is taken once, before anything is
/// read. What is pending between two reads is at most a frame and a piece.
pub fn answer_events<S: Source, K: Sink, M: Desk>(
    alloc: Global,
    input: &mut S,
    output: &mut K,
    desk: &mut M,
    room: usize,
) -> LoopEnd
    requires replies { (m : M) (e : TheEvent) → M.reply_room m e ≤ room }
    requires frame { 10 + room ≤ LONGEST_BODY }
    ensures ends { Ends (Runs M.answers) (moment (S.left input.old) (K.written output.old) desk.old)
        (moment (S.left input.new) (K.written output.new) desk.new) result }
    ensures source { RoseIf (is_read_fault result) (S.faults input.old) (S.faults input.new) }
    ensures sink { RoseIf (is_write_fault result) (K.faults output.old) (K.faults output.new) }
{
    let Ok(mut buffers) = ReplyBuffers::new(alloc, room) else {
        return LoopEnd::NoMemory;
    };
    let mut pending = Pending::new(alloc);
    let mut taken = 0;
    'events: loop {
        match answer_front(alloc, pending.as_slice(), output, desk, &mut buffers) {
            Ok(Front::Answered { used }) => pending.drop_front(used),
            Ok(Front::Malformed) => {
                return LoopEnd::Malformed {
                    place: taken - pending.len() as u64,
                };
            }
            Ok(Front::NeedMore) => {
                if taken == LONGEST_INPUT {
                    return LoopEnd::TooLong;
                }
                match pending.read(input, LONGEST_INPUT - taken) {
                    Ok(0) if pending.len() == 0 => return LoopEnd::Done,
                    Ok(0) => {
                        return LoopEnd::Malformed {
                            place: taken - pending.len() as u64,
                        };
                    }
                    Ok(count) => taken += count as u64,
                    Err(stop) => return stop.into(),
                }
            }
            Err(stop) => return stop.into(),
        }
    }
}
