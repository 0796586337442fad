//! The event at the front of the pending bytes.

ghost use Rattle.std.specs.Prelude.{◌≡◌, ◌≤◌, IfOk, IfErr, MatchResult};
ghost use Rattle.ca_model.specs.declared.event.Event.{Event as TheEvent};

use crate::ends::Stop;
use crate::replies::ReplyBuffers;
use ca_base::Sink;
use ca_model::Event;
use call_wire::{Desk, Step, next_event};
use std::alloc::Global;

/// What was at the front of some bytes.
#[derive(Clone, Copy, Debug, PartialEq, Eq)]
pub enum Front {
    /// An event, of `used` bytes, which was answered.
    Answered { used: usize },
    /// Fewer bytes than a whole frame of valid length.
    NeedMore,
    /// No event, and not the beginning of one.
    Malformed,
}

ghost use Rattle.event_loop.specs.Ends.{RoseIf, is_write_fault};
ghost use Rattle.event_loop.specs.Parts.{FrontIs, StopsFront, end_of};

// a dropped event splits a proof by its variants, so it is dropped here alone
fn discard(_event: Event) {}

/// Answers the event at the front of the bytes.
pub fn answer_front<K: Sink, M: Desk>(
    alloc: Global,
    bytes: &[u8],
    output: &mut K,
    desk: &mut M,
    buffers: &mut ReplyBuffers,
) -> Result<Front, Stop>
    requires { (m : M) (e : TheEvent) → M.reply_room m e ≤ buffers.old }
    ensures ok { IfOk result
        (FrontIs M.answers bytes.now desk.old desk.new (K.written output.old) (K.written output.new)) }
    ensures err { IfErr result
        (StopsFront M.answers bytes.now desk.old desk.new (K.written output.old) (K.written output.new)) }
    ensures faults { MatchResult result (λ _. K.faults output.new ≡ K.faults output.old)
        (λ stop. RoseIf (is_write_fault (end_of stop)) (K.faults output.old) (K.faults output.new)) }
    ensures room { buffers.new ≡ buffers.old }
{
    match next_event(alloc, bytes)? {
        Step::Event { event, used } => {
            let answered = buffers.answer(&event, output, desk);
            discard(event);
            match answered {
                Ok(()) => Ok(Front::Answered { used }),
                Err(_) => Err(Stop::WriteFault),
            }
        }
        Step::NeedMore => Ok(Front::NeedMore),
        Step::Malformed => Ok(Front::Malformed),
    }
}
