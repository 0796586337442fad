//! The next event of a file.

ghost use Rattle.std.specs.Prelude.{MatchResult};

use crate::events::read_event;
use crate::fault::Fault;
use ca_base::NoMemory;
use ca_base::limits::{LENGTH_SIZE, LONGEST_BODY};
use ca_model::Event;
use std::alloc::Global;

/// What is at the front of some bytes.
#[derive(Drop)]
pub enum Step {
    /// An event, and how many bytes its frame has.
    Event { event: Event, used: usize },
    /// An incomplete prefix of a frame: a valid length and fewer bytes than it says, or not even a length.
    NeedMore,
    /// An invalid length, or a whole frame that spells no event.
    Malformed,
}

ghost use Rattle.call_wire.specs.Next.{IsNext, IsOutOfMemory};

/// Reads the event at the front of the bytes. What follows its frame changes nothing (`begun_stays`,
/// `malformed_stays`). Memory is taken for an event's format and for the rest of its bytes alone: `NoMemory` comes only
/// for a whole event that has one of these.
pub fn next_event(alloc: Global, bytes: &[u8]) -> Result<Step, NoMemory>
    ensures { MatchResult result (λ step. IsNext step bytes.now) (λ _. IsOutOfMemory bytes.now) }
{
    let Some((length, rest)) = bytes.split_first_chunk::<LENGTH_SIZE>() else {
        return Ok(Step::NeedMore);
    };
    let length = u32::from_le_bytes(*length) as usize;
    if length == 0 || length > LONGEST_BODY {
        return Ok(Step::Malformed);
    }
    if rest.len() < length {
        return Ok(Step::NeedMore);
    }
    match read_event(alloc, &rest[..length]) {
        Ok(event) => Ok(Step::Event {
            event,
            used: LENGTH_SIZE + length,
        }),
        Err(Fault::OutOfMemory) => Err(NoMemory),
        Err(Fault::Malformed) => Ok(Step::Malformed),
    }
}
