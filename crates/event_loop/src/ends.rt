//! How the loop ends.

ghost use Rattle.std.specs.Prelude.{◌≡◌};

use ca_base::NoMemory;

/// How a run of the loop ended.
#[derive(Clone, Copy, Debug, PartialEq, Eq)]
pub enum LoopEnd {
    /// The input was read to its end, and was a list of whole events.
    Done,
    /// At this place, in bytes from the start, no event begins, or the input ends inside one.
    Malformed { place: u64 },
    /// The source failed.
    ReadFault,
    /// The sink failed.
    WriteFault,
    /// Memory ran out.
    NoMemory,
    /// 2^40 bytes were read, and the end wasn't met.
    TooLong,
}

/// Why the loop stopped before it came to the end of the input.
#[derive(Clone, Copy, Debug, PartialEq, Eq)]
pub enum Stop {
    /// The source failed.
    ReadFault,
    /// The sink failed.
    WriteFault,
    /// Memory ran out.
    NoMemory,
}

impl From<NoMemory> for Stop {
    ghost use Rattle.event_loop.specs.declared.ends.Stop.TheVariants as stop;

    ghost from_gives = { λ _ s. s ≡ stop.NoMemory };

    fn from(_error: NoMemory) -> Stop {
        Stop::NoMemory
    }
}

impl From<Stop> for LoopEnd {
    ghost use Rattle.event_loop.specs.Parts.{end_of};

    ghost from_gives = { λ s end. end ≡ end_of s };

    fn from(stop: Stop) -> LoopEnd {
        match stop {
            Stop::ReadFault => LoopEnd::ReadFault,
            Stop::WriteFault => LoopEnd::WriteFault,
            Stop::NoMemory => LoopEnd::NoMemory,
        }
    }
}
