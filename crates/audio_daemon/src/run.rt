//! The top call.

ghost use Rattle.std.specs.Prelude.{◌≡◌};
ghost use Rattle.ca_machine.specs.Complete.{UnrefusedIsGranted};
ghost use Rattle.event_loop.specs.Ends.{RoseIf, moment};
ghost use Rattle.event_loop.specs.Complete.{DidNotRise};
ghost use Rattle.audio_daemon.specs.Run.{RunEnds, is_folder, is_replay, read_failed, status_of, write_failed};
ghost use Rattle.audio_daemon.specs.Complete.{Completes};

use buffer_ring::PlainStore;
use ca_base::{NoMemory, Sink, Source, Words};
use ca_machine::headline::{headline, unrefused_is_granted};
use device_io::Devices;
use event_loop::{LoopEnd, answer_events};
use service_core::{Core, REPLY_ROOM};
use std::alloc::Global;

/// How a run of the program ended.
#[derive(Clone, Copy, Debug, PartialEq, Eq)]
pub enum Status {
    /// The input was read to its end, and was a list of whole events.
    Done,
    /// The words aren't `replay FOLDER`. Nothing was done.
    Usage,
    /// At this place, in bytes from the start, no event begins, or the input ends inside one.
    Malformed { place: u64 },
    /// The input failed.
    ReadFault,
    /// The output failed.
    WriteFault,
    /// Memory ran out.
    NoMemory,
    /// 2^40 bytes were read, and the end wasn't met.
    TooLong,
}

impl From<LoopEnd> for Status {
    ghost from_gives = { λ end status. status ≡ status_of end };

    fn from(end: LoopEnd) -> Status {
        match end {
            LoopEnd::Done => Status::Done,
            LoopEnd::Malformed { place } => Status::Malformed { place },
            LoopEnd::ReadFault => Status::ReadFault,
            LoopEnd::WriteFault => Status::WriteFault,
            LoopEnd::NoMemory => Status::NoMemory,
            LoopEnd::TooLong => Status::TooLong,
        }
    }
}

/// Whether a word may name a folder: it isn't empty, and doesn't begin with a dash.
fn names_folder(word: &[u8]) -> bool
    ensures { result ≡ is_folder word.now }
{
    match word {
        [] => false,
        [first, ..] => *first != b'-',
    }
}

/// Whether the words are `replay FOLDER`.
pub fn are_replay(words: &Words) -> bool
    ensures { result ≡ is_replay words.now }
{
    if words.len() != 2 {
        return false;
    }
    match (words.get(0), words.get(1)) {
        (Some(command), Some(folder)) => command == "replay" && names_folder(folder.as_bytes()),
        _ => false,
    }
}

/// Does all that the program does: with the words `replay FOLDER` it reads events from the input to its end, answers
/// each in order by the one-thread machine over the devices, and writes each reply after its event. The devices are
/// handed back as the run left them.
pub fn run<S: Source, K: Sink, D: Devices>(
    alloc: Global,
    words: &Words,
    input: &mut S,
    output: &mut K,
    devices: D,
) -> (Status, D)
    ensures ends { RunEnds D.faults D.told words.now (moment (S.left input.old) (K.written output.old) devices)
        (moment (S.left input.new) (K.written output.new) result.1) result.0 }
    ensures source { RoseIf (read_failed result.0) (S.faults input.old) (S.faults input.new) }
    ensures sink { RoseIf (write_failed result.0) (K.faults output.old) (K.faults output.new) }
    ensures completes { DidNotRise (S.faults input.old) (S.faults input.new)
        → DidNotRise (K.faults output.old) (K.faults output.new)
        → Completes D.faults D.told words.now (moment (S.left input.old) (K.written output.old) devices)
        (moment (S.left input.new) (K.written output.new) result.1) result.0 }
    ensures grants { UnrefusedIsGranted }
{
    headline();
    unrefused_is_granted();
    if !are_replay(words) {
        return (Status::Usage, devices);
    }
    let mut core: Core<D, PlainStore> = match Core::new(alloc, devices) {
        Ok(core) => core,
        Err((NoMemory, devices)) => return (Status::NoMemory, devices),
    };
    let end = answer_events(alloc, input, output, &mut core, REPLY_ROOM);
    (end.into(), core.into_devices())
}
