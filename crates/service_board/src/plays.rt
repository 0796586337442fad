//! The sub-steps of a period over the engine's ends of streams: picks, the Sound, and what follows it if the device
//! fails.

ghost use Rattle.std.specs.Prelude.{◌≡◌, ◌*◌, ◌≤◌, Some, is_ok, length, take};
ghost use Rattle.std.specs.List.{All, AllZip};
ghost use Rattle.ca_base.specs.declared.ids.Reason.TheVariants.{Removal};
ghost use Rattle.ca_base.specs.declared.limits.TheConstants.{CLIENTS};
ghost use Rattle.period_engine.specs.Entries.{AreEntries, IsPicked, IsRested};
ghost use Rattle.period_engine.specs.Sounds.{AreEnds, IsSameSize};
ghost use Rattle.period_engine.specs.SubSteps.{Turned};
ghost use Rattle.stream_entries.specs.Closing.{IsClosable, closes_within};
ghost use Rattle.service_board.specs.Plays.{IsPlayable, PicksAndSounds};
ghost use Rattle.stream_entries.specs.Noting.{noted_with};

use buffer_ring::EngineSide;
use ca_base::{EndpointNo, Failed, Reason};
use device_io::Devices;
use period_engine::{Block, StreamEntry, pick, sound};
use service_book::Book;
use step_notices::Noted;
use stream_entries::{close_all, noted_of};

/// Plays what is due in a period of endpoint `e`, of `p` frames, over all entries: it is picked, mixed and offered to
/// the endpoint's device. What was picked is still to be rendered, or closed if the device failed. `ends` has the gain
/// of each of the endpoint's channels.
pub fn play<D: Devices, E: EngineSide>(
    all: &mut [StreamEntry<E>],
    e: EndpointNo,
    p: u32,
    ends: &[u32],
    block: &mut Block,
    devices: &mut D,
) -> Result<(), Failed>
    requires entries { AreEntries all.old }
    requires playable { All (IsPlayable E.state e.0 p (length ends.now)) all.old }
    requires ends { AreEnds ends.now }
    requires block { p * length ends.now ≤ block.old.samples }
    ensures sounds { PicksAndSounds E.moves e.0 p ends.now (take (2 * (p * length ends.now)) block.new.bytes)
        (is_ok result) all.old all.new
        (D.faults devices.old) (D.told devices.old) (D.faults devices.new) (D.told devices.new) }
    ensures picked { All (IsPicked E.state e.0 p) all.new }
    ensures block { IsSameSize block.old block.new }
{
    pick(all, e, p);
    sound(all, e, p, ends, block, devices)
}

/// Closes the streams of endpoint `e`, whose device failed; before that it is noted what there is of the service.
#[cold]
pub fn close_failed<E: EngineSide>(
    all: &mut [StreamEntry<E>],
    e: EndpointNo,
    book: &Book,
    before: &mut Noted,
)
    requires few { length all.old ≤ CLIENTS }
    requires closable { All (IsClosable E.state (Some e.0)) all.old }
    ensures notes { before.new ≡ noted_with book.now all.old }
    ensures turned { AllZip (Turned E.moves (closes_within Removal (Some e.0))) all.old all.new }
    ensures rested { All (IsRested E.state) all.new }
{
    *before = noted_of(book, all);
    close_all(all, Some(e), Reason::Removal);
}
