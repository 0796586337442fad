//! The Sound of a period: what was picked is mixed and offered to the endpoint's device.

ghost use Rattle.std.specs.Prelude.{◌*◌, ◌≤◌, length, take, is_ok};
ghost use Rattle.std.specs.List.{All};
ghost use Rattle.ca_base.specs.declared.limits.TheConstants.{CLIENTS};
ghost use Rattle.period_engine.specs.Entries.{AreEntries, IsPicked};
ghost use Rattle.period_engine.specs.Sounds.{AreEnds, IsMixable, IsSameSize, Sounds};
ghost use Rattle.period_engine.specs.Added.{IsAddable};
ghost use Rattle.period_engine.specs.Written.{MixesAll};

use crate::adding::add_all;
use crate::device_write::offer;
use crate::writing::write_samples;
use crate::{Block, StreamEntry};
use buffer_ring::EngineSide;
use ca_base::{EndpointNo, Failed};
use device_io::Devices;

/// Mixes what was picked of all entries: `size` sums from the front of the sums, and their bytes from the front of the
/// bytes. What is behind them stays.
fn mix<E: EngineSide>(
    all: &mut [StreamEntry<E>],
    size: usize,
    ends: &[u32],
    sums: &mut [i32],
    bytes: &mut [u8],
)
    requires ends { AreEnds ends.now }
    requires count { length all.old ≤ CLIENTS }
    requires addable { All (IsAddable E.state (length ends.now) size) all.old }
    requires sums { size ≤ length sums.old }
    requires bytes { 2 * size ≤ length bytes.old }
    ensures { MixesAll E.moves E.state ends.now size all.old all.new (take (2 * size) bytes.new) }
{
    let sums = &mut sums[..size];
    let bytes = &mut bytes[..2 * size];
    add_all(all, ends.len(), sums);
    write_samples(sums, ends, bytes);
}

/// Mixes what was picked of the streams that a period of endpoint `e` plays, `p` frames in all with silence behind
/// them, and offers the bytes to the endpoint's device. `ends` has the gain of each of the endpoint's channels.
pub fn sound<E: EngineSide, D: Devices>(
    all: &mut [StreamEntry<E>],
    e: EndpointNo,
    p: u32,
    ends: &[u32],
    block: &mut Block,
    devices: &mut D,
) -> Result<(), Failed>
    requires entries { AreEntries all.old }
    requires picked { All (IsPicked E.state e.0 p) all.old }
    requires mixable { All (IsMixable (length ends.now)) all.old }
    requires ends { AreEnds ends.now }
    requires block { p * length ends.now ≤ block.old.samples }
    ensures sounds { Sounds E.moves e.0 p ends.now (take (2 * (p * length ends.now)) block.new.bytes) (is_ok result)
        all.old all.new (D.faults devices.old) (D.told devices.old) (D.faults devices.new) (D.told devices.new) }
    ensures picked { All (IsPicked E.state e.0 p) all.new }
    ensures block { IsSameSize block.old block.new }
{
    let size = p as usize * ends.len();
    mix(all, size, ends, &mut block.sums, &mut block.bytes);
    offer(devices, e, &block.bytes[..2 * size])
}
