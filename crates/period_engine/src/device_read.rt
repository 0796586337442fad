//! Reads of the devices behind the endpoints.

ghost use Rattle.std.specs.Prelude.{◌≡◌, ◌*◌, ◌≤◌, length};
ghost use Rattle.period_engine.specs.Feeds.{GivesBytes, GivesFrames};

use ca_base::{EndpointNo, Failed};
use device_io::Devices;

/// Reads an endpoint's device into the front of the bytes, asked for the whole rest at each call, until they are all
/// there or a read gives none, which is the end of what it has. Answers how many came. Of no bytes the device is not
/// asked.
fn read_bytes<D: Devices>(devices: &mut D, e: EndpointNo, bytes: &mut [u8]) -> Result<usize, Failed>
    ensures { GivesBytes e.0 result bytes.new
        (D.faults devices.old) (D.told devices.old) (D.faults devices.new) (D.told devices.new) }
{
    let mut place = 0;
    while place < bytes.len() {
        let (_, rest) = bytes.split_at_mut(place);
        let count = devices.read(e, rest)?;
        if count == 0 {
            break;
        }
        place += count;
    }
    Ok(place)
}

/// Reads what an endpoint's device gives for `p` frames of `channels` channels into the front of the bytes, and
/// answers how many whole ones came. Behind them there is silence: a part of a frame is given up.
pub fn read_frames<D: Devices>(
    devices: &mut D,
    e: EndpointNo,
    p: u32,
    channels: u16,
    bytes: &mut [u8],
) -> Result<usize, Failed>
    requires some { 1 ≤ channels }
    requires room { p * channels * 2 ≤ length bytes.old }
    ensures { GivesFrames e.0 p channels result bytes.new
        (D.faults devices.old) (D.told devices.old) (D.faults devices.new) (D.told devices.new) }
{
    let (block, size) = (channels as usize * 2, p as usize * channels as usize * 2);
    let whole = read_bytes(devices, e, &mut bytes[..size])? / block;
    bytes[whole * block..size].fill(0);
    Ok(whole)
}
