//! Offers of bytes to the devices behind the endpoints.

ghost use Rattle.std.specs.Prelude.{is_ok};
ghost use Rattle.period_engine.specs.Offers.{Offers};

use ca_base::{EndpointNo, Failed};
use device_io::Devices;

/// Offers the bytes to an endpoint's device, the whole rest at each call, until it took them all or failed. Of no bytes
/// the device is not asked.
pub fn offer<D: Devices>(devices: &mut D, e: EndpointNo, bytes: &[u8]) -> Result<(), Failed>
    ensures { Offers e.0 bytes.now (is_ok result)
        (D.faults devices.old) (D.told devices.old) (D.faults devices.new) (D.told devices.new) }
{
    let mut rest = bytes;
    while !rest.is_empty() {
        let count = devices.write(e, rest)?;
        let (_, after) = rest.split_at(count);
        rest = after;
    }
    Ok(())
}
