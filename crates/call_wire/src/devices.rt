//! Device events, read behind their codes.

ghost use Rattle.std.specs.Prelude.{◌≡◌, None};
ghost use Rattle.ca_model.specs.Spelling.{device_events, listed};
ghost use Rattle.call_wire.specs.Readers.{GivesDevice, MayGiveDevice};

use crate::fault::{Fault, NoField};
use crate::fields::{expect_end, take_format, take_text, take_u8, take_u32};
use ca_base::{Bytes, EndpointNo, Text};
use ca_model::DeviceEvent;
use std::alloc::Global;

/// The device event of this code, all of the bytes.
pub fn read_device(alloc: Global, code: u8, input: &[u8]) -> Result<DeviceEvent, Fault>
    ensures { MayGiveDevice code result input.now }
{
    match code {
        1 => read_add(alloc, input),
        2 => Ok(read_set_state(input)?),
        3 => Ok(read_remove(input)?),
        4 => read_set_format(alloc, input),
        5 => Ok(read_set_default(input)?),
        6 => Ok(read_set_exclusive(input)?),
        8 => Ok(read_set_name(input)?),
        _ => read_other_device(alloc, code, input),
    }
}

fn read_add(alloc: Global, input: &[u8]) -> Result<DeviceEvent, Fault>
    ensures { MayGiveDevice 1 result input.now }
{
    let (endpoint, rest) = take_u32(input)?;
    let (flow, rest) = take_u8(rest)?;
    let (format, rest) = take_format(rest)?;
    let (name, rest) = take_text(rest)?;
    expect_end(rest)?;
    let name = Text::new(name);
    Ok(DeviceEvent::Add {
        endpoint: EndpointNo(endpoint),
        flow,
        format: Bytes::from_slice(alloc, format)?,
        name,
    })
}

fn read_set_state(input: &[u8]) -> Result<DeviceEvent, NoField>
    ensures { GivesDevice 2 result input.now }
{
    let (endpoint, rest) = take_u32(input)?;
    let (state, rest) = take_u32(rest)?;
    expect_end(rest)?;
    let endpoint = EndpointNo(endpoint);
    Ok(DeviceEvent::SetState { endpoint, state })
}

fn read_remove(input: &[u8]) -> Result<DeviceEvent, NoField>
    ensures { GivesDevice 3 result input.now }
{
    let (endpoint, rest) = take_u32(input)?;
    expect_end(rest)?;
    let endpoint = EndpointNo(endpoint);
    Ok(DeviceEvent::Remove { endpoint })
}

fn read_set_format(alloc: Global, input: &[u8]) -> Result<DeviceEvent, Fault>
    ensures { MayGiveDevice 4 result input.now }
{
    let (endpoint, rest) = take_u32(input)?;
    let (format, rest) = take_format(rest)?;
    expect_end(rest)?;
    Ok(DeviceEvent::SetFormat {
        endpoint: EndpointNo(endpoint),
        format: Bytes::from_slice(alloc, format)?,
    })
}

fn read_set_default(input: &[u8]) -> Result<DeviceEvent, NoField>
    ensures { GivesDevice 5 result input.now }
{
    let (flow, rest) = take_u8(input)?;
    let (role, rest) = take_u8(rest)?;
    let (endpoint, rest) = take_u32(rest)?;
    expect_end(rest)?;
    Ok(DeviceEvent::SetDefault {
        flow,
        role,
        endpoint: EndpointNo(endpoint),
    })
}

fn read_set_exclusive(input: &[u8]) -> Result<DeviceEvent, NoField>
    ensures { GivesDevice 6 result input.now }
{
    let (endpoint, rest) = take_u32(input)?;
    let (allow, rest) = take_u8(rest)?;
    let (priority, rest) = take_u8(rest)?;
    expect_end(rest)?;
    Ok(DeviceEvent::SetExclusive {
        endpoint: EndpointNo(endpoint),
        allow,
        priority,
    })
}

fn read_set_name(input: &[u8]) -> Result<DeviceEvent, NoField>
    ensures { GivesDevice 8 result input.now }
{
    let (endpoint, rest) = take_u32(input)?;
    let (name, rest) = take_text(rest)?;
    expect_end(rest)?;
    Ok(DeviceEvent::SetName {
        endpoint: EndpointNo(endpoint),
        name: Text::new(name),
    })
}

fn read_other_device(alloc: Global, code: u8, input: &[u8]) -> Result<DeviceEvent, Fault>
    requires { listed code device_events ≡ None }
    ensures { MayGiveDevice code result input.now }
{
    let rest = Bytes::from_slice(alloc, input)?;
    Ok(DeviceEvent::Other { code, rest })
}
