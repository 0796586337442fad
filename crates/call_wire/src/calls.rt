//! Calls, read behind their codes.

ghost use Rattle.std.specs.Prelude.{◌≡◌, [], ◌∷◌, Some, None};
ghost use Rattle.ca_model.specs.Fields.Kind.{four_bytes, eight_bytes};
ghost use Rattle.ca_model.specs.Fields.Field.{number as number_field};
ghost use Rattle.ca_model.specs.Spelling.{call_code, call_fields, calls, listed};
ghost use Rattle.call_wire.specs.Readers.{CallIsOwn, GivesCall, MayGiveCall};

use crate::endpoints::{read_enum_endpoints, read_get_default, read_get_device};
use crate::fault::{Fault, NoField};
use crate::fields::{expect_end, take_format, take_guid, take_u8, take_u32, take_u64};
use crate::sessions::{
    read_set_channel, read_set_grouping, read_set_master, read_set_mute, read_text_call,
};
use ca_base::{Bytes, ClientNo, EndpointNo, SessionNo};
use ca_model::Call;
use std::alloc::Global;

/// The call of this code, all of the bytes.
pub fn read_call(alloc: Global, code: u8, input: &[u8]) -> Result<Call, Fault>
    ensures { MayGiveCall code result input.now }
{
    match code {
        1 => Ok(read_enum_endpoints(input)?),
        2 => Ok(read_get_default(input)?),
        3 => Ok(read_get_device(input)?),
        4 | 9 | 10 | 48 => Ok(read_u32_call(code, input)?),
        5 => Ok(read_activate(input)?),
        7 => Ok(read_register(input)?),
        16 => read_initialize(alloc, input),
        20 => read_is_format_supported(alloc, input),
        26 => Ok(read_set_event_handle(input)?),
        27 => Ok(read_get_service(input)?),
        6 | 8 | 17..=19 | 21..=25 | 28 | 49 => Ok(read_number_call(code, input)?),
        29 => Ok(read_get_stream_level(input)?),
        30 => Ok(read_set_stream_level(input)?),
        32 => Ok(read_get_buffer(input)?),
        33 => read_release_buffer(alloc, input),
        34 | 35 => Ok(read_number_call(code, input)?),
        36 => Ok(read_capture_release_buffer(input)?),
        50 => Ok(read_set_master(input)?),
        51 => Ok(read_set_mute(input)?),
        52 => Ok(read_set_channel(input)?),
        53 | 54 => Ok(read_text_call(code, input)?),
        55 => Ok(read_set_grouping(input)?),
        _ => read_other_call(alloc, code, input),
    }
}

fn read_activate(input: &[u8]) -> Result<Call, NoField>
    ensures { GivesCall 5 result input.now }
{
    let (endpoint, rest) = take_u32(input)?;
    let (role, rest) = take_u8(rest)?;
    expect_end(rest)?;
    let endpoint = EndpointNo(endpoint);
    Ok(Call::Activate { endpoint, role })
}

fn read_register(input: &[u8]) -> Result<Call, NoField>
    ensures { GivesCall 7 result input.now }
{
    let (class, rest) = take_u8(input)?;
    let (subject, rest) = take_u64(rest)?;
    expect_end(rest)?;
    Ok(Call::Register { class, subject })
}

fn read_initialize(alloc: Global, input: &[u8]) -> Result<Call, Fault>
    ensures { MayGiveCall 16 result input.now }
{
    let (client, rest) = take_u64(input)?;
    let (share, rest) = take_u32(rest)?;
    let (flags, rest) = take_u32(rest)?;
    let (duration, rest) = take_u64(rest)?;
    let (period, rest) = take_u64(rest)?;
    let (format, rest) = take_format(rest)?;
    let (session, rest) = take_guid(rest)?;
    expect_end(rest)?;
    Ok(Call::Initialize {
        client: ClientNo(client),
        share,
        flags,
        duration,
        period,
        format: Bytes::from_slice(alloc, format)?,
        session,
    })
}

/// A call that has one number of four bytes alone, an endpoint's or how many notices, by its code.
fn read_u32_call(code: u8, input: &[u8]) -> Result<Call, NoField>
    requires { listed code calls ≡ Some (four_bytes ∷ []) }
    ensures { GivesCall code result input.now }
{
    let (number, rest) = take_u32(input)?;
    expect_end(rest)?;
    Ok(u32_call(code, number))
}

/// The call of this code and this number of four bytes, which has nothing else.
fn u32_call(code: u8, number: u32) -> Call
    requires { listed code calls ≡ Some (four_bytes ∷ []) }
    ensures code { call_code result ≡ code }
    ensures own { CallIsOwn result }
    ensures fields { call_fields result ≡ number_field number ∷ [] }
{
    let endpoint = EndpointNo(number);
    match code {
        4 => Call::DeviceInfo { endpoint },
        9 => Call::TakeNotices { max: number },
        10 => Call::AwaitNotices { max: number },
        // 48, the only one that is left
        _ => Call::EnumSessions { endpoint },
    }
}

/// A call that has one number of eight bytes alone, a client's, a session's or a registration's, by its code.
#[inline(always)]
fn read_number_call(code: u8, input: &[u8]) -> Result<Call, NoField>
    requires { listed code calls ≡ Some (eight_bytes ∷ []) }
    ensures { GivesCall code result input.now }
{
    let (number, rest) = take_u64(input)?;
    expect_end(rest)?;
    Ok(number_call(code, number))
}

/// The call of this code and this number of eight bytes, which has nothing else.
fn number_call(code: u8, number: u64) -> Call
    requires { listed code calls ≡ Some (eight_bytes ∷ []) }
    ensures code { call_code result ≡ code }
    ensures own { CallIsOwn result }
    ensures fields { call_fields result ≡ number_field number ∷ [] }
{
    let client = ClientNo(number);
    match code {
        6 => Call::Release { client },
        8 => Call::Unregister {
            registration: number,
        },
        17 => Call::GetBufferSize { client },
        18 => Call::GetStreamLatency { client },
        19 => Call::GetCurrentPadding { client },
        21 => Call::GetMixFormat { client },
        22 => Call::GetDevicePeriod { client },
        23 => Call::Start { client },
        24 => Call::Stop { client },
        25 => Call::Reset { client },
        28 => Call::GetPosition { client },
        34 => Call::GetNextPacketSize { client },
        35 => Call::CaptureGetBuffer { client },
        // 49, the only one that is left
        _ => Call::GetSession {
            session: SessionNo(number),
        },
    }
}

fn read_is_format_supported(alloc: Global, input: &[u8]) -> Result<Call, Fault>
    ensures { MayGiveCall 20 result input.now }
{
    let (client, rest) = take_u64(input)?;
    let (share, rest) = take_u32(rest)?;
    let (format, rest) = take_format(rest)?;
    expect_end(rest)?;
    Ok(Call::IsFormatSupported {
        client: ClientNo(client),
        share,
        format: Bytes::from_slice(alloc, format)?,
    })
}

fn read_set_event_handle(input: &[u8]) -> Result<Call, NoField>
    ensures { GivesCall 26 result input.now }
{
    let (client, rest) = take_u64(input)?;
    let (handle, rest) = take_u64(rest)?;
    expect_end(rest)?;
    let client = ClientNo(client);
    Ok(Call::SetEventHandle { client, handle })
}

fn read_get_service(input: &[u8]) -> Result<Call, NoField>
    ensures { GivesCall 27 result input.now }
{
    let (client, rest) = take_u64(input)?;
    let (service, rest) = take_u32(rest)?;
    expect_end(rest)?;
    let client = ClientNo(client);
    Ok(Call::GetService { client, service })
}

fn read_get_stream_level(input: &[u8]) -> Result<Call, NoField>
    ensures { GivesCall 29 result input.now }
{
    let (client, rest) = take_u64(input)?;
    let (channel, rest) = take_u32(rest)?;
    expect_end(rest)?;
    let client = ClientNo(client);
    Ok(Call::GetStreamLevel { client, channel })
}

fn read_set_stream_level(input: &[u8]) -> Result<Call, NoField>
    ensures { GivesCall 30 result input.now }
{
    let (client, rest) = take_u64(input)?;
    let (channel, rest) = take_u32(rest)?;
    let (level, rest) = take_u32(rest)?;
    expect_end(rest)?;
    Ok(Call::SetStreamLevel {
        client: ClientNo(client),
        channel,
        level,
    })
}

fn read_get_buffer(input: &[u8]) -> Result<Call, NoField>
    ensures { GivesCall 32 result input.now }
{
    let (client, rest) = take_u64(input)?;
    let (frames, rest) = take_u32(rest)?;
    expect_end(rest)?;
    let client = ClientNo(client);
    Ok(Call::GetBuffer { client, frames })
}

fn read_release_buffer(alloc: Global, input: &[u8]) -> Result<Call, Fault>
    ensures { MayGiveCall 33 result input.now }
{
    let (client, rest) = take_u64(input)?;
    let (frames, rest) = take_u32(rest)?;
    let (flags, rest) = take_u32(rest)?;
    Ok(Call::ReleaseBuffer {
        client: ClientNo(client),
        frames,
        flags,
        bytes: Bytes::from_slice(alloc, rest)?,
    })
}

fn read_capture_release_buffer(input: &[u8]) -> Result<Call, NoField>
    ensures { GivesCall 36 result input.now }
{
    let (client, rest) = take_u64(input)?;
    let (frames, rest) = take_u32(rest)?;
    expect_end(rest)?;
    let client = ClientNo(client);
    Ok(Call::CaptureReleaseBuffer { client, frames })
}

fn read_other_call(alloc: Global, code: u8, input: &[u8]) -> Result<Call, Fault>
    requires { listed code calls ≡ None }
    ensures { MayGiveCall code result input.now }
{
    let rest = Bytes::from_slice(alloc, input)?;
    Ok(Call::Other { code, rest })
}
