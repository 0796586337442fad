//! What is asked of the program, the reply that it gets, and the bytes of both.

ghost use Rattle.std.specs.Prelude.{◌≤◌};

use crate::run::Status;
use crate::tests::{OPEN, Outcome, joined, replay};
use std::alloc::Global;
use std::test::Fail;

/// WAVEFORMATEX of 48,000 Hz with two channels, after its two bytes of length: the format of endpoint 1.
pub const MIX_FORMAT: &[u8] = b"\x12\0\x01\0\x02\0\x80\xbb\0\0\0\xee\x02\0\x04\0\x10\0\0\0";

/// What is asked of endpoint 1, and of connection 1 if no other is named.
#[derive(Clone, Copy)]
pub enum Ask {
    /// A call's code, and the bytes of its fields. Its tag is 9.
    Call(u8, &'static [u8]),
    /// The same on another connection.
    On(u8, u8, &'static [u8]),
    /// Initialize on this connection, of this client, with these flags: shared, duration 0, `MIX_FORMAT`, and a GUID
    /// each of whose bytes is this one.
    Initialize(u8, u8, u32, u8),
    /// Initialize on this connection, of this client, with these flags, this duration and this period: exclusive,
    /// `MIX_FORMAT`, and the null GUID.
    Exclusive(u8, u8, u32, u32, u32),
    /// ReleaseBuffer of this client: so many frames with these flags, each of them this one.
    Frames(u8, u16, u32, [u8; 4]),
    /// A device event's code, and the bytes of its fields.
    Device(u8, &'static [u8]),
    Period,
    /// A period of the endpoint of this number.
    PeriodOf(u8),
    Hangup,
    /// The connection of this number hangs up.
    HangupOf(u8),
    Shutdown,
    /// The connection opens, as in `OPEN`.
    Open,
    /// The connection of this number opens, of the process of this number and with this name.
    OpenAs(u8, u8, &'static [u8]),
}

/// What is asked, and the code and payload of its reply.
pub type Exchange = (Ask, u32, &'static [u8]);

/// The events that come first, and what is asked then.
pub type Row = (&'static [&'static [u8]], &'static [Exchange]);

/// The size of fields or of a payload; none here is as long as 64 KiB.
fn size_of(bytes: &[u8]) -> u32
    ensures { result ≤ 65536 }
{
    bytes.len().min(65_536) as u32
}

/// Puts the frame of a call behind the input. Answers the head of its reply.
pub fn put_call(conn: u8, code: u8, fields: &[u8], input: &mut Vec<u8>) -> Result<[u8; 6], Fail> {
    input.extend_from_slice(&(size_of(fields) + 7).to_le_bytes())?;
    input.extend_from_slice(&[3, conn, 9, 0, 0, 0, code])?;
    input.extend_from_slice(fields)?;
    Ok([3, conn, 9, 0, 0, 0])
}

/// The same of Initialize, as `Ask::Initialize` has it.
pub fn put_opening(
    conn: u8,
    client: u8,
    flags: u32,
    guid: u8,
    input: &mut Vec<u8>,
) -> Result<[u8; 6], Fail> {
    input.extend_from_slice(&[0x4b, 0, 0, 0, 3, conn, 9, 0, 0, 0, 16])?;
    input.extend_from_slice(&[client, 0, 0, 0, 0, 0, 0, 0, 0, 0, 0, 0])?;
    input.extend_from_slice(&flags.to_le_bytes())?;
    input.extend_from_slice(&[0; 16])?;
    input.extend_from_slice(MIX_FORMAT)?;
    input.extend_from_slice(&[guid; 16])?;
    Ok([3, conn, 9, 0, 0, 0])
}

/// The same of Initialize, as `Ask::Exclusive` has it.
fn put_exclusive(
    conn: u8,
    client: u8,
    flags: u32,
    times: (u32, u32),
    input: &mut Vec<u8>,
) -> Result<[u8; 6], Fail> {
    let (duration, period) = times;
    input.extend_from_slice(&[0x4b, 0, 0, 0, 3, conn, 9, 0, 0, 0, 16])?;
    input.extend_from_slice(&[client, 0, 0, 0, 0, 0, 0, 0, 1, 0, 0, 0])?;
    input.extend_from_slice(&flags.to_le_bytes())?;
    input.extend_from_slice(&(duration as u64).to_le_bytes())?;
    input.extend_from_slice(&(period as u64).to_le_bytes())?;
    input.extend_from_slice(MIX_FORMAT)?;
    input.extend_from_slice(&[0; 16])?;
    Ok([3, conn, 9, 0, 0, 0])
}

/// The same of ReleaseBuffer, as `Ask::Frames` has it.
fn put_frames(
    client: u8,
    count: u16,
    flags: u32,
    frame: [u8; 4],
    input: &mut Vec<u8>,
) -> Result<[u8; 6], Fail> {
    let size = 23 + count as u32 * 4;
    input.extend_from_slice(&size.to_le_bytes())?;
    input.extend_from_slice(&[3, 1, 9, 0, 0, 0, 33, client, 0, 0, 0, 0, 0, 0, 0])?;
    input.extend_from_slice(&(count as u32).to_le_bytes())?;
    input.extend_from_slice(&flags.to_le_bytes())?;
    for _ in 0..count {
        input.extend_from_slice(&frame)?;
    }
    Ok([3, 1, 9, 0, 0, 0])
}

/// The same of Open.
fn put_open(conn: u8, process: u8, name: &[u8], input: &mut Vec<u8>) -> Result<[u8; 6], Fail> {
    let length = name.len().min(256) as u16;
    input.extend_from_slice(&(length as u32 + 8).to_le_bytes())?;
    input.extend_from_slice(&[1, conn, process, 0, 0, 0])?;
    input.extend_from_slice(&length.to_le_bytes())?;
    input.extend_from_slice(name)?;
    Ok([1, conn, 0, 0, 0, 0])
}

/// The same of a device event.
fn put_device(code: u8, fields: &[u8], input: &mut Vec<u8>) -> Result<[u8; 6], Fail> {
    input.extend_from_slice(&(size_of(fields) + 2).to_le_bytes())?;
    input.extend_from_slice(&[5, code])?;
    input.extend_from_slice(fields)?;
    Ok([5, 0, 0, 0, 0, 0])
}

/// The same of a period.
fn put_period(endpoint: u8, input: &mut Vec<u8>) -> Result<[u8; 6], Fail> {
    input.extend_from_slice(&[5, 0, 0, 0, 4, endpoint, 0, 0, 0])?;
    Ok([4, 0, 0, 0, 0, 0])
}

/// The same of a hang-up.
fn put_hangup(conn: u8, input: &mut Vec<u8>) -> Result<[u8; 6], Fail> {
    input.extend_from_slice(&[2, 0, 0, 0, 2, conn])?;
    Ok([2, conn, 0, 0, 0, 0])
}

/// The same of what is asked.
fn put_event(ask: Ask, input: &mut Vec<u8>) -> Result<[u8; 6], Fail> {
    match ask {
        Ask::Call(call, fields) => put_call(1, call, fields, input),
        Ask::On(conn, call, fields) => put_call(conn, call, fields, input),
        Ask::Initialize(conn, client, flags, guid) => {
            put_opening(conn, client, flags, guid, input)
        }
        Ask::Exclusive(conn, client, flags, duration, period) => {
            put_exclusive(conn, client, flags, (duration, period), input)
        }
        Ask::Frames(client, count, flags, frame) => put_frames(client, count, flags, frame, input),
        Ask::Device(event, fields) => put_device(event, fields, input),
        Ask::Period => put_period(1, input),
        Ask::PeriodOf(endpoint) => put_period(endpoint, input),
        Ask::Hangup => put_hangup(1, input),
        Ask::HangupOf(conn) => put_hangup(conn, input),
        Ask::Shutdown => {
            input.extend_from_slice(b"\x01\0\0\0\x07")?;
            Ok([7, 0, 0, 0, 0, 0])
        }
        Ask::Open => {
            input.extend_from_slice(OPEN)?;
            Ok([1, 1, 0, 0, 0, 0])
        }
        Ask::OpenAs(conn, process, name) => put_open(conn, process, name, input),
    }
}

/// Puts the frame of a reply behind the output.
pub fn put_reply(
    head: [u8; 6],
    code: u32,
    payload: &[u8],
    output: &mut Vec<u8>,
) -> Result<(), Fail> {
    output.extend_from_slice(&(size_of(payload) + 10).to_le_bytes())?;
    output.extend_from_slice(&head)?;
    output.extend_from_slice(&code.to_le_bytes())?;
    output.extend_from_slice(payload)?;
    Ok(())
}

/// Puts the frame of what is asked behind the input, and the frame of its reply behind the output.
pub fn put_asked(
    ask: Ask,
    code: u32,
    payload: &[u8],
    input: &mut Vec<u8>,
    output: &mut Vec<u8>,
) -> Result<(), Fail> {
    let head = put_event(ask, input)?;
    put_reply(head, code, payload, output)
}

/// The same of a row's exchange.
pub fn put(exchange: &Exchange, input: &mut Vec<u8>, output: &mut Vec<u8>) -> Result<(), Fail> {
    let (ask, result, payload) = *exchange;
    put_asked(ask, result, payload, input, output)
}

/// What the device of endpoint 1 gets, if the row's replies are those that the program writes for it, and it ends with
/// Done.
pub fn device_of(alloc: Global, row: &Row) -> Result<Option<Vec<u8>>, Fail> {
    let (first, exchanges) = *row;
    let mut input = joined(alloc, first)?;
    let mut output = Vec::new(alloc);
    for exchange in exchanges {
        put(exchange, &mut input, &mut output)?;
    }
    let Outcome {
        status,
        output: written,
        device,
    } = replay(alloc, &input, &[], &[], &[])?;
    if status == Status::Done && written.ends_with(&output) {
        return Ok(Some(device));
    }
    Ok(None)
}

/// Whether the row's replies are those that the program writes for it, and it ends with Done.
pub fn holds(alloc: Global, row: &Row) -> Result<bool, Fail> {
    let device = device_of(alloc, row)?;
    Ok(device.is_some())
}
