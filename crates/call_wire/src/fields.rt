//! Fields at the front of some bytes: each reader gives the field and the bytes after it.

ghost use Rattle.std.specs.Prelude.{◌≡◌, ◌≤◌, [], length, IfOk};
ghost use Rattle.std.specs.Int.{w16, w32, w64, w128, from_le_bytes, from_be_bytes};
ghost use Rattle.call_wire.specs.Reading.{number_at, byte_at, bytes_at, connection_at, counted_at, read_fields};
ghost use Rattle.call_wire.specs.Readers.{Gives};

use crate::fault::NoField;
use ca_base::limits::{CONNECTIONS, MAX_FORMAT, MAX_TEXT};
use ca_base::{ConnNo, Guid};

/// `N` bytes.
#[tactic(auto, unfolding(crate::specs::Reading::bytes_at))]
fn take_array<const N: usize>(input: &[u8]) -> Result<(&[u8; N], &[u8]), NoField>
    ensures { Gives (λ x. (x.0.now, x.1.now)) result (bytes_at N input.now) }
{
    input.split_first_chunk::<N>().ok_or(NoField)
}

/// One byte.
#[tactic(auto, unfolding(crate::specs::Reading::byte_at))]
pub fn take_u8(input: &[u8]) -> Result<(u8, &[u8]), NoField>
    ensures { Gives (λ x. (x.0, x.1.now)) result (byte_at input.now) }
{
    match input {
        [] => Err(NoField),
        [number, rest @ ..] => Ok((*number, rest)),
    }
}

/// A number of two bytes, little-endian.
#[tactic(auto, unfolding(crate::specs::Reading::number_at))]
fn take_u16(input: &[u8]) -> Result<(u16, &[u8]), NoField>
    ensures { Gives (λ x. (x.0, x.1.now)) result (number_at 2 (from_le_bytes w16) input.now) }
{
    let (bytes, rest) = take_array(input)?;
    Ok((u16::from_le_bytes(*bytes), rest))
}

/// A number of four bytes, little-endian.
#[tactic(auto, unfolding(crate::specs::Reading::number_at))]
pub fn take_u32(input: &[u8]) -> Result<(u32, &[u8]), NoField>
    ensures { Gives (λ x. (x.0, x.1.now)) result (number_at 4 (from_le_bytes w32) input.now) }
{
    let (bytes, rest) = take_array(input)?;
    Ok((u32::from_le_bytes(*bytes), rest))
}

/// A number of eight bytes, little-endian.
#[tactic(auto, unfolding(crate::specs::Reading::number_at))]
pub fn take_u64(input: &[u8]) -> Result<(u64, &[u8]), NoField>
    ensures { Gives (λ x. (x.0, x.1.now)) result (number_at 8 (from_le_bytes w64) input.now) }
{
    let (bytes, rest) = take_array(input)?;
    Ok((u64::from_le_bytes(*bytes), rest))
}

/// A GUID, its 16 bytes in the order of RFC 9562.
#[tactic(auto, unfolding(crate::specs::Reading::number_at))]
pub fn take_guid(input: &[u8]) -> Result<(Guid, &[u8]), NoField>
    ensures { Gives (λ x. (x.0.0, x.1.now)) result (number_at 16 (from_be_bytes w128) input.now) }
{
    let (bytes, rest) = take_array(input)?;
    Ok((Guid(u128::from_be_bytes(*bytes)), rest))
}

/// A connection's number, from 1 to `CONNECTIONS`.
#[tactic(auto, unfolding(crate::specs::Reading::connection_at))]
pub fn take_connection(input: &[u8]) -> Result<(ConnNo, &[u8]), NoField>
    ensures { Gives (λ x. (x.0.0, x.1.now)) result (connection_at input.now) }
{
    let (number, rest) = take_u8(input)?;
    if number == 0 || number > CONNECTIONS {
        return Err(NoField);
    }
    Ok((ConnNo(number), rest))
}

/// `count` bytes.
#[tactic(auto, unfolding(crate::specs::Reading::bytes_at))]
fn take_bytes(count: usize, input: &[u8]) -> Result<(&[u8], &[u8]), NoField>
    ensures gives { Gives (λ x. (x.0.now, x.1.now)) result (bytes_at count input.now) }
    ensures count { IfOk result (λ x. length x.0.now ≡ count) }
{
    if input.len() < count {
        return Err(NoField);
    }
    Ok(input.split_at(count))
}

/// A count of two bytes, at most `limit`, and as many bytes.
#[tactic(auto, unfolding(crate::specs::Reading::counted_at))]
fn take_counted(limit: usize, input: &[u8]) -> Result<(&[u8], &[u8]), NoField>
    ensures gives { Gives (λ x. (x.0.now, x.1.now)) result (counted_at limit input.now) }
    ensures within { IfOk result (λ x. length x.0.now ≤ limit) }
{
    let (count, rest) = take_u16(input)?;
    let count = usize::from(count);
    if count > limit {
        return Err(NoField);
    }
    take_bytes(count, rest)
}

/// The bytes of a text, at most `MAX_TEXT`.
pub fn take_text(input: &[u8]) -> Result<(&[u8], &[u8]), NoField>
    ensures gives { Gives (λ x. (x.0.now, x.1.now)) result (counted_at MAX_TEXT input.now) }
    ensures within { IfOk result (λ x. length x.0.now ≤ MAX_TEXT) }
{
    take_counted(MAX_TEXT, input)
}

/// The bytes of a format.
pub fn take_format(input: &[u8]) -> Result<(&[u8], &[u8]), NoField>
    ensures { Gives (λ x. (x.0.now, x.1.now)) result (counted_at MAX_FORMAT input.now) }
{
    take_counted(MAX_FORMAT, input)
}

/// No bytes are left.
pub fn expect_end(input: &[u8]) -> Result<(), NoField>
    ensures { Gives (λ _. []) result (read_fields [] input.now) }
{
    if !input.is_empty() {
        return Err(NoField);
    }
    Ok(())
}
