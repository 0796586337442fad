//! Formats of sound (WAVEFORMATEX and WAVEFORMATEXTENSIBLE of mmreg.h) and their bytes.

ghost use Rattle.std.specs.Prelude.{◌≡◌, ◌+◌, ◌≤◌, true, ◌++◌, length, IsOk, OnOk, OnErr};
ghost use Rattle.ca_base.specs.Rows.{first};
ghost use Rattle.wave_format.specs.Fields.{extension_of, field_bytes};
ghost use Rattle.wave_format.specs.Format.{extensible_spelling, fault_rows, format_at, format_fields};
ghost use Rattle.wave_format.specs.Format.{frames_of_time, has_sample_bits, has_sub_format, is_extensible};
ghost use Rattle.wave_format.specs.Format.{plain_spelling, spelling, tag_of};

use crate::fields::{Fields, long_at, short_at};
use crate::layout::{
    EXTENSIBLE_LENGTH, EXTENSIBLE_TAG, EXTRA_SIZE, MASK_AT, MAX_CHANNELS, PLAIN_LENGTH, PLAIN_TAG,
    RATES, SAMPLE_BITS, SAMPLE_SIZE, SUB_FORMAT, SUB_FORMAT_AT, TAG_AT, UNITS_A_SECOND,
    VALID_BITS_AT,
};
use ca_base::{Bytes, NoMemory};

/// A format of sound: signed samples of 16 bits, little-endian, one a channel in each frame.
#[derive(Clone, Copy, Debug, PartialEq, Eq)]
pub struct Format {
    /// Channels, 1 to 4.
    pub channels: u16,
    /// Frames a second.
    pub rate: u32,
    /// Whether its bytes are a WAVEFORMATEXTENSIBLE.
    pub extensible: bool,
    /// The channel mask, which has no effect; 0 if the format isn't extensible.
    pub mask: u32,
}

/// Why bytes are no format: the number of the first fault, 1 to 9 (this project's own).
#[derive(Clone, Copy, Debug, PartialEq, Eq)]
pub struct FormatFault(pub u8);

/// Whether samples have 16 bits, all of them valid.
fn has_sample_bits(bytes: &[u8], fields: &Fields) -> bool
    requires { is_extensible fields.now ≡ true → EXTENSIBLE_LENGTH ≤ length bytes.now }
    ensures { result ≡ has_sample_bits fields.now (extension_of bytes.now) }
{
    fields.bits == SAMPLE_BITS
        && (!fields.is_extensible() || short_at(bytes, VALID_BITS_AT) == SAMPLE_BITS)
}

/// Whether samples are whole numbers.
fn has_sub_format(bytes: &[u8], fields: &Fields) -> bool
    requires { is_extensible fields.now ≡ true → EXTENSIBLE_LENGTH ≤ length bytes.now }
    ensures { result ≡ has_sub_format fields.now (extension_of bytes.now) }
{
    !fields.is_extensible() || bytes[SUB_FORMAT_AT..] == SUB_FORMAT[..]
}

/// The first fault of these bytes.
fn first_fault(bytes: &[u8]) -> Option<u8>
    ensures { result ≡ first (fault_rows bytes.now) }
{
    if bytes.len() < PLAIN_LENGTH {
        return Some(1);
    }
    let fields = Fields::read(bytes);
    if bytes.len() != fields.whole_length() {
        return Some(2);
    }
    if !fields.is_known() {
        return Some(3);
    }
    if !has_sample_bits(bytes, &fields) {
        return Some(4);
    }
    if fields.channels < 1 || fields.channels > MAX_CHANNELS {
        return Some(5);
    }
    if !RATES.contains(&fields.rate) {
        return Some(6);
    }
    if fields.block_align != fields.channels * SAMPLE_SIZE {
        return Some(7);
    }
    if fields.average != fields.rate * fields.block_align as u32 {
        return Some(8);
    }
    if !has_sub_format(bytes, &fields) {
        return Some(9);
    }
    None
}

/// The format that these bytes spell, or the first fault. `cbSize` is ignored with tag 1 (WAVEFORMATEX).
pub fn read_format(bytes: &[u8]) -> Result<Format, FormatFault>
    ensures { result ≡ format_at bytes.now }
{
    if let Some(fault) = first_fault(bytes) {
        return Err(FormatFault(fault));
    }
    let fields = Fields::read(bytes);
    let extensible = fields.is_extensible();
    let mask = if extensible {
        long_at(bytes, MASK_AT)
    } else {
        0
    };
    Ok(Format {
        channels: fields.channels,
        rate: fields.rate,
        extensible,
        mask,
    })
}

/// The tag of these bytes (WAVEFORMATEX, wFormatTag), if there are two.
pub fn format_tag(bytes: &[u8]) -> Option<u16>
    ensures { result ≡ tag_of bytes.now }
{
    if bytes.len() < 2 {
        return None;
    }
    Some(short_at(bytes, TAG_AT))
}

/// The fields of a format with this tag and this `cbSize`. Of a size that its field can't hold the low bytes are there.
fn fields_of_format(format: &Format, tag: u16, extra: u16) -> Fields
    ensures { field_bytes result ≡ field_bytes (format_fields tag extra format.now) }
{
    let frame_size = format.channels as u32 * SAMPLE_SIZE as u32;
    Fields {
        tag,
        channels: format.channels,
        rate: format.rate,
        average: format.rate.wrapping_mul(frame_size),
        block_align: format.channels.wrapping_mul(SAMPLE_SIZE),
        bits: SAMPLE_BITS,
        extra,
    }
}

/// The bytes of a format that isn't extensible.
fn plain_bytes(format: &Format) -> [u8; PLAIN_LENGTH]
    ensures { result ≡ plain_spelling 0 format.now }
{
    fields_of_format(format, PLAIN_TAG, 0).to_bytes()
}

/// The bytes of a format that is.
fn extensible_bytes(format: &Format) -> [u8; EXTENSIBLE_LENGTH]
    ensures { result ≡ extensible_spelling format.now }
{
    let mut bytes = [0; EXTENSIBLE_LENGTH];
    let fields = fields_of_format(format, EXTENSIBLE_TAG, EXTRA_SIZE);
    bytes[..PLAIN_LENGTH].copy_from_slice(&fields.to_bytes());
    bytes[VALID_BITS_AT..MASK_AT].copy_from_slice(&SAMPLE_BITS.to_le_bytes());
    bytes[MASK_AT..SUB_FORMAT_AT].copy_from_slice(&format.mask.to_le_bytes());
    bytes[SUB_FORMAT_AT..].copy_from_slice(&SUB_FORMAT);
    bytes
}

/// How many bytes a format has: 18, or 40 if it is extensible.
pub fn format_length(f: &Format) -> u16
    ensures length { result ≡ length (spelling f.now) }
    ensures most { result ≤ EXTENSIBLE_LENGTH }
{
    if f.extensible {
        return EXTENSIBLE_LENGTH as u16;
    }
    PLAIN_LENGTH as u16
}

/// Adds the bytes of a format. It asks for memory only if they exceed the capacity, and `NoMemory` leaves the bytes as
/// they were.
pub fn write_format(f: &Format, out: &mut Bytes) -> Result<(), NoMemory>
    ensures ok { OnOk result (out.new.list ≡ out.old.list ++ spelling f.now) }
    ensures keeps { out.old.capacity ≤ out.new.capacity }
    ensures fits { length out.old.list + length (spelling f.now) ≤ out.old.capacity → IsOk result }
    ensures err { OnErr result (out.new.list ≡ out.old.list) }
{
    if f.extensible {
        return out.append(&extensible_bytes(f));
    }
    out.append(&plain_bytes(f))
}

/// How many frames last a time in units of 100 ns, rounded up.
pub fn frames_of(rate: u32, t: u64) -> u128
    ensures { result ≡ frames_of_time rate t }
{
    (rate as u128 * t as u128 + (UNITS_A_SECOND as u128 - 1)) / UNITS_A_SECOND as u128
}
