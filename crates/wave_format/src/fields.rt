//! The fields of a WAVEFORMATEX (mmreg.h) and their bytes.

ghost use Rattle.std.specs.Prelude.{◌≡◌, ◌+◌, ◌≤◌, length};
ghost use Rattle.wave_format.specs.Fields.{field, field_bytes, fields_of};
ghost use Rattle.wave_format.specs.Format.{is_extensible, is_known, whole_length};

use crate::layout::{
    AVERAGE_AT, BITS_AT, BLOCK_ALIGN_AT, CHANNELS_AT, EXTENSIBLE_TAG, EXTRA_AT, EXTRA_SIZE,
    PLAIN_LENGTH, PLAIN_TAG, RATE_AT, TAG_AT,
};

/// A WAVEFORMATEX, field by field.
#[derive(Clone, Copy)]
pub struct Fields {
    pub tag: u16,
    pub channels: u16,
    /// Frames a second.
    pub rate: u32,
    /// Bytes a second.
    pub average: u32,
    /// Bytes a frame.
    pub block_align: u16,
    /// Bits a sample.
    pub bits: u16,
    /// `cbSize`: the bytes that follow these fields.
    pub extra: u16,
}

/// The 16-bit number at a place.
pub fn short_at(bytes: &[u8], place: usize) -> u16
    requires { place + 2 ≤ length bytes.now }
    ensures { result ≡ field place 2 bytes.now }
{
    u16::from_le_bytes([bytes[place], bytes[place + 1]])
}

/// The 32-bit number at a place.
pub fn long_at(bytes: &[u8], place: usize) -> u32
    requires { place + 4 ≤ length bytes.now }
    ensures { result ≡ field place 4 bytes.now }
{
    u32::from_le_bytes([
        bytes[place],
        bytes[place + 1],
        bytes[place + 2],
        bytes[place + 3],
    ])
}

impl Fields {
    /// The fields at the front of these bytes.
    pub fn read(bytes: &[u8]) -> Fields
        requires { PLAIN_LENGTH ≤ length bytes.now }
        ensures { result ≡ fields_of bytes.now }
    {
        Fields {
            tag: short_at(bytes, TAG_AT),
            channels: short_at(bytes, CHANNELS_AT),
            rate: long_at(bytes, RATE_AT),
            average: long_at(bytes, AVERAGE_AT),
            block_align: short_at(bytes, BLOCK_ALIGN_AT),
            bits: short_at(bytes, BITS_AT),
            extra: short_at(bytes, EXTRA_AT),
        }
    }

    /// The bytes of these fields, one after another.
    pub fn to_bytes(self) -> [u8; PLAIN_LENGTH]
        ensures { result ≡ field_bytes self }
    {
        let [t0, t1] = self.tag.to_le_bytes();
        let [c0, c1] = self.channels.to_le_bytes();
        let [r0, r1, r2, r3] = self.rate.to_le_bytes();
        let [a0, a1, a2, a3] = self.average.to_le_bytes();
        let [l0, l1] = self.block_align.to_le_bytes();
        let [b0, b1] = self.bits.to_le_bytes();
        let [e0, e1] = self.extra.to_le_bytes();
        [
            t0, t1, c0, c1, r0, r1, r2, r3, a0, a1, a2, a3, l0, l1, b0, b1, e0, e1,
        ]
    }

    /// Whether these are the fields of a WAVEFORMATEXTENSIBLE.
    pub fn is_extensible(self) -> bool
        ensures { result ≡ is_extensible self }
    {
        self.tag == EXTENSIBLE_TAG
    }

    /// How many bytes a format with these fields has. `cbSize` is ignored with tag 1 (WAVEFORMATEX).
    pub fn whole_length(self) -> usize
        ensures { result ≡ whole_length self }
    {
        if self.tag == PLAIN_TAG {
            PLAIN_LENGTH
        } else {
            PLAIN_LENGTH + self.extra as usize
        }
    }

    /// Whether the service takes formats with this tag and this `cbSize`.
    pub fn is_known(self) -> bool
        ensures { result ≡ is_known self }
    {
        self.tag == PLAIN_TAG || self.is_extensible() && self.extra == EXTRA_SIZE
    }
}
