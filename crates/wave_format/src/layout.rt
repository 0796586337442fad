//! WAVEFORMATEX and WAVEFORMATEXTENSIBLE (mmreg.h): where their fields are, and which values the service takes.

/// The tag of plain samples (WAVE_FORMAT_PCM).
pub const PLAIN_TAG: u16 = 1;

/// The tag of a format that says more (WAVE_FORMAT_EXTENSIBLE).
pub const EXTENSIBLE_TAG: u16 = 0xfffe;

/// The bytes of a WAVEFORMATEX.
pub const PLAIN_LENGTH: usize = 18;

/// The bytes that a WAVEFORMATEXTENSIBLE adds, which its `cbSize` says.
pub const EXTRA_SIZE: u16 = 22;

/// The bytes of a WAVEFORMATEXTENSIBLE.
pub const EXTENSIBLE_LENGTH: usize = 40;

/// The bits of a sample: samples are signed, and the engine mixes whole numbers of this size.
pub const SAMPLE_BITS: u16 = 16;

/// The bytes of a sample.
pub const SAMPLE_SIZE: u16 = 2;

/// The most channels: a frame fits in a word of 64 bits.
pub const MAX_CHANNELS: u16 = 4;

/// The rates that the service takes, in frames a second (this project's own).
pub const RATES: [u32; 6] = [8000, 16000, 32000, 44100, 48000, 96000];

/// Samples are whole numbers (KSDATAFORMAT_SUBTYPE_PCM), as the bytes of a GUID in memory.
pub const SUB_FORMAT: [u8; 16] = [
    0x01, 0x00, 0x00, 0x00, 0x00, 0x00, 0x10, 0x00, 0x80, 0x00, 0x00, 0xaa, 0x00, 0x38, 0x9b, 0x71,
];

/// Units of time (100 ns, REFERENCE_TIME) in a second.
pub const UNITS_A_SECOND: u64 = 10_000_000;

// the places of the fields, in bytes from the front

pub const TAG_AT: usize = 0;

pub const CHANNELS_AT: usize = 2;

pub const RATE_AT: usize = 4;

pub const AVERAGE_AT: usize = 8;

pub const BLOCK_ALIGN_AT: usize = 12;

pub const BITS_AT: usize = 14;

pub const EXTRA_AT: usize = 16;

pub const VALID_BITS_AT: usize = 18;

pub const MASK_AT: usize = 20;

pub const SUB_FORMAT_AT: usize = 24;
