//! What is refused of formats and openings while a stream plays, which plays on as if it had not been asked. All of it
//! is worked out by hand.

use crate::exchanges::MIX_FORMAT;
use crate::player::{LEASED, Playing};
use crate::rows::{ONE, S_FALSE, TWO, UNSUPPORTED_FORMAT};
use crate::session_rows::E_INVALIDARG;
use crate::tests::joined;
use std::alloc::Global;
use std::test::Fail;

/// Share, flags, duration and period of Initialize: those of a shared stream, and those that there aren't.
type Settings = (u32, u32, u64, u64);

const SHARED: Settings = (0, 0, 0, 0);

const NO_SETTINGS: [Settings; 10] = [
    (2, 0, 0, 0),
    (u32::MAX, 0, 0, 0),
    (0, 1, 0, 0),
    (0, 0x8000, 0, 0),
    (0, 0x0011_0000, 0, 0),
    (0, 0x8000_0000, 0, 0),
    (0, 0, 0x8000_0000_0000_0000, 0),
    (0, 0, u64::MAX, 0),
    (0, 0, 0, 0x8000_0000_0000_0000),
    (0, 0, 0, u64::MAX),
];

/// The bytes of a format: the first 18, and what follows.
type Format = (&'static [u8], &'static [u8]);

/// 48,000 Hz with two channels: as WAVEFORMATEX, and as the first bytes of WAVEFORMATEXTENSIBLE.
const PCM: &[u8] = b"\x01\0\x02\0\x80\xbb\0\0\0\xee\x02\0\x04\0\x10\0\0\0";

const EXTENSIBLE: &[u8] = b"\xfe\xff\x02\0\x80\xbb\0\0\0\xee\x02\0\x04\0\x10\0\x16\0";

/// Fewer bytes than 18, or another number than the tag and cbSize say.
const MALFORMED: &[Format] = &[
    (b"", b""),
    (b"\x01\0", b""),
    (b"\x01\0\x02\0\x80\xbb\0\0\0\xee\x02\0\x04\0\x10\0\0", b""),
    (PCM, b"\0"),
    (EXTENSIBLE, b""),
    (
        EXTENSIBLE,
        b"\x10\0\x03\0\0\0\x01\0\0\0\0\0\x10\0\x80\0\0\xaa\0\x38\x9b",
    ),
    (
        EXTENSIBLE,
        b"\x10\0\x03\0\0\0\x01\0\0\0\0\0\x10\0\x80\0\0\xaa\0\x38\x9b\x71\0",
    ),
    (
        b"\x03\0\x02\0\x80\xbb\0\0\0\xee\x02\0\x04\0\x10\0\x02\0",
        b"",
    ),
];

/// Faults, three by three: of the tag and of cbSize; of the bits and of the valid bits; of the channels; of the rate;
/// of the bytes a frame; of the bytes a second; of the sub-format. Then formats without a fault that don't match.
const FAULTY: &[Format] = &[
    (b"\x03\0\x02\0\x80\xbb\0\0\0\xee\x02\0\x04\0\x10\0\0\0", b""),
    (b"\0\0\x02\0\x80\xbb\0\0\0\xee\x02\0\x04\0\x10\0\0\0", b""),
    (
        b"\xfe\xff\x02\0\x80\xbb\0\0\0\xee\x02\0\x04\0\x10\0\x02\0",
        b"\x10\0",
    ),
    (b"\x01\0\x02\0\x80\xbb\0\0\0\xee\x02\0\x04\0\x08\0\0\0", b""),
    (b"\x01\0\x02\0\x80\xbb\0\0\0\xee\x02\0\x04\0\x18\0\0\0", b""),
    (
        EXTENSIBLE,
        b"\x0f\0\x03\0\0\0\x01\0\0\0\0\0\x10\0\x80\0\0\xaa\0\x38\x9b\x71",
    ),
    (b"\x01\0\0\0\x80\xbb\0\0\0\0\0\0\0\0\x10\0\0\0", b""),
    (b"\x01\0\x05\0\x80\xbb\0\0\0\x53\x07\0\x0a\0\x10\0\0\0", b""),
    (
        b"\x01\0\xff\xff\x80\xbb\0\0\0\xee\x02\0\x04\0\x10\0\0\0",
        b"",
    ),
    (b"\x01\0\x02\0\0\0\0\0\0\0\0\0\x04\0\x10\0\0\0", b""),
    (
        b"\x01\0\x02\0\x22\x56\0\0\x88\x58\x01\0\x04\0\x10\0\0\0",
        b"",
    ),
    (
        b"\x01\0\x02\0\x81\xbb\0\0\x04\xee\x02\0\x04\0\x10\0\0\0",
        b"",
    ),
    (b"\x01\0\x02\0\x80\xbb\0\0\0\0\0\0\0\0\x10\0\0\0", b""),
    (b"\x01\0\x02\0\x80\xbb\0\0\0\x77\x01\0\x02\0\x10\0\0\0", b""),
    (b"\x01\0\x02\0\x80\xbb\0\0\0\xdc\x05\0\x08\0\x10\0\0\0", b""),
    (b"\x01\0\x02\0\x80\xbb\0\0\0\0\0\0\x04\0\x10\0\0\0", b""),
    (
        b"\x01\0\x02\0\x80\xbb\0\0\x01\xee\x02\0\x04\0\x10\0\0\0",
        b"",
    ),
    (b"\x01\0\x02\0\x80\xbb\0\0\x80\xbb\0\0\x04\0\x10\0\0\0", b""),
    (
        EXTENSIBLE,
        b"\x10\0\x03\0\0\0\x03\0\0\0\0\0\x10\0\x80\0\0\xaa\0\x38\x9b\x71",
    ),
    (
        EXTENSIBLE,
        b"\x10\0\x03\0\0\0\x01\0\0\0\0\0\x10\0\x80\0\0\xaa\0\x38\x9b\x70",
    ),
    (EXTENSIBLE, &[0; 22]),
    (b"\x01\0\x01\0\x80\xbb\0\0\0\x77\x01\0\x02\0\x10\0\0\0", b""),
    (
        b"\x01\0\x02\0\x44\xac\0\0\x10\xb1\x02\0\x04\0\x10\0\0\0",
        b"",
    ),
];

/// Puts a format behind its two bytes of length.
fn put_format(format: &[u8], fields: &mut Vec<u8>) -> Result<(), Fail> {
    let size = format.len().min(65_535) as u16;
    fields.extend_from_slice(&size.to_le_bytes())?;
    fields.extend_from_slice(format)?;
    Ok(())
}

/// The fields of Initialize after the client, with the null GUID.
fn opening(alloc: Global, settings: &Settings, format: &[u8]) -> Result<Vec<u8>, Fail> {
    let (share, flags, duration, period) = *settings;
    let mut fields = Vec::new(alloc);
    fields.extend_from_slice(&share.to_le_bytes())?;
    fields.extend_from_slice(&flags.to_le_bytes())?;
    fields.extend_from_slice(&duration.to_le_bytes())?;
    fields.extend_from_slice(&period.to_le_bytes())?;
    put_format(format, &mut fields)?;
    fields.extend_from_slice(&[0; 16])?;
    Ok(fields)
}

/// The fields of IsFormatSupported after the client.
fn question(alloc: Global, share: u32, format: &[u8]) -> Result<Vec<u8>, Fail> {
    let mut fields = Vec::new(alloc);
    fields.extend_from_slice(&share.to_le_bytes())?;
    put_format(format, &mut fields)?;
    Ok(fields)
}

#[test]
fn wrong_settings_leave_no_trace(rt: HostRuntime) -> Result<(), Fail> {
    let alloc = rt.alloc();
    let playing = Playing::new(alloc, LEASED)?;
    for settings in &NO_SETTINGS {
        let fields = opening(alloc, settings, PCM)?;
        assert!(rt; playing.refuses(alloc, 1, 16, &[TWO, &fields], E_INVALIDARG)?);
    }
    for share in [2, u32::MAX] {
        let fields = question(alloc, share, PCM)?;
        assert!(rt; playing.refuses(alloc, 1, 20, &[ONE, &fields], E_INVALIDARG)?);
    }
    let fields = opening(alloc, &SHARED, PCM)?;
    assert!(rt; playing.refuses_strangers(alloc, 16, &fields)?);
    Ok(())
}

#[test]
fn wrong_formats_leave_no_trace(rt: HostRuntime) -> Result<(), Fail> {
    let alloc = rt.alloc();
    let playing = Playing::new(alloc, LEASED)?;
    for (first, rest) in MALFORMED {
        let format = joined(alloc, &[first, rest])?;
        let fields = opening(alloc, &SHARED, &format)?;
        assert!(rt; playing.refuses(alloc, 1, 16, &[TWO, &fields], E_INVALIDARG)?);
        let fields = question(alloc, 0, &format)?;
        assert!(rt; playing.refuses(alloc, 1, 20, &[ONE, &fields], E_INVALIDARG)?);
    }
    for (first, rest) in FAULTY {
        let format = joined(alloc, &[first, rest])?;
        let fields = opening(alloc, &SHARED, &format)?;
        assert!(rt; playing.refuses(alloc, 1, 16, &[TWO, &fields], UNSUPPORTED_FORMAT)?);
        let fields = question(alloc, 0, &format)?;
        assert!(rt; playing.replies(alloc, 1, 20, &[ONE, &fields], S_FALSE, MIX_FORMAT)?);
    }
    Ok(())
}
