//! Rows of what the device gets, byte for byte, of what clients release, each worked out by hand.

use crate::endpoint_rows::STARTED;
use crate::exchanges::{Ask, Row, device_of};
use crate::rows::{ACTIVATE_1, GET_1, GET_7, GET_480, NO_PADDING, ONE, PLAYED_480, S_OK, TWO};
use crate::session_rows::E_NOTFOUND;
use ca_base::values::BUFFER_SILENT;
use std::alloc::Global;
use std::test::Fail;

/// So many frames, each of them this one: the left sample and the right one.
pub type Frames = (u16, [u8; 4]);

pub const SILENCE: [u8; 4] = [0; 4];

/// 1,000 and -1,000; 30,000 and -30,000; and the other way round.
pub const LOUD: [u8; 4] = *b"\xe8\x03\x18\xfc";

pub const LOUDER: [u8; 4] = *b"\x30\x75\xd0\x8a";

const OPPOSITE: [u8; 4] = *b"\xd0\x8a\x30\x75";

/// GetBuffer of 100 frames of client 1, and of one frame of clients 2 and 3; client 3.
const GET_100: &[u8] = b"\x01\0\0\0\0\0\0\0\x64\0\0\0";

pub const GET_1_OF_2: &[u8] = b"\x02\0\0\0\0\0\0\0\x01\0\0\0";

pub const GET_1_OF_3: &[u8] = b"\x03\0\0\0\0\0\0\0\x01\0\0\0";

pub const THREE: &[u8] = b"\x03\0\0\0\0\0\0\0";

/// GetPosition at 48,000 Hz: 100 and 480 frames were rendered.
const POSITION_100: &[u8] = b"\x64\0\0\0\0\0\0\0\x80\xbb\0\0\0\0\0\0";

const POSITION_480: &[u8] = b"\xe0\x01\0\0\0\0\0\0\x80\xbb\0\0\0\0\0\0";

/// A row, and all that the device of endpoint 1 gets.
pub type Heard = (Row, &'static [Frames]);

/// What is missing is silence; what is released as silence is silent, whatever the data are; a hang-up drops 7 frames
/// of a stream that runs, and its session.
const ONE_STREAM: &[Heard] = &[
    (
        (
            STARTED,
            &[
                (Ask::Call(32, GET_100), S_OK, b""),
                (Ask::Frames(1, 100, 0, LOUD), S_OK, b""),
                (Ask::Call(23, ONE), S_OK, b""),
                (Ask::Period, S_OK, PLAYED_480),
                (Ask::Call(19, ONE), S_OK, NO_PADDING),
                (Ask::Call(28, ONE), S_OK, POSITION_100),
            ],
        ),
        &[(100, LOUD), (380, SILENCE)],
    ),
    (
        (
            STARTED,
            &[
                (Ask::Call(32, GET_480), S_OK, b""),
                (Ask::Frames(1, 480, BUFFER_SILENT, LOUD), S_OK, b""),
                (Ask::Call(23, ONE), S_OK, b""),
                (Ask::Period, S_OK, PLAYED_480),
                (Ask::Call(28, ONE), S_OK, POSITION_480),
            ],
        ),
        &[(480, SILENCE)],
    ),
    (
        (
            STARTED,
            &[
                (Ask::Call(32, GET_7), S_OK, b""),
                (Ask::Frames(1, 7, 0, LOUD), S_OK, b""),
                (Ask::Call(23, ONE), S_OK, b""),
                (Ask::Hangup, S_OK, b""),
                (Ask::Open, S_OK, b""),
                (Ask::Call(49, ONE), E_NOTFOUND, b""),
                (Ask::Period, S_OK, PLAYED_480),
            ],
        ),
        &[(480, SILENCE)],
    ),
];

/// Frames of several clients at one place are added, and only the whole sum is clamped: (30,000, 1) and (30,000, -1) of
/// one session; (30,000, -30,000) of each of two sessions; and besides these its opposite, of a third session.
const MIXED: &[Heard] = &[
    (
        (
            STARTED,
            &[
                (Ask::Call(5, ACTIVATE_1), S_OK, TWO),
                (Ask::Initialize(1, 2, 0, 0), S_OK, ONE),
                (Ask::Call(32, GET_1), S_OK, b""),
                (Ask::Frames(1, 1, 0, *b"\x30\x75\x01\0"), S_OK, b""),
                (Ask::Call(32, GET_1_OF_2), S_OK, b""),
                (Ask::Frames(2, 1, 0, *b"\x30\x75\xff\xff"), S_OK, b""),
                (Ask::Call(23, ONE), S_OK, b""),
                (Ask::Call(23, TWO), S_OK, b""),
                (Ask::Period, S_OK, PLAYED_480),
            ],
        ),
        &[(1, *b"\xff\x7f\0\0"), (479, SILENCE)],
    ),
    (
        (
            STARTED,
            &[
                (Ask::Call(5, ACTIVATE_1), S_OK, TWO),
                (Ask::Initialize(1, 2, 0, 2), S_OK, TWO),
                (Ask::Call(32, GET_1), S_OK, b""),
                (Ask::Frames(1, 1, 0, LOUDER), S_OK, b""),
                (Ask::Call(32, GET_1_OF_2), S_OK, b""),
                (Ask::Frames(2, 1, 0, LOUDER), S_OK, b""),
                (Ask::Call(23, ONE), S_OK, b""),
                (Ask::Call(23, TWO), S_OK, b""),
                (Ask::Period, S_OK, PLAYED_480),
            ],
        ),
        &[(1, *b"\xff\x7f\0\x80"), (479, SILENCE)],
    ),
    (
        (
            STARTED,
            &[
                (Ask::Call(5, ACTIVATE_1), S_OK, TWO),
                (Ask::Initialize(1, 2, 0, 2), S_OK, TWO),
                (Ask::Call(5, ACTIVATE_1), S_OK, THREE),
                (Ask::Initialize(1, 3, 0, 3), S_OK, THREE),
                (Ask::Call(32, GET_1), S_OK, b""),
                (Ask::Frames(1, 1, 0, LOUDER), S_OK, b""),
                (Ask::Call(32, GET_1_OF_2), S_OK, b""),
                (Ask::Frames(2, 1, 0, LOUDER), S_OK, b""),
                (Ask::Call(32, GET_1_OF_3), S_OK, b""),
                (Ask::Frames(3, 1, 0, OPPOSITE), S_OK, b""),
                (Ask::Call(23, ONE), S_OK, b""),
                (Ask::Call(23, TWO), S_OK, b""),
                (Ask::Call(23, THREE), S_OK, b""),
                (Ask::Period, S_OK, PLAYED_480),
            ],
        ),
        &[(1, LOUDER), (479, SILENCE)],
    ),
];

/// The bytes of these frames.
pub fn bytes_of(alloc: Global, frames: &[Frames]) -> Result<Vec<u8>, Fail> {
    let mut bytes = Vec::new(alloc);
    for (count, frame) in frames {
        for _ in 0..*count {
            bytes.extend_from_slice(frame)?;
        }
    }
    Ok(bytes)
}

/// Whether the row has its replies, and the device of endpoint 1 gets these frames and nothing more.
pub fn is_heard(alloc: Global, heard: &Heard) -> Result<bool, Fail> {
    let (row, frames) = *heard;
    let bytes = bytes_of(alloc, frames)?;
    match device_of(alloc, &row)? {
        Some(device) => Ok(device.as_slice() == bytes.as_slice()),
        None => Ok(false),
    }
}

#[test]
fn each_row_is_heard(rt: HostRuntime) -> Result<(), Fail> {
    let alloc = rt.alloc();
    for rows in [ONE_STREAM, MIXED] {
        for heard in rows {
            assert!(rt; is_heard(alloc, heard)?);
        }
    }
    Ok(())
}
