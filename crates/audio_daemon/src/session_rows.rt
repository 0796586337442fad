//! Rows of calls on sessions and levels, each worked out by hand, and what is heard of them.

use crate::exchanges::{Ask, Exchange, Row, holds, put, put_opening};
use crate::rows::{E_HANDLE, GET_1, NO_PADDING, ONE, PLAYED_480, S_OK, TWO};
use crate::run::Status;
use crate::tests::{ACTIVATE, ADD, INITIALIZE, OPEN, joined, replay};
use ca_base::values::STREAM_CROSSPROCESS;
use std::alloc::Global;
use std::test::Fail;

pub const E_INVALIDARG: u32 = 0x8007_0057;

pub const E_NOTFOUND: u32 = 0x8007_0490;

const SESSIONS_FULL: u32 = 0xa004_0003;

/// Open: connection 2, process 11, `game`; and its Activate on endpoint 1, which makes client 2.
pub const OPEN_2: &[u8] = b"\x0c\0\0\0\x01\x02\x0b\0\0\0\x04\0\x67\x61\x6d\x65";

pub const ACTIVATE_2: &[u8] = b"\x0c\0\0\0\x03\x02\x01\0\0\0\x05\x01\0\0\0\0";

/// SetMaster of session 1: half, all, and more than that; of session 2.
const HALF: &[u8] = b"\x01\0\0\0\0\0\0\0\0\x80\0\0\0\0\0\0\0\0\0\0\0\0\0\0\0\0\0\0";

pub const FULL: &[u8] = b"\x01\0\0\0\0\0\0\0\0\0\x01\0\0\0\0\0\0\0\0\0\0\0\0\0\0\0\0\0";

const OVER: &[u8] = b"\x01\0\0\0\0\0\0\0\x01\0\x01\0\0\0\0\0\0\0\0\0\0\0\0\0\0\0\0\0";

const HALF_OF_2: &[u8] = b"\x02\0\0\0\0\0\0\0\0\x80\0\0\0\0\0\0\0\0\0\0\0\0\0\0\0\0\0\0";

/// SetMute of session 1: muted, and a mute that there isn't.
pub const MUTED: &[u8] = b"\x01\0\0\0\0\0\0\0\x01\0\0\0\0\0\0\0\0\0\0\0\0\0\0\0\0";

const MUTED_TWICE: &[u8] = b"\x01\0\0\0\0\0\0\0\x02\0\0\0\0\0\0\0\0\0\0\0\0\0\0\0\0";

/// SetChannel of session 1: half of channel 0; a channel that there isn't.
const LEFT_HALF: &[u8] = b"\x01\0\0\0\0\0\0\0\0\0\0\0\0\x80\0\0\0\0\0\0\0\0\0\0\0\0\0\0\0\0\0\0";

const THIRD: &[u8] = b"\x01\0\0\0\0\0\0\0\x02\0\0\0\0\0\0\0\0\0\0\0\0\0\0\0\0\0\0\0\0\0\0\0";

/// SetStreamLevel of client 1: nothing of channel 1; a channel that there isn't. And GetStreamLevel of channel 1.
const RIGHT_OFF: &[u8] = b"\x01\0\0\0\0\0\0\0\x01\0\0\0\0\0\0\0";

const NO_CHANNEL: &[u8] = b"\x01\0\0\0\0\0\0\0\x02\0\0\0\0\0\0\0";

pub const RIGHT: &[u8] = b"\x01\0\0\0\0\0\0\0\x01\0\0\0";

/// SetDisplayName of session 1: `Music`, and bytes that aren't UTF-8.
const MUSIC: &[u8] =
    b"\x01\0\0\0\0\0\0\0\0\0\0\0\0\0\0\0\0\0\0\0\0\0\0\0\x05\0\x4d\x75\x73\x69\x63";

const NO_TEXT: &[u8] = b"\x01\0\0\0\0\0\0\0\0\0\0\0\0\0\0\0\0\0\0\0\0\0\0\0\x01\0\xff";

/// GetPosition of one frame that was rendered, at 48,000 Hz.
const POSITION_1: &[u8] = b"\x01\0\0\0\0\0\0\0\x80\xbb\0\0\0\0\0\0";

/// EnumSessions of endpoints 1 and 2.
pub const ENDPOINT: &[u8] = b"\x01\0\0\0";

const NO_ENDPOINT: &[u8] = b"\x02\0\0\0";

/// The data of session 1: as it is made; active, muted, at half, with the name `Music`; the same, but inactive.
pub const NEW: &[u8] =
    b"\x01\0\0\0\x0a\0\0\0\0\0\0\x01\0\0\x02\0\0\0\0\0\x01\0\0\0\x01\0\0\0\x01\0\0\0\0\0\0\0\0\0\0\0\0\0\0\0\0\
      \0\06\0endpoint-1|player|00000000-0000-0000-0000-0000000000009\0endpoint-1|player|00000000-0000-0000-0000\
      -000000000000|10\0\0\0\0";

const CHANGED: &[u8] =
    b"\x01\0\0\0\x0a\0\0\0\x01\0\x80\0\0\x01\x02\0\0\0\0\0\x01\0\0\0\x01\0\0\0\x01\0\0\0\0\0\0\0\0\0\0\0\0\0\0\
      \0\0\0\06\0endpoint-1|player|00000000-0000-0000-0000-0000000000009\0endpoint-1|player|00000000-0000-0000-\
      0000-000000000000|10\x05\0Music\0\0";

const STOPPED: &[u8] =
    b"\x01\0\0\0\x0a\0\0\0\0\0\x80\0\0\x01\x02\0\0\0\0\0\x01\0\0\0\x01\0\0\0\x01\0\0\0\0\0\0\0\0\0\0\0\0\0\0\0\
      \0\0\06\0endpoint-1|player|00000000-0000-0000-0000-0000000000009\0endpoint-1|player|00000000-0000-0000-00\
      00-000000000000|10\x05\0Music\0\0";

/// The data of session 1 of all processes, whose GUID has the bytes `ab`: of process 0, and with the name `*`.
const CROSS: &[u8] =
    b"\x01\0\0\0\0\0\0\0\0\0\0\x01\0\0\x02\0\0\0\0\0\x01\0\0\0\x01\0\0\0\x01\0\0\0\0\0\0\0\0\0\0\0\0\0\0\0\0\0\
      \01\0endpoint-1|*|abababab-abab-abab-abab-abababababab3\0endpoint-1|*|abababab-abab-abab-abab-abababababa\
      b|0\0\0\0\0";

/// An endpoint and client 1 of connection 1; with its stream; and with client 2 of connection 2.
const STARTED: &[&[u8]] = &[ADD, OPEN, ACTIVATE, INITIALIZE];

const TWO_CLIENTS: &[&[u8]] = &[ADD, OPEN, OPEN_2, ACTIVATE, ACTIVATE_2];

const SESSIONS: &[Row] = &[
    (
        STARTED,
        &[
            (Ask::Call(49, ONE), S_OK, NEW),
            (Ask::Call(50, FULL), S_OK, b""),
            (Ask::Call(50, OVER), E_INVALIDARG, b""),
            (Ask::Call(51, MUTED_TWICE), E_INVALIDARG, b""),
            (Ask::Call(52, THIRD), E_INVALIDARG, b""),
            (Ask::Call(53, NO_TEXT), E_INVALIDARG, b""),
            (Ask::Call(50, HALF_OF_2), E_NOTFOUND, b""),
            (Ask::Call(49, ONE), S_OK, NEW),
            (Ask::Call(50, HALF), S_OK, b""),
            (Ask::Call(51, MUTED), S_OK, b""),
            (Ask::Call(53, MUSIC), S_OK, b""),
            (Ask::Call(23, ONE), S_OK, b""),
            (Ask::Call(49, ONE), S_OK, CHANGED),
            (Ask::Call(24, ONE), S_OK, b""),
            (Ask::Call(49, ONE), S_OK, STOPPED),
            (Ask::Call(6, ONE), S_OK, b""),
            (Ask::Call(49, ONE), E_NOTFOUND, b""),
        ],
    ),
    (
        STARTED,
        &[
            (Ask::Call(30, RIGHT_OFF), S_OK, b""),
            (Ask::Call(30, NO_CHANNEL), E_INVALIDARG, b""),
            (Ask::Call(29, RIGHT), S_OK, b"\0\0\0\0"),
            (Ask::Call(48, NO_ENDPOINT), E_NOTFOUND, b""),
            (
                Ask::Call(48, ENDPOINT),
                S_OK,
                b"\x01\0\0\0\x01\0\0\0\0\0\0\0",
            ),
            (Ask::Hangup, S_OK, b""),
            (Ask::Call(48, ENDPOINT), E_HANDLE, b""),
            (Ask::Open, S_OK, b""),
            (Ask::Call(48, ENDPOINT), S_OK, b"\0\0\0\0"),
        ],
    ),
    (
        TWO_CLIENTS,
        &[
            (Ask::Initialize(1, 1, STREAM_CROSSPROCESS, 0), S_OK, ONE),
            (Ask::Initialize(1, 2, STREAM_CROSSPROCESS, 0), E_HANDLE, b""),
            (Ask::Initialize(2, 2, STREAM_CROSSPROCESS, 0), S_OK, ONE),
        ],
    ),
    (
        TWO_CLIENTS,
        &[
            (Ask::Initialize(1, 1, STREAM_CROSSPROCESS, 0xab), S_OK, ONE),
            (Ask::Initialize(2, 2, STREAM_CROSSPROCESS, 0xab), S_OK, ONE),
            (Ask::Call(49, ONE), S_OK, CROSS),
        ],
    ),
    (
        TWO_CLIENTS,
        &[
            (Ask::Initialize(1, 1, 0, 0), S_OK, ONE),
            (Ask::Initialize(2, 2, 0, 0), S_OK, TWO),
        ],
    ),
    (
        TWO_CLIENTS,
        &[
            (Ask::Initialize(1, 1, 0, 0xab), S_OK, ONE),
            (Ask::Initialize(2, 2, 0, 0xab), S_OK, TWO),
        ],
    ),
];

/// What is set, the one frame that is played, and the frame that is heard.
type Heard = (&'static [Exchange], [u8; 4], [u8; 4]);

/// 1001 and -1001 at half; 1001 and 1001 at half of half, and at nothing; 1000 and 1000 of a muted session.
const HEARD: &[Heard] = &[
    (
        &[(Ask::Call(50, HALF), S_OK, b"")],
        *b"\xe9\x03\x17\xfc",
        *b"\xf4\x01\x0c\xfe",
    ),
    (
        &[
            (Ask::Call(50, HALF), S_OK, b""),
            (Ask::Call(52, LEFT_HALF), S_OK, b""),
            (Ask::Call(30, RIGHT_OFF), S_OK, b""),
        ],
        *b"\xe9\x03\xe9\x03",
        *b"\xfa\0\0\0",
    ),
    (
        &[(Ask::Call(51, MUTED), S_OK, b"")],
        *b"\xe8\x03\xe8\x03",
        *b"\0\0\0\0",
    ),
];

/// Whether the frame that is heard is the first that the device gets, and counts as rendered.
fn is_heard(alloc: Global, heard: &Heard) -> Result<bool, Fail> {
    let (sets, played, frame) = *heard;
    let plays: [Exchange; 6] = [
        (Ask::Call(32, GET_1), S_OK, b""),
        (Ask::Frames(1, 1, 0, played), S_OK, b""),
        (Ask::Call(23, ONE), S_OK, b""),
        (Ask::Period, S_OK, PLAYED_480),
        (Ask::Call(19, ONE), S_OK, NO_PADDING),
        (Ask::Call(28, ONE), S_OK, POSITION_1),
    ];
    let mut input = joined(alloc, STARTED)?;
    let mut output = Vec::new(alloc);
    for exchange in sets {
        put(exchange, &mut input, &mut output)?;
    }
    for exchange in &plays {
        put(exchange, &mut input, &mut output)?;
    }
    let got = replay(alloc, &input, &[], &[], &[])?;
    Ok(
        got.status == Status::Done
            && got.output.ends_with(&output)
            && got.device.starts_with(&frame)
            && got.device.len() == 1920,
    )
}

#[test]
fn each_row_of_sessions_has_its_replies(rt: HostRuntime) -> Result<(), Fail> {
    let alloc = rt.alloc();
    for row in SESSIONS {
        assert!(rt; holds(alloc, row)?);
    }
    Ok(())
}

#[test]
fn levels_are_heard(rt: HostRuntime) -> Result<(), Fail> {
    let alloc = rt.alloc();
    for heard in HEARD {
        assert!(rt; is_heard(alloc, heard)?);
    }
    Ok(())
}

#[test]
fn the_forty_ninth_session_is_refused(rt: HostRuntime) -> Result<(), Fail> {
    let alloc = rt.alloc();
    let mut input = joined(alloc, &[ADD, OPEN])?;
    for n in 1..50 {
        input.extend_from_slice(ACTIVATE)?;
        put_opening(1, n, 0, n, &mut input)?;
    }
    let got = replay(alloc, &input, &[], &[], &[])?;
    assert_eq!(rt; got.status, Status::Done);
    let mut refused = Vec::from_array(alloc, [10, 0, 0, 0, 3, 1, 9, 0, 0, 0])?;
    refused.extend_from_slice(&SESSIONS_FULL.to_le_bytes())?;
    assert!(rt; got.output.ends_with(&refused));
    Ok(())
}
