//! Rows of calls of one client, each worked out by hand.

use crate::exchanges::{Ask, MIX_FORMAT, Row, holds, put};
use crate::run::Status;
use crate::tests::{ACTIVATE, ADD, INITIALIZE, OPEN, joined, replay};
use std::test::Fail;

pub const S_OK: u32 = 0;

pub const S_FALSE: u32 = 1;

pub const E_NOTIMPL: u32 = 0x8000_4001;

pub const E_NOINTERFACE: u32 = 0x8000_4002;

pub const E_HANDLE: u32 = 0x8007_0006;

pub const NOT_INITIALIZED: u32 = 0x8889_0001;

pub const ALREADY_INITIALIZED: u32 = 0x8889_0002;

pub const WRONG_ENDPOINT_TYPE: u32 = 0x8889_0003;

pub const NOT_STOPPED: u32 = 0x8889_0005;

pub const BUFFER_TOO_LARGE: u32 = 0x8889_0006;

pub const OUT_OF_ORDER: u32 = 0x8889_0007;

pub const UNSUPPORTED_FORMAT: u32 = 0x8889_0008;

pub const INVALID_SIZE: u32 = 0x8889_0009;

const BUFFER_OPERATION_PENDING: u32 = 0x8889_000b;

const CLIENTS_FULL: u32 = 0xa004_0002;

/// Clients 1, 2 and 99.
pub const ONE: &[u8] = b"\x01\0\0\0\0\0\0\0";

pub const TWO: &[u8] = b"\x02\0\0\0\0\0\0\0";

const OTHER: &[u8] = b"\x63\0\0\0\0\0\0\0";

/// GetBuffer and a silent ReleaseBuffer of client 1: 1, 5, 7, 10, 11, 480, 960, 961 and 48,000 frames.
pub const GET_1: &[u8] = b"\x01\0\0\0\0\0\0\0\x01\0\0\0";

const GET_5: &[u8] = b"\x01\0\0\0\0\0\0\0\x05\0\0\0";

pub const GET_7: &[u8] = b"\x01\0\0\0\0\0\0\0\x07\0\0\0";

const GET_10: &[u8] = b"\x01\0\0\0\0\0\0\0\x0a\0\0\0";

pub const GET_480: &[u8] = b"\x01\0\0\0\0\0\0\0\xe0\x01\0\0";

const GET_960: &[u8] = b"\x01\0\0\0\0\0\0\0\xc0\x03\0\0";

const GET_961: &[u8] = b"\x01\0\0\0\0\0\0\0\xc1\x03\0\0";

const GET_48000: &[u8] = b"\x01\0\0\0\0\0\0\0\x80\xbb\0\0";

const SILENT_0: &[u8] = b"\x01\0\0\0\0\0\0\0\0\0\0\0\x02\0\0\0";

const SILENT_5: &[u8] = b"\x01\0\0\0\0\0\0\0\x05\0\0\0\x02\0\0\0";

pub const SILENT_7: &[u8] = b"\x01\0\0\0\0\0\0\0\x07\0\0\0\x02\0\0\0";

const SILENT_11: &[u8] = b"\x01\0\0\0\0\0\0\0\x0b\0\0\0\x02\0\0\0";

pub const SILENT_480: &[u8] = b"\x01\0\0\0\0\0\0\0\xe0\x01\0\0\x02\0\0\0";

const SILENT_48000: &[u8] = b"\x01\0\0\0\0\0\0\0\x80\xbb\0\0\x02\0\0\0";

/// The padding of 0 and of 47,520 frames, and the reply to a whole period of 480 frames.
pub const NO_PADDING: &[u8] = b"\0\0\0\0";

const MUCH_PADDING: &[u8] = b"\xa0\xb9\0\0";

pub const PLAYED_480: &[u8] = b"\xe0\x01\0\0\0";

/// IsFormatSupported (client, shared, format): of 48,000 Hz and of 44,100 Hz with two channels.
const SUPPORTS_48000: &[u8] =
    b"\x01\0\0\0\0\0\0\0\0\0\0\0\x12\0\x01\0\x02\0\x80\xbb\0\0\0\xee\x02\0\x04\0\x10\0\0\0";

const SUPPORTS_44100: &[u8] =
    b"\x01\0\0\0\0\0\0\0\0\0\0\0\x12\0\x01\0\x02\0\x44\xac\0\0\x10\xb1\x02\0\x04\0\x10\0\0\0";

/// Initialize (client, shared, flags 0, duration, period 0, format, null GUID): of client 1 with a duration of one
/// second, of client 2 with 44,100 Hz.
const INITIALIZE_1S: &[u8] =
    b"\x01\0\0\0\0\0\0\0\0\0\0\0\0\0\0\0\x80\x96\x98\0\0\0\0\0\0\0\0\0\0\0\0\0\x12\0\x01\0\x02\0\x80\xbb\0\0\0\
      \xee\x02\0\x04\0\x10\0\0\0\0\0\0\0\0\0\0\0\0\0\0\0\0\0\0\0";

const INITIALIZE_44100: &[u8] =
    b"\x02\0\0\0\0\0\0\0\0\0\0\0\0\0\0\0\0\0\0\0\0\0\0\0\0\0\0\0\0\0\0\0\x12\0\x01\0\x02\0\x44\xac\0\0\x10\xb1\
      \x02\0\x04\0\x10\0\0\0\0\0\0\0\0\0\0\0\0\0\0\0\0\0\0\0";

/// The same of client 2 with 48,000 Hz and a cbSize of 7, which isn't looked at with tag 1.
const INITIALIZE_CB_SIZE: &[u8] =
    b"\x02\0\0\0\0\0\0\0\0\0\0\0\0\0\0\0\0\0\0\0\0\0\0\0\0\0\0\0\0\0\0\0\x12\0\x01\0\x02\0\x80\xbb\0\0\0\xee\
      \x02\0\x04\0\x10\0\x07\0\0\0\0\0\0\0\0\0\0\0\0\0\0\0\0\0";

/// Activate (endpoint 1, role 0).
pub const ACTIVATE_1: &[u8] = b"\x01\0\0\0\0";

/// Device event Add: endpoint 1, render, 44,100 Hz, two channels, `CD`; and Initialize of client 1 with its format.
pub const ADD_44100: &[u8] =
    b"\x1f\0\0\0\x05\x01\x01\0\0\0\0\x12\0\x01\0\x02\0\x44\xac\0\0\x10\xb1\x02\0\x04\0\x10\0\0\0\x02\0CD";

const INITIALIZE_CD: &[u8] =
    b"\x01\0\0\0\0\0\0\0\0\0\0\0\0\0\0\0\0\0\0\0\0\0\0\0\0\0\0\0\0\0\0\0\x12\0\x01\0\x02\0\x44\xac\0\0\x10\xb1\
      \x02\0\x04\0\x10\0\0\0\0\0\0\0\0\0\0\0\0\0\0\0\0\0\0\0";

/// An endpoint, a connection and a client; and the client's stream.
const ACTIVATED: &[&[u8]] = &[ADD, OPEN, ACTIVATE];

const STARTED: &[&[u8]] = &[ADD, OPEN, ACTIVATE, INITIALIZE];

/// Sizes of buffers, leases, positions and padding.
const BUFFERS: &[Row] = &[
    (
        STARTED,
        &[
            (Ask::Call(17, ONE), S_OK, b"\xc0\x03\0\0"),
            (Ask::Call(32, GET_961), BUFFER_TOO_LARGE, b""),
            (Ask::Call(32, GET_960), S_OK, b""),
        ],
    ),
    (
        &[ADD_44100, OPEN, ACTIVATE],
        &[
            (Ask::Call(16, INITIALIZE_CD), S_OK, ONE),
            (Ask::Call(17, ONE), S_OK, b"\x72\x03\0\0"),
        ],
    ),
    (
        STARTED,
        &[
            (Ask::Call(32, GET_10), S_OK, b""),
            (Ask::Call(32, GET_1), OUT_OF_ORDER, b""),
            (Ask::Call(33, SILENT_11), INVALID_SIZE, b""),
            (Ask::Call(33, SILENT_0), S_OK, b""),
            (Ask::Call(19, ONE), S_OK, NO_PADDING),
            (Ask::Call(33, SILENT_0), OUT_OF_ORDER, b""),
        ],
    ),
    (
        STARTED,
        &[
            (Ask::Call(32, GET_480), S_OK, b""),
            (Ask::Call(33, SILENT_480), S_OK, b""),
            (Ask::Call(23, ONE), S_OK, b""),
            (Ask::Period, S_OK, PLAYED_480),
            (
                Ask::Call(28, ONE),
                S_OK,
                b"\xe0\x01\0\0\0\0\0\0\x80\xbb\0\0\0\0\0\0",
            ),
        ],
    ),
];

/// Start, Stop and Reset; a stream's latency and periods; a hang-up; another client after the first.
const CONTROLS: &[Row] = &[
    (
        STARTED,
        &[
            (Ask::Call(23, ONE), S_OK, b""),
            (Ask::Call(25, ONE), NOT_STOPPED, b""),
            (Ask::Call(24, ONE), S_OK, b""),
            (Ask::Call(24, ONE), S_FALSE, b""),
            (Ask::Call(32, GET_5), S_OK, b""),
            (Ask::Call(25, ONE), BUFFER_OPERATION_PENDING, b""),
            (Ask::Call(33, SILENT_5), S_OK, b""),
            (Ask::Call(25, ONE), S_OK, b""),
            (Ask::Call(25, ONE), S_FALSE, b""),
            (Ask::Call(19, ONE), S_OK, NO_PADDING),
        ],
    ),
    (
        STARTED,
        &[
            (Ask::Call(18, ONE), S_OK, b"\xa0\x86\x01\0\0\0\0\0"),
            (
                Ask::Call(22, ONE),
                S_OK,
                b"\xa0\x86\x01\0\0\0\0\0\x30\x75\0\0\0\0\0\0",
            ),
            (
                Ask::Call(27, b"\x01\0\0\0\0\0\0\0\x02\0\0\0"),
                WRONG_ENDPOINT_TYPE,
                b"",
            ),
            (
                Ask::Call(27, b"\x01\0\0\0\0\0\0\0\x09\0\0\0"),
                E_NOINTERFACE,
                b"",
            ),
        ],
    ),
    (
        STARTED,
        &[
            (Ask::Call(32, GET_7), S_OK, b""),
            (Ask::Call(33, SILENT_7), S_OK, b""),
            (Ask::Hangup, S_OK, b""),
            (Ask::Call(19, ONE), E_HANDLE, b""),
            (Ask::Hangup, E_HANDLE, b""),
            (Ask::Open, S_OK, b""),
            (Ask::Call(19, ONE), E_HANDLE, b""),
        ],
    ),
    (
        STARTED,
        &[
            (Ask::Call(6, ONE), S_OK, b""),
            (Ask::Call(5, ACTIVATE_1), S_OK, TWO),
            (Ask::Call(16, INITIALIZE_CB_SIZE), S_OK, TWO),
        ],
    ),
];

/// A usual player, from the endpoint's format to the release of its client.
const PLAYER: Row = (
    ACTIVATED,
    &[
        (Ask::Call(21, ONE), S_OK, MIX_FORMAT),
        (Ask::Call(20, SUPPORTS_48000), S_OK, b""),
        (Ask::Call(16, INITIALIZE_1S), S_OK, ONE),
        (Ask::Call(17, ONE), S_OK, b"\x80\xbb\0\0"),
        (Ask::Call(27, b"\x01\0\0\0\0\0\0\0\x01\0\0\0"), S_OK, b""),
        (Ask::Call(32, GET_48000), S_OK, b""),
        (Ask::Call(33, SILENT_48000), S_OK, b""),
        (Ask::Call(23, ONE), S_OK, b""),
        (Ask::Period, S_OK, PLAYED_480),
        (Ask::Call(19, ONE), S_OK, MUCH_PADDING),
        (Ask::Call(32, GET_480), S_OK, b""),
        (Ask::Call(33, SILENT_480), S_OK, b""),
        (Ask::Period, S_OK, PLAYED_480),
        (Ask::Call(19, ONE), S_OK, MUCH_PADDING),
        (Ask::Call(24, ONE), S_OK, b""),
        (Ask::Call(6, ONE), S_OK, b""),
        (Ask::Call(6, ONE), E_HANDLE, b""),
    ],
);

/// Calls at a wrong moment, of no client, and of a format that isn't the endpoint's.
const REFUSALS: &[Row] = &[
    (
        STARTED,
        &[
            (Ask::Initialize(1, 1, 0, 0), ALREADY_INITIALIZED, b""),
            (Ask::Call(200, b"abc"), E_NOTIMPL, b""),
            (Ask::Call(19, OTHER), E_HANDLE, b""),
            (Ask::Call(20, SUPPORTS_44100), S_FALSE, MIX_FORMAT),
            (Ask::Call(5, ACTIVATE_1), S_OK, TWO),
            (Ask::Call(16, INITIALIZE_44100), UNSUPPORTED_FORMAT, b""),
        ],
    ),
    (ACTIVATED, &[(Ask::Call(32, GET_1), NOT_INITIALIZED, b"")]),
    (&[ADD], &[(Ask::Call(19, ONE), E_HANDLE, b"")]),
];

#[test]
fn each_row_has_its_replies(rt: HostRuntime) -> Result<(), Fail> {
    let alloc = rt.alloc();
    for rows in [BUFFERS, CONTROLS, REFUSALS, &[PLAYER]] {
        for row in rows {
            assert!(rt; holds(alloc, row)?);
        }
    }
    Ok(())
}

#[test]
fn the_sixty_fifth_client_is_refused(rt: HostRuntime) -> Result<(), Fail> {
    let alloc = rt.alloc();
    let mut input = joined(alloc, &[ADD, OPEN])?;
    for _ in 0..64 {
        input.extend_from_slice(ACTIVATE)?;
    }
    let mut output = Vec::new(alloc);
    put(
        &(Ask::Call(5, ACTIVATE_1), CLIENTS_FULL, b""),
        &mut input,
        &mut output,
    )?;
    put(&(Ask::Call(6, ONE), S_OK, b""), &mut input, &mut output)?;
    put(
        &(Ask::Call(5, ACTIVATE_1), S_OK, b"\x41\0\0\0\0\0\0\0"),
        &mut input,
        &mut output,
    )?;
    let got = replay(alloc, &input, &[], &[], &[])?;
    assert_eq!(rt; got.status, Status::Done);
    assert!(rt; got.output.ends_with(&output));
    Ok(())
}
