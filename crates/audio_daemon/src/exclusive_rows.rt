//! Rows of exclusive use (AUDCLNT_SHAREMODE_EXCLUSIVE), each worked out by hand.

use crate::endpoint_rows::{DEVICE_INVALIDATED, STARTED};
use crate::event_rows::{
    EVENT_77, EVENTHANDLE_NOT_EXPECTED, EVENTHANDLE_NOT_SET, HANDLE_0, HANDLE_77, NO_EVENT, TAKE_0,
};
use crate::exchanges::{Ask, Row, holds};
use crate::heard_rows::{GET_1_OF_2, GET_1_OF_3, Heard, LOUD, LOUDER, SILENCE, THREE, is_heard};
use crate::notice_rows::{SESSION_1, Told, is_told};
use crate::rows::{
    ACTIVATE_1, ADD_44100, GET_7, GET_480, NOT_STOPPED, ONE, PLAYED_480, S_FALSE, S_OK, SILENT_480,
    TWO, UNSUPPORTED_FORMAT,
};
use crate::session_rows::{E_INVALIDARG, MUTED};
use crate::tests::{ACTIVATE, ADD, OPEN};
use std::test::Fail;

const DEVICE_IN_USE: u32 = 0x8889_000a;

const EXCLUSIVE_MODE_NOT_ALLOWED: u32 = 0x8889_000e;

const BUFDURATION_PERIOD_NOT_EQUAL: u32 = 0x8889_0013;

const BUFFER_SIZE_ERROR: u32 = 0x8889_0016;

const INVALID_DEVICE_PERIOD: u32 = 0x8889_0020;

/// AUDCLNT_STREAMFLAGS_CROSSPROCESS, _LOOPBACK and _EVENTCALLBACK.
const CROSSPROCESS: u32 = 0x0001_0000;

const LOOPBACK: u32 = 0x0002_0000;

const EVENT: u32 = 0x0004_0000;

/// Initialize (client 1, exclusive, flags 0, duration 0, period, format, null GUID) with 44,100 Hz: a period of 29,999
/// and of 30,000.
const TOO_SHORT: &[u8] =
    b"\x01\0\0\0\0\0\0\0\x01\0\0\0\0\0\0\0\0\0\0\0\0\0\0\0\x2f\x75\0\0\0\0\0\0\x12\0\x01\0\x02\0\x44\xac\0\0\
      \x10\xb1\x02\0\x04\0\x10\0\0\0\0\0\0\0\0\0\0\0\0\0\0\0\0\0\0\0";

const SHORTEST: &[u8] =
    b"\x01\0\0\0\0\0\0\0\x01\0\0\0\0\0\0\0\0\0\0\0\0\0\0\0\x30\x75\0\0\0\0\0\0\x12\0\x01\0\x02\0\x44\xac\0\0\
      \x10\xb1\x02\0\x04\0\x10\0\0\0\0\0\0\0\0\0\0\0\0\0\0\0\0\0\0\0";

/// The same of client 2 with period 0 and a format of 48,000 Hz that has six bytes a frame in place of four.
const FAULT_7: &[u8] =
    b"\x02\0\0\0\0\0\0\0\x01\0\0\0\0\0\0\0\0\0\0\0\0\0\0\0\0\0\0\0\0\0\0\0\x12\0\x01\0\x02\0\x80\xbb\0\0\0\xee\
      \x02\0\x06\0\x10\0\0\0\0\0\0\0\0\0\0\0\0\0\0\0\0\0\0\0";

/// IsFormatSupported (client 1, exclusive, format): of 44,100 Hz with two channels, and of 48,000 Hz with one; and of
/// 48,000 Hz with two channels: exclusive, in share mode 2, and shared.
const SUPPORTS_44100: &[u8] =
    b"\x01\0\0\0\0\0\0\0\x01\0\0\0\x12\0\x01\0\x02\0\x44\xac\0\0\x10\xb1\x02\0\x04\0\x10\0\0\0";

const SUPPORTS_MONO: &[u8] =
    b"\x01\0\0\0\0\0\0\0\x01\0\0\0\x12\0\x01\0\x01\0\x80\xbb\0\0\0\x77\x01\0\x02\0\x10\0\0\0";

const SUPPORTS_48000: &[u8] =
    b"\x01\0\0\0\0\0\0\0\x01\0\0\0\x12\0\x01\0\x02\0\x80\xbb\0\0\0\xee\x02\0\x04\0\x10\0\0\0";

const SUPPORTS_2: &[u8] =
    b"\x01\0\0\0\0\0\0\0\x02\0\0\0\x12\0\x01\0\x02\0\x80\xbb\0\0\0\xee\x02\0\x04\0\x10\0\0\0";

const SUPPORTS_SHARED: &[u8] =
    b"\x01\0\0\0\0\0\0\0\0\0\0\0\x12\0\x01\0\x02\0\x80\xbb\0\0\0\xee\x02\0\x04\0\x10\0\0\0";

/// The format of an endpoint of 44,100 Hz.
const CD_FORMAT: &[u8] = b"\x12\0\x01\0\x02\0\x44\xac\0\0\x10\xb1\x02\0\x04\0\x10\0\0\0";

/// GetBuffer of 3 and of 479 frames, of client 1; and a silent ReleaseBuffer of 3.
const GET_3: &[u8] = b"\x01\0\0\0\0\0\0\0\x03\0\0\0";

const GET_479: &[u8] = b"\x01\0\0\0\0\0\0\0\xdf\x01\0\0";

const SILENT_3: &[u8] = b"\x01\0\0\0\0\0\0\0\x03\0\0\0\x02\0\0\0";

/// SetExclusive of endpoint 1: allowed without priority; neither.
const NO_PRIORITY: &[u8] = b"\x01\0\0\0\x01\0";

const NEITHER: &[u8] = b"\x01\0\0\0\0\0";

/// 7, 480 and 960 frames, and 240,000, which last five seconds.
const FRAMES_7: &[u8] = b"\x07\0\0\0";

const FRAMES_480: &[u8] = b"\xe0\x01\0\0";

const FRAMES_960: &[u8] = b"\xc0\x03\0\0";

const FRAMES_5S: &[u8] = b"\x80\xa9\x03\0";

/// An endpoint, a connection and a client.
const ACTIVATED: &[&[u8]] = &[ADD, OPEN, ACTIVATE];

/// What is refused of a client that asks for exclusive use, and the longest period, which the buffer has room for. Then
/// which formats it may have: of any rate, with the endpoint's channels.
const REFUSED: &[Row] = &[
    (
        ACTIVATED,
        &[
            (Ask::Exclusive(1, 1, LOOPBACK, 0, 0), E_INVALIDARG, b""),
            (
                Ask::Exclusive(1, 1, 0, 0, 29_999),
                INVALID_DEVICE_PERIOD,
                b"",
            ),
            (
                Ask::Exclusive(1, 1, 0, 0, 50_000_001),
                INVALID_DEVICE_PERIOD,
                b"",
            ),
            (
                Ask::Exclusive(1, 1, EVENT, 20_000_001, 100_000),
                BUFDURATION_PERIOD_NOT_EQUAL,
                b"",
            ),
            (
                Ask::Exclusive(1, 1, EVENT, 50_000_000, 50_000_000),
                BUFFER_SIZE_ERROR,
                b"",
            ),
            (
                Ask::Exclusive(1, 1, 0, 20_000_001, 0),
                BUFFER_SIZE_ERROR,
                b"",
            ),
            (Ask::Exclusive(1, 1, 0, 20_000_000, 50_000_000), S_OK, ONE),
            (Ask::Call(17, ONE), S_OK, FRAMES_5S),
        ],
    ),
    (
        ACTIVATED,
        &[
            (Ask::Call(20, SUPPORTS_44100), S_OK, b""),
            (Ask::Call(20, SUPPORTS_MONO), UNSUPPORTED_FORMAT, b""),
            (Ask::Call(20, SUPPORTS_2), E_INVALIDARG, b""),
            (Ask::Device(6, NEITHER), S_OK, b""),
            (
                Ask::Exclusive(1, 1, 0, 0, 0),
                EXCLUSIVE_MODE_NOT_ALLOWED,
                b"",
            ),
            (Ask::Exclusive(1, 1, CROSSPROCESS, 0, 0), E_INVALIDARG, b""),
            (Ask::Initialize(1, 1, 0, 0), S_OK, ONE),
        ],
    ),
];

/// Who holds the endpoint: beside an exclusive stream there is no other until it is released, and a format that isn't
/// one closes nothing. Without priority an exclusive stream waits for the shared ones.
const HELD: &[Row] = &[
    (
        ACTIVATED,
        &[
            (Ask::Exclusive(1, 1, 0, 0, 0), S_OK, ONE),
            (Ask::Call(5, ACTIVATE_1), S_OK, TWO),
            (Ask::Initialize(1, 2, 0, 0), DEVICE_IN_USE, b""),
            (Ask::Exclusive(1, 2, 0, 0, 0), DEVICE_IN_USE, b""),
            (Ask::Call(6, ONE), S_OK, b""),
            (Ask::Initialize(1, 2, 0, 0), S_OK, TWO),
        ],
    ),
    (
        STARTED,
        &[
            (Ask::Call(23, ONE), S_OK, b""),
            (Ask::Call(5, ACTIVATE_1), S_OK, TWO),
            (Ask::Call(16, FAULT_7), UNSUPPORTED_FORMAT, b""),
            (Ask::Call(23, ONE), NOT_STOPPED, b""),
        ],
    ),
    (
        STARTED,
        &[
            (Ask::Call(32, GET_7), S_OK, b""),
            (Ask::Frames(1, 7, 0, LOUD), S_OK, b""),
            (Ask::Call(32, GET_3), S_OK, b""),
            (Ask::Device(6, NO_PRIORITY), S_OK, b""),
            (Ask::OpenAs(2, 11, b"dac"), S_OK, b""),
            (Ask::On(2, 5, ACTIVATE_1), S_OK, TWO),
            (Ask::Exclusive(2, 2, 0, 100_000, 0), DEVICE_IN_USE, b""),
            (Ask::Call(19, ONE), S_OK, FRAMES_7),
            (Ask::Call(33, SILENT_3), S_OK, b""),
        ],
    ),
];

/// The endpoint's period is that of the exclusive stream, running or not, in its rate, and its own again without it. An
/// event-driven stream has two buffers, and takes only a whole one.
const PERIODS: &[Row] = &[
    (
        &[ADD_44100, OPEN, ACTIVATE],
        &[
            (Ask::Call(16, TOO_SHORT), INVALID_DEVICE_PERIOD, b""),
            (Ask::Call(16, SHORTEST), S_OK, ONE),
            (Ask::Call(17, ONE), S_OK, b"\x85\0\0\0"),
            (Ask::Call(18, ONE), S_OK, b"\x30\x75\0\0\0\0\0\0"),
            (Ask::Period, S_OK, b"\x85\0\0\0\0"),
        ],
    ),
    (
        &[ADD_44100, OPEN, ACTIVATE],
        &[
            (Ask::Call(20, SUPPORTS_48000), S_OK, b""),
            (Ask::Call(20, SUPPORTS_SHARED), S_FALSE, CD_FORMAT),
            (Ask::Exclusive(1, 1, 0, 0, 0), S_OK, ONE),
            (Ask::Call(17, ONE), S_OK, FRAMES_480),
            (Ask::Period, S_OK, PLAYED_480),
            (Ask::Call(6, ONE), S_OK, b""),
            (Ask::Period, S_OK, b"\xb9\x01\0\0\0"),
        ],
    ),
    (
        ACTIVATED,
        &[
            (
                Ask::Exclusive(1, 1, EVENT, 200_000, 100_000),
                BUFDURATION_PERIOD_NOT_EQUAL,
                b"",
            ),
            (Ask::Exclusive(1, 1, EVENT, 100_000, 100_000), S_OK, ONE),
            (Ask::Call(23, ONE), EVENTHANDLE_NOT_SET, b""),
            (Ask::Call(26, HANDLE_0), E_INVALIDARG, b""),
            (Ask::Call(26, HANDLE_77), S_OK, b""),
            (Ask::Call(23, ONE), S_OK, b""),
            (Ask::Call(32, GET_479), BUFFER_SIZE_ERROR, b""),
            (Ask::Call(32, GET_480), S_OK, b""),
        ],
    ),
    (
        STARTED,
        &[(Ask::Call(26, HANDLE_77), EVENTHANDLE_NOT_EXPECTED, b"")],
    ),
    (
        ACTIVATED,
        &[
            (Ask::Exclusive(1, 1, EVENT, 100_000, 100_000), S_OK, ONE),
            (Ask::Call(17, ONE), S_OK, FRAMES_480),
            (Ask::Call(26, HANDLE_77), S_OK, b""),
            (Ask::Call(32, GET_480), S_OK, b""),
            (Ask::Call(33, SILENT_480), S_OK, b""),
            (Ask::Call(32, GET_480), S_OK, b""),
            (Ask::Call(33, SILENT_480), S_OK, b""),
            (Ask::Call(19, ONE), S_OK, FRAMES_960),
            (Ask::Call(23, ONE), S_OK, b""),
            (Ask::Period, S_OK, PLAYED_480),
            (Ask::Call(19, ONE), S_OK, FRAMES_480),
            (Ask::Call(9, TAKE_0), S_OK, EVENT_77),
            (Ask::Call(9, TAKE_0), S_OK, NO_EVENT),
        ],
    ),
];

/// With priority a client of another process takes the endpoint: who shared it is told so once, and the frames that
/// were leased or wait are never played.
const TAKEN: Told = (
    (
        STARTED,
        &[
            (Ask::Call(32, GET_7), S_OK, b""),
            (Ask::Frames(1, 7, 0, LOUD), S_OK, b""),
            (Ask::Call(32, GET_3), S_OK, b""),
            (Ask::Call(7, SESSION_1), S_OK, ONE),
            (Ask::OpenAs(2, 11, b"dac"), S_OK, b""),
            (Ask::On(2, 5, ACTIVATE_1), S_OK, TWO),
            (Ask::Exclusive(2, 2, 0, 100_000, 0), S_OK, TWO),
            (Ask::On(2, 17, TWO), S_OK, FRAMES_480),
            (Ask::Call(33, SILENT_3), DEVICE_INVALIDATED, b""),
            (Ask::Call(19, ONE), DEVICE_INVALIDATED, b""),
        ],
    ),
    &[[7, 1, 5]],
);

/// The device gets the frames of the exclusive stream as they are, also if its session is muted. Of the stream that it
/// took the endpoint from it gets none, also after the exclusive one is gone and another shared one plays.
const HEARD: &[Heard] = &[
    (
        (
            ACTIVATED,
            &[
                (Ask::Exclusive(1, 1, 0, 0, 0), S_OK, ONE),
                (Ask::Call(51, MUTED), S_OK, b""),
                (Ask::Call(32, GET_480), S_OK, b""),
                (Ask::Frames(1, 480, 0, LOUD), S_OK, b""),
                (Ask::Call(23, ONE), S_OK, b""),
                (Ask::Period, S_OK, PLAYED_480),
            ],
        ),
        &[(480, LOUD)],
    ),
    (
        (
            STARTED,
            &[
                (Ask::Call(32, GET_480), S_OK, b""),
                (Ask::Frames(1, 480, 0, LOUDER), S_OK, b""),
                (Ask::Call(23, ONE), S_OK, b""),
                (Ask::Call(5, ACTIVATE_1), S_OK, TWO),
                (Ask::Exclusive(1, 2, 0, 0, 0), S_OK, ONE),
                (Ask::Call(32, GET_1_OF_2), S_OK, b""),
                (Ask::Frames(2, 1, 0, LOUD), S_OK, b""),
                (Ask::Call(23, TWO), S_OK, b""),
                (Ask::Period, S_OK, PLAYED_480),
                (Ask::Call(6, TWO), S_OK, b""),
                (Ask::Call(23, ONE), DEVICE_INVALIDATED, b""),
                (Ask::Call(5, ACTIVATE_1), S_OK, THREE),
                (Ask::Initialize(1, 3, 0, 0), S_OK, ONE),
                (Ask::Call(32, GET_1_OF_3), S_OK, b""),
                (Ask::Frames(3, 1, 0, LOUDER), S_OK, b""),
                (Ask::Call(23, THREE), S_OK, b""),
                (Ask::Period, S_OK, PLAYED_480),
            ],
        ),
        &[(1, LOUD), (479, SILENCE), (1, LOUDER), (479, SILENCE)],
    ),
];

#[test]
fn an_exclusive_stream_has_its_rows_and_is_heard_alone(rt: HostRuntime) -> Result<(), Fail> {
    let alloc = rt.alloc();
    for rows in [REFUSED, HELD, PERIODS] {
        for row in rows {
            assert!(rt; holds(alloc, row)?);
        }
    }
    assert!(rt; is_told(alloc, &TAKEN, &[])?);
    for heard in HEARD {
        assert!(rt; is_heard(alloc, heard)?);
    }
    Ok(())
}
