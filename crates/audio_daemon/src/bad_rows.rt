//! What is refused while a stream plays. Each refusal has its code and no payload, and the stream plays on as if what
//! was refused had not come: the same replies follow, and the device gets the same bytes. All of it is worked out by
//! hand.

use crate::exchanges::{Ask, Exchange};
use crate::heard_rows::LOUD;
use crate::player::{BETWEEN, FREE, LEASED, Playing};
use crate::rows::{
    ACTIVATE_1, ALREADY_INITIALIZED, BUFFER_TOO_LARGE, E_HANDLE, E_NOINTERFACE, E_NOTIMPL,
    INVALID_SIZE, NOT_INITIALIZED, NOT_STOPPED, ONE, OUT_OF_ORDER, TWO, WRONG_ENDPOINT_TYPE,
};
use crate::session_rows::{E_INVALIDARG, E_NOTFOUND, ENDPOINT};
use std::alloc::Global;
use std::test::Fail;

/// A name of a connection that is one byte too long.
const NAME_65: &[u8] = &[b'a'; 65];

/// A call's code and the bytes of its fields after the first one, which is a client or a session.
type Call = (u8, &'static [u8]);

/// Calls that any client may make, and those that need a stream; calls on a session.
const CLIENT_CALLS: &[Call] = &[
    (6, b""),
    (
        20,
        b"\0\0\0\0\x12\0\x01\0\x02\0\x80\xbb\0\0\0\xee\x02\0\x04\0\x10\0\0\0",
    ),
    (21, b""),
    (22, b""),
];

const STREAM_CALLS: &[Call] = &[
    (17, b""),
    (18, b""),
    (19, b""),
    (23, b""),
    (24, b""),
    (25, b""),
    (27, b"\x01\0\0\0"),
    (28, b""),
    (29, b"\0\0\0\0"),
    (30, b"\0\0\0\0\0\0\0\0"),
    (32, b"\x01\0\0\0"),
    (33, b"\0\0\0\0\x02\0\0\0"),
    (34, b""),
    (35, b""),
    (36, b"\xe0\x01\0\0"),
];

const SESSION_CALLS: &[Call] = &[
    (49, b""),
    (50, &[0; 20]),
    (51, &[0; 17]),
    (52, &[0; 24]),
    (53, &[0; 18]),
    (54, &[0; 18]),
    (55, &[0; 32]),
];

/// Numbers of sessions that there aren't.
const NO_SESSIONS: [u64; 3] = [0, 3, u64::MAX];

/// A call of client 1 or on session 1, and its code.
type Refused = (u8, &'static [u8], u32);

/// Data calls while no lease is held; and while 7 frames are leased, with more frames, other flags, and data of another
/// length than that of the frames.
const UNLEASED: &[Refused] = &[
    (32, b"\xe1\x01\0\0", BUFFER_TOO_LARGE),
    (32, b"\xff\xff\xff\xff", BUFFER_TOO_LARGE),
    (33, b"\0\0\0\0\x02\0\0\0", OUT_OF_ORDER),
    (33, b"\x07\0\0\0\x02\0\0\0", OUT_OF_ORDER),
    (33, b"\xff\xff\xff\xff\xff\xff\xff\xff", OUT_OF_ORDER),
];

const WRONG_DATA: &[Refused] = &[
    (32, b"\0\0\0\0", OUT_OF_ORDER),
    (32, b"\x01\0\0\0", OUT_OF_ORDER),
    (32, b"\xff\xff\xff\xff", OUT_OF_ORDER),
    (33, b"\x08\0\0\0\x02\0\0\0", INVALID_SIZE),
    (33, b"\x08\0\0\0\x04\0\0\0", INVALID_SIZE),
    (33, b"\xff\xff\xff\xff\x02\0\0\0", INVALID_SIZE),
    (33, b"\x01\0\0\0\x01\0\0\0four", E_INVALIDARG),
    (33, b"\x01\0\0\0\x03\0\0\0four", E_INVALIDARG),
    (33, b"\x01\0\0\0\x04\0\0\0four", E_INVALIDARG),
    (33, b"\x01\0\0\0\x02\0\0\x80four", E_INVALIDARG),
    (33, b"\x01\0\0\0\0\0\0\0", E_INVALIDARG),
    (33, b"\x01\0\0\0\0\0\0\0abc", E_INVALIDARG),
    (33, b"\x01\0\0\0\0\0\0\0fiver", E_INVALIDARG),
    (33, b"\x07\0\0\0\0\0\0\0four", E_INVALIDARG),
    (33, b"\x07\0\0\0\x02\0\0\0four", E_INVALIDARG),
    (33, b"\0\0\0\0\0\0\0\0a", E_INVALIDARG),
    (33, b"\0\0\0\0\x02\0\0\0a", E_INVALIDARG),
];

/// Calls at a wrong moment or of another kind of stream, and values out of their range: services, channels, and levels
/// of the stream.
const WRONG_VALUES: &[Refused] = &[
    (23, b"", NOT_STOPPED),
    (25, b"", NOT_STOPPED),
    (27, b"\0\0\0\0", E_NOINTERFACE),
    (27, b"\x08\0\0\0", E_NOINTERFACE),
    (27, b"\xff\xff\xff\xff", E_NOINTERFACE),
    (27, b"\x02\0\0\0", WRONG_ENDPOINT_TYPE),
    (29, b"\x02\0\0\0", E_INVALIDARG),
    (29, b"\xff\xff\xff\xff", E_INVALIDARG),
    (30, b"\x02\0\0\0\0\0\0\0", E_INVALIDARG),
    (30, b"\xff\xff\xff\xff\0\0\0\0", E_INVALIDARG),
    (30, b"\0\0\0\0\x01\0\x01\0", E_INVALIDARG),
    (30, b"\x01\0\0\0\xff\xff\xff\xff", E_INVALIDARG),
    (34, b"", WRONG_ENDPOINT_TYPE),
    (35, b"", WRONG_ENDPOINT_TYPE),
    (36, b"\0\0\0\0", WRONG_ENDPOINT_TYPE),
    (36, b"\xe0\x01\0\0", WRONG_ENDPOINT_TYPE),
];

/// A call on session 1, and its fields but for the context.
const WRONG_LEVELS: &[Call] = &[
    (50, b"\x01\0\x01\0"),
    (50, b"\xff\xff\xff\xff"),
    (51, b"\x02"),
    (51, b"\xff"),
    (52, b"\x02\0\0\0\0\0\0\0"),
    (52, b"\xff\xff\xff\xff\0\0\0\0"),
    (52, b"\0\0\0\0\x01\0\x01\0"),
    (52, b"\x01\0\0\0\xff\xff\xff\xff"),
];

/// The context of a call that sets something: the null GUID.
const NO_CONTEXT: &[u8] = &[0; 16];

/// Texts that aren't UTF-8, each after its two bytes of length: a byte that begins nothing, a character that is cut,
/// one that is longer than it must be, and half of a surrogate pair.
const NO_TEXTS: [&[u8]; 4] = [
    b"\x01\0\xff",
    b"\x03\0a\xe2\x82",
    b"\x02\0\xc0\x80",
    b"\x03\0\xed\xa0\x80",
];

/// Events and calls that name something else: endpoints, roles, codes, connections and their names.
const EVENTS: &[Exchange] = &[
    (Ask::Initialize(1, 1, 0, 0), ALREADY_INITIALIZED, b""),
    (Ask::Frames(1, 7, 1, LOUD), E_INVALIDARG, b""),
    (Ask::Frames(1, 8, 0, LOUD), INVALID_SIZE, b""),
    (Ask::Call(5, b"\0\0\0\0\0"), E_NOTFOUND, b""),
    (Ask::Call(5, b"\x02\0\0\0\0"), E_NOTFOUND, b""),
    (Ask::Call(5, b"\xff\xff\xff\xff\x03"), E_NOTFOUND, b""),
    (Ask::Call(5, b"\x01\0\0\0\x03"), E_INVALIDARG, b""),
    (Ask::Call(5, b"\x01\0\0\0\xfe"), E_INVALIDARG, b""),
    (Ask::On(3, 5, ACTIVATE_1), E_HANDLE, b""),
    (Ask::Call(48, b"\0\0\0\0"), E_NOTFOUND, b""),
    (Ask::Call(48, b"\x02\0\0\0"), E_NOTFOUND, b""),
    (Ask::Call(48, b"\xff\xff\xff\xff"), E_NOTFOUND, b""),
    (Ask::On(3, 48, ENDPOINT), E_HANDLE, b""),
    (Ask::Call(0, b""), E_NOTIMPL, b""),
    (Ask::Call(15, ONE), E_NOTIMPL, b""),
    (Ask::Call(31, ONE), E_NOTIMPL, b""),
    (Ask::Call(37, ONE), E_NOTIMPL, b""),
    (Ask::Call(255, b"abc"), E_NOTIMPL, b""),
    (Ask::On(3, 255, b"abc"), E_HANDLE, b""),
    (Ask::Device(0, b""), E_NOTIMPL, b""),
    (Ask::Device(255, b"abc"), E_NOTIMPL, b""),
    (Ask::PeriodOf(0), E_NOTFOUND, b""),
    (Ask::PeriodOf(2), E_NOTFOUND, b""),
    (Ask::HangupOf(3), E_HANDLE, b""),
    (Ask::HangupOf(32), E_HANDLE, b""),
    (Ask::OpenAs(1, 12, b"other"), E_INVALIDARG, b""),
    (Ask::OpenAs(3, 0, b"other"), E_INVALIDARG, b""),
    (Ask::OpenAs(3, 12, b""), E_INVALIDARG, b""),
    (Ask::OpenAs(3, 12, NAME_65), E_INVALIDARG, b""),
    (Ask::OpenAs(3, 12, b"a b"), E_INVALIDARG, b""),
    (Ask::OpenAs(3, 12, b"a|b"), E_INVALIDARG, b""),
    (Ask::OpenAs(3, 12, b"*"), E_INVALIDARG, b""),
    (Ask::OpenAs(3, 12, b"\xc3\xbc"), E_INVALIDARG, b""),
    (Ask::OpenAs(3, 12, b"\xff"), E_INVALIDARG, b""),
];

#[test]
fn wrong_values_leave_no_trace(rt: HostRuntime) -> Result<(), Fail> {
    let alloc = rt.alloc();
    for (place, calls) in [
        (FREE, UNLEASED),
        (LEASED, WRONG_DATA),
        (LEASED, WRONG_VALUES),
        (BETWEEN, WRONG_VALUES),
    ] {
        let playing = Playing::new(alloc, place)?;
        assert!(rt; playing.goes_on(alloc, b"", b"")?);
        for (code, rest, result) in calls {
            assert!(rt; playing.refuses(alloc, 1, *code, &[ONE, rest], *result)?);
        }
    }
    Ok(())
}

#[test]
fn wrong_clients_leave_no_trace(rt: HostRuntime) -> Result<(), Fail> {
    let alloc = rt.alloc();
    let playing = Playing::new(alloc, LEASED)?;
    for (code, rest) in CLIENT_CALLS {
        assert!(rt; playing.refuses_strangers(alloc, *code, rest)?);
    }
    for (code, rest) in STREAM_CALLS {
        assert!(rt; playing.refuses_strangers(alloc, *code, rest)?);
        assert!(rt; playing.refuses(alloc, 1, *code, &[TWO, rest], NOT_INITIALIZED)?);
    }
    Ok(())
}

/// Whether a call is refused for each of the sessions that there aren't.
fn refuses_lost_sessions(
    playing: &Playing,
    alloc: Global,
    code: u8,
    rest: &[u8],
) -> Result<bool, Fail> {
    for number in &NO_SESSIONS {
        let session = number.to_le_bytes();
        if !playing.refuses(alloc, 1, code, &[&session, rest], E_NOTFOUND)? {
            return Ok(false);
        }
    }
    Ok(true)
}

#[test]
fn wrong_sessions_and_levels_leave_no_trace(rt: HostRuntime) -> Result<(), Fail> {
    let alloc = rt.alloc();
    let playing = Playing::new(alloc, LEASED)?;
    for (code, rest) in SESSION_CALLS {
        assert!(rt; refuses_lost_sessions(&playing, alloc, *code, rest)?);
        assert!(rt; playing.refuses(alloc, 3, *code, &[ONE, rest], E_HANDLE)?);
    }
    for (code, rest) in WRONG_LEVELS {
        assert!(rt; playing.refuses(alloc, 1, *code, &[ONE, rest, NO_CONTEXT], E_INVALIDARG)?);
    }
    for text in &NO_TEXTS {
        for code in [53, 54] {
            assert!(rt; playing.refuses(alloc, 1, code, &[ONE, NO_CONTEXT, text], E_INVALIDARG)?);
        }
    }
    Ok(())
}

#[test]
fn wrong_events_leave_no_trace(rt: HostRuntime) -> Result<(), Fail> {
    let alloc = rt.alloc();
    let playing = Playing::new(alloc, LEASED)?;
    for exchange in EVENTS {
        assert!(rt; playing.answers(alloc, exchange)?);
    }
    Ok(())
}
