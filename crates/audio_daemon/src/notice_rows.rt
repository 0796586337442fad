//! What connections are told of what happens to endpoints and sessions, each worked out by hand.

ghost use Rattle.std.specs.Prelude.{◌≤◌, length};

use crate::endpoint_rows::{ADD_2, DEVICE_INVALIDATED, DISABLED_2, ENDPOINT_2, STARTED};
use crate::exchanges::{Ask, Exchange, Row, put};
use crate::rows::{GET_7, GET_480, ONE, S_OK, SILENT_7, SILENT_480, TWO};
use crate::run::Status;
use crate::session_rows::{ACTIVATE_2, E_INVALIDARG, E_NOTFOUND, FULL, OPEN_2};
use crate::tests::{ACTIVATE, ADD, INITIALIZE, OPEN, joined, replay};
use std::alloc::Global;
use std::test::Fail;

/// Register for devices, for session 1, for all sessions, and for a class that there isn't.
const DEVICES: &[u8] = b"\x01\0\0\0\0\0\0\0\0";

pub const SESSION_1: &[u8] = b"\x03\x01\0\0\0\0\0\0\0";

pub const ALL_SESSIONS: &[u8] = b"\x03\0\0\0\0\0\0\0\0";

const CLASS_7: &[u8] = b"\x07\0\0\0\0\0\0\0\0";

/// GetBuffer and a silent ReleaseBuffer of 480 frames of client 2.
const GET_480_OF_2: &[u8] = b"\x02\0\0\0\0\0\0\0\xe0\x01\0\0";

const SILENT_480_OF_2: &[u8] = b"\x02\0\0\0\0\0\0\0\xe0\x01\0\0\x02\0\0\0";

/// SetFormat of endpoint 1: the format that it has, in its extensible form; 44,100 Hz.
const EXTENSIBLE: &[u8] =
    b"\x01\0\0\0\x28\0\xfe\xff\x02\0\x80\xbb\0\0\0\xee\x02\0\x04\0\x10\0\x16\0\x10\0\x03\0\0\0\x01\0\0\0\0\0\
      \x10\0\x80\0\0\xaa\0\x38\x9b\x71";

const CD: &[u8] = b"\x01\0\0\0\x12\0\x01\0\x02\0\x44\xac\0\0\x10\xb1\x02\0\x04\0\x10\0\0\0";

/// SetMaster of session 1 to 5.
const FIVE: &[u8] = b"\x01\0\0\0\0\0\0\0\x05\0\0\0\0\0\0\0\0\0\0\0\0\0\0\0\0\0\0\0";

/// SetState of endpoint 1 to a state that there isn't.
const STATE_3: &[u8] = b"\x01\0\0\0\x03\0\0\0";

/// What comes first, what is asked then, and what connection 1 is told of it: the kind, the subject and the value of
/// each notice.
pub type Told = (Row, &'static [[u8; 3]]);

/// A format that matches, and one that doesn't; levels of a session; a session that becomes active, inactive and
/// expired.
const TOLD: &[Told] = &[
    (
        (
            STARTED,
            &[
                (Ask::Call(32, GET_7), S_OK, b""),
                (Ask::Call(33, SILENT_7), S_OK, b""),
                (Ask::Call(7, DEVICES), S_OK, ONE),
                (Ask::Device(4, EXTENSIBLE), S_OK, b""),
                (Ask::Call(19, ONE), S_OK, b"\x07\0\0\0"),
            ],
        ),
        &[[5, 1, 2]],
    ),
    (
        (
            STARTED,
            &[
                (Ask::Call(32, GET_7), S_OK, b""),
                (Ask::Call(33, SILENT_7), S_OK, b""),
                (Ask::Call(7, SESSION_1), S_OK, ONE),
                (Ask::Device(4, CD), S_OK, b""),
                (Ask::Call(19, ONE), DEVICE_INVALIDATED, b""),
            ],
        ),
        &[[7, 1, 2]],
    ),
    (
        (
            STARTED,
            &[
                (Ask::Call(7, SESSION_1), S_OK, ONE),
                (Ask::Call(50, FULL), S_OK, b""),
                (Ask::Call(50, FIVE), S_OK, b""),
            ],
        ),
        &[[9, 1, 10]],
    ),
    (
        (
            STARTED,
            &[
                (Ask::Call(7, SESSION_1), S_OK, ONE),
                (Ask::Call(23, ONE), S_OK, b""),
                (Ask::Call(24, ONE), S_OK, b""),
                (Ask::Call(6, ONE), S_OK, b""),
            ],
        ),
        &[[8, 1, 1], [8, 1, 0], [8, 1, 2]],
    ),
];

/// What is refused, in a service with endpoint 1 of which connection 1 is told all. Add has endpoint, flow, format and
/// name: endpoint 0; one that is there; a flow of 2; a format that is cut; a name that isn't UTF-8.
const REFUSED: Told = (
    (
        &[ADD, OPEN],
        &[
            (Ask::Call(7, DEVICES), S_OK, ONE),
            (
                Ask::Device(
                    1,
                    b"\0\0\0\0\0\x12\0\x01\0\x02\0\x80\xbb\0\0\0\xee\x02\0\x04\0\x10\0\0\0\x01\0x",
                ),
                E_INVALIDARG,
                b"",
            ),
            (
                Ask::Device(
                    1,
                    b"\x01\0\0\0\0\x12\0\x01\0\x02\0\x80\xbb\0\0\0\xee\x02\0\x04\0\x10\0\0\0\x01\0x",
                ),
                E_INVALIDARG,
                b"",
            ),
            (
                Ask::Device(
                    1,
                    b"\x02\0\0\0\x02\x12\0\x01\0\x02\0\x80\xbb\0\0\0\xee\x02\0\x04\0\x10\0\0\0\x01\0x",
                ),
                E_INVALIDARG,
                b"",
            ),
            (
                Ask::Device(
                    1,
                    b"\x02\0\0\0\0\x11\0\x01\0\x02\0\x80\xbb\0\0\0\xee\x02\0\x04\0\x10\0\0\x01\0x",
                ),
                E_INVALIDARG,
                b"",
            ),
            (
                Ask::Device(
                    1,
                    b"\x02\0\0\0\0\x12\0\x01\0\x02\0\x80\xbb\0\0\0\xee\x02\0\x04\0\x10\0\0\0\x01\0\xff",
                ),
                E_INVALIDARG,
                b"",
            ),
            (Ask::Device(2, STATE_3), E_INVALIDARG, b""),
            (Ask::Device(4, b"\x01\0\0\0\x01\0\0"), E_INVALIDARG, b""),
            (Ask::Device(5, b"\x01\x01\x01\0\0\0"), E_INVALIDARG, b""),
            (Ask::Device(5, b"\0\x03\x01\0\0\0"), E_INVALIDARG, b""),
            (Ask::Device(8, b"\x01\0\0\0\x01\0\xff"), E_INVALIDARG, b""),
            (Ask::Device(2, DISABLED_2), E_NOTFOUND, b""),
            (Ask::Device(3, ENDPOINT_2), E_NOTFOUND, b""),
            (Ask::Call(1, b"\x02\0\0\0\0"), E_INVALIDARG, b""),
            (Ask::Call(1, b"\x03\x0f\0\0\0"), E_INVALIDARG, b""),
            (Ask::Call(1, b"\x02\x10\0\0\0"), E_INVALIDARG, b""),
            (Ask::Call(2, b"\x02\0"), E_INVALIDARG, b""),
            (Ask::Call(2, b"\x01\0"), E_NOTFOUND, b""),
            (Ask::Call(7, CLASS_7), E_INVALIDARG, b""),
            (Ask::Call(8, TWO), E_NOTFOUND, b""),
            (
                Ask::Call(1, b"\x02\x0f\0\0\0"),
                S_OK,
                b"\x01\0\0\0\x01\0\0\0",
            ),
        ],
    ),
    &[],
);

/// The device of endpoint 1 fails while two clients play, and endpoint 2 becomes the default.
const FAILED: Told = (
    (
        &[ADD, ADD_2, OPEN, OPEN_2, ACTIVATE, ACTIVATE_2, INITIALIZE],
        &[
            (Ask::Initialize(2, 2, 0, 0), S_OK, TWO),
            (Ask::Call(32, GET_480), S_OK, b""),
            (Ask::Call(33, SILENT_480), S_OK, b""),
            (Ask::On(2, 32, GET_480_OF_2), S_OK, b""),
            (Ask::On(2, 33, SILENT_480_OF_2), S_OK, b""),
            (Ask::Call(23, ONE), S_OK, b""),
            (Ask::On(2, 23, TWO), S_OK, b""),
            (Ask::Call(7, DEVICES), S_OK, ONE),
            (Ask::Call(7, ALL_SESSIONS), S_OK, TWO),
            (Ask::Period, S_OK, b"\0\0\0\0\x01"),
        ],
    ),
    &[
        [3, 1, 4],
        [4, 0, 2],
        [4, 1, 2],
        [4, 2, 2],
        [7, 1, 0],
        [7, 2, 0],
        [8, 1, 0],
        [8, 2, 0],
    ],
);

/// Puts TakeNotices of at most 1,000 behind the input, and the reply that tells these behind the output.
fn put_taken(
    lost: u8,
    notices: &[[u8; 3]],
    input: &mut Vec<u8>,
    output: &mut Vec<u8>,
) -> Result<(), Fail>
    requires { length notices.now ≤ 256 }
{
    input.extend_from_slice(b"\x0b\0\0\0\x03\x01\x09\0\0\0\x09\xe8\x03\0\0")?;
    let size = 26 + notices.len() as u32 * 35;
    output.extend_from_slice(&size.to_le_bytes())?;
    output.extend_from_slice(b"\x03\x01\x09\0\0\0\0\0\0\0\0\0\0\0")?;
    output.extend_from_slice(&[lost, 0, 0, 0, 0, 0, 0, 0])?;
    output.extend_from_slice(&(notices.len() as u32).to_le_bytes())?;
    for [kind, subject, value] in notices {
        output.extend_from_slice(&[*kind, *subject, 0, 0, 0, 0, 0, 0, 0])?;
        output.extend_from_slice(&[0; 16])?;
        output.extend_from_slice(&[*value, 0, 0, 0, 0, 0, 0, 0, 0, 0])?;
    }
    Ok(())
}

/// Whether the row's replies are those that the program writes for it, and then connection 1 is told these notices, and
/// nothing more.
pub fn is_told(alloc: Global, told: &Told, devices: &[(u64, usize)]) -> Result<bool, Fail> {
    let ((first, exchanges), notices) = *told;
    let mut input = joined(alloc, first)?;
    let mut output = Vec::new(alloc);
    for exchange in exchanges {
        put(exchange, &mut input, &mut output)?;
    }
    put_taken(
        0,
        &notices[..notices.len().min(256)],
        &mut input,
        &mut output,
    )?;
    put_taken(0, &[], &mut input, &mut output)?;
    let got = replay(alloc, &input, &[], &[], devices)?;
    Ok(got.status == Status::Done && got.output.ends_with(&output))
}

#[test]
fn connections_are_told_what_changed(rt: HostRuntime) -> Result<(), Fail> {
    let alloc = rt.alloc();
    for told in TOLD {
        assert!(rt; is_told(alloc, told, &[])?);
    }
    Ok(())
}

#[test]
fn a_refusal_tells_nothing(rt: HostRuntime) -> Result<(), Fail> {
    assert!(rt; is_told(rt.alloc(), &REFUSED, &[])?);
    Ok(())
}

#[test]
fn a_device_that_fails_is_told(rt: HostRuntime) -> Result<(), Fail> {
    assert!(rt; is_told(rt.alloc(), &FAILED, &[(1, 0)])?);
    Ok(())
}

/// SetChannel of session 1, channel 0, to this level, and its reply.
fn put_level(level: u8, input: &mut Vec<u8>, output: &mut Vec<u8>) -> Result<(), Fail> {
    input.extend_from_slice(b"\x27\0\0\0\x03\x01\x09\0\0\0\x34\x01\0\0\0\0\0\0\0\0\0\0\0")?;
    input.extend_from_slice(&[level, 0, 0, 0])?;
    input.extend_from_slice(&[0; 16])?;
    output.extend_from_slice(b"\x0a\0\0\0\x03\x01\x09\0\0\0\0\0\0\0")?;
    Ok(())
}

#[test]
fn the_oldest_of_257_notices_is_lost(rt: HostRuntime) -> Result<(), Fail> {
    let alloc = rt.alloc();
    let mut input = joined(alloc, STARTED)?;
    let mut output = Vec::new(alloc);
    let register: Exchange = (Ask::Call(7, SESSION_1), S_OK, ONE);
    put(&register, &mut input, &mut output)?;
    put_level(0, &mut input, &mut output)?;
    let mut told = [[10, 1, 0]; 256];
    for i in 0..256 {
        let level = i as u8;
        put_level(level, &mut input, &mut output)?;
        told[i] = [10, 1, level];
    }
    put_taken(1, &told, &mut input, &mut output)?;
    put_taken(0, &[], &mut input, &mut output)?;
    let got = replay(alloc, &input, &[], &[], &[])?;
    assert_eq!(rt; got.status, Status::Done);
    assert!(rt; got.output.ends_with(&output));
    Ok(())
}
