//! Rows of calls and events on endpoints, each worked out by hand.

use crate::exchanges::{Ask, Row, holds};
use crate::rows::{ACTIVATE_1, E_HANDLE, ONE, S_OK, TWO};
use crate::run::Status;
use crate::session_rows::E_NOTFOUND;
use crate::tests::{ACTIVATE, ADD, INITIALIZE, OPEN, replay};
use std::test::Fail;

pub const DEVICE_INVALIDATED: u32 = 0x8889_0004;

const SERVICE_NOT_RUNNING: u32 = 0x8889_0010;

const ENDPOINTS_FULL: u32 = 0xa004_0004;

/// Add of endpoint 2, `Headset`, with the format of endpoint 1.
pub const ADD_2: &[u8] =
    b"\x24\0\0\0\x05\x01\x02\0\0\0\0\x12\0\x01\0\x02\0\x80\xbb\0\0\0\xee\x02\0\x04\0\x10\0\0\0\x07\0Headset";

/// SetState of endpoint 1: UNPLUGGED and ACTIVE; of endpoint 2: DISABLED.
const UNPLUGGED: &[u8] = b"\x01\0\0\0\x08\0\0\0";

const ACTIVE: &[u8] = b"\x01\0\0\0\x01\0\0\0";

pub const DISABLED_2: &[u8] = b"\x02\0\0\0\x02\0\0\0";

/// The default of render, multimedia: GetDefault, and SetDefault to endpoint 2.
const MULTIMEDIA: &[u8] = b"\0\x01";

const CHOOSE_2: &[u8] = b"\0\x01\x02\0\0\0";

/// Numbers of endpoints.
const ENDPOINT_1: &[u8] = b"\x01\0\0\0";

pub const ENDPOINT_2: &[u8] = b"\x02\0\0\0";

pub const STARTED: &[&[u8]] = &[ADD, OPEN, ACTIVATE, INITIALIZE];

/// Defaults; a device that is pulled and comes back; the shutdown.
const ROWS: &[Row] = &[
    (
        &[ADD, ADD_2, OPEN],
        &[
            (Ask::Device(5, CHOOSE_2), S_OK, b""),
            (Ask::Call(2, MULTIMEDIA), S_OK, ENDPOINT_2),
            (Ask::Device(2, DISABLED_2), S_OK, b""),
            (Ask::Call(2, MULTIMEDIA), S_OK, ENDPOINT_1),
        ],
    ),
    (
        STARTED,
        &[
            (Ask::Device(2, UNPLUGGED), S_OK, b""),
            (Ask::Call(17, ONE), DEVICE_INVALIDATED, b""),
            (Ask::Call(5, ACTIVATE_1), DEVICE_INVALIDATED, b""),
            (Ask::Device(2, ACTIVE), S_OK, b""),
            (Ask::Call(17, ONE), DEVICE_INVALIDATED, b""),
            (Ask::Call(6, ONE), S_OK, b""),
            (Ask::Call(5, ACTIVATE_1), S_OK, TWO),
            (Ask::Initialize(1, 2, 0, 0), S_OK, TWO),
        ],
    ),
    (
        STARTED,
        &[
            (Ask::Shutdown, S_OK, b""),
            (Ask::Call(19, ONE), SERVICE_NOT_RUNNING, b""),
            (Ask::Call(23, ONE), SERVICE_NOT_RUNNING, b""),
            (Ask::Shutdown, SERVICE_NOT_RUNNING, b""),
            (Ask::Call(9, b"\x0a\0\0\0"), S_OK, &[0; 16]),
            (Ask::Call(6, ONE), S_OK, b""),
            (Ask::Call(6, ONE), E_HANDLE, b""),
        ],
    ),
    (
        &[ADD, ADD_2, OPEN],
        &[
            (
                Ask::Call(1, b"\x02\x0f\0\0\0"),
                S_OK,
                b"\x02\0\0\0\x01\0\0\0\x02\0\0\0",
            ),
            (Ask::Call(3, b"\x0a\0endpoint-2"), S_OK, ENDPOINT_2),
            (Ask::Call(3, b"\x0a\0endpoint-3"), E_NOTFOUND, b""),
            (
                Ask::Call(4, ENDPOINT_2),
                S_OK,
                b"\0\x01\0\0\0\x01\x01\x12\0\x01\0\x02\0\x80\xbb\0\0\0\xee\x02\0\x04\0\x10\0\0\0\x0a\0endpoint-\
                  2\x07\0Headset",
            ),
            (Ask::Device(3, ENDPOINT_2), S_OK, b""),
            (Ask::Call(4, ENDPOINT_2), E_NOTFOUND, b""),
            (
                Ask::Call(1, b"\x02\x0f\0\0\0"),
                S_OK,
                b"\x01\0\0\0\x01\0\0\0",
            ),
        ],
    ),
];

#[test]
fn each_row_of_endpoints_has_its_replies(rt: HostRuntime) -> Result<(), Fail> {
    let alloc = rt.alloc();
    for row in ROWS {
        assert!(rt; holds(alloc, row)?);
    }
    Ok(())
}

/// Add of this endpoint, as endpoint 2 but with its number.
fn put_add(n: u8, input: &mut Vec<u8>) -> Result<(), Fail> {
    input.extend_from_slice(&ADD_2[..6])?;
    input.extend_from_slice(&[n])?;
    input.extend_from_slice(&ADD_2[7..])?;
    Ok(())
}

#[test]
fn the_ninth_endpoint_is_refused(rt: HostRuntime) -> Result<(), Fail> {
    let alloc = rt.alloc();
    let mut input = Vec::new(alloc);
    for n in 1..10 {
        put_add(n, &mut input)?;
    }
    let got = replay(alloc, &input, &[], &[], &[])?;
    assert_eq!(rt; got.status, Status::Done);
    let mut refused = Vec::from_array(alloc, [10, 0, 0, 0, 5, 0, 0, 0, 0, 0])?;
    refused.extend_from_slice(&ENDPOINTS_FULL.to_le_bytes())?;
    assert!(rt; got.output.ends_with(&refused));
    Ok(())
}
