//! Rows of calls on events (IAudioClient::SetEventHandle) and of SetExclusive, each worked out by hand.

use crate::exchanges::{Ask, Row, holds};
use crate::rows::{GET_480, NOT_STOPPED, ONE, PLAYED_480, S_FALSE, S_OK, SILENT_480};
use crate::session_rows::{E_INVALIDARG, E_NOTFOUND};
use crate::tests::{ACTIVATE, ADD, INITIALIZE, OPEN};
use std::test::Fail;

pub const EVENTHANDLE_NOT_EXPECTED: u32 = 0x8889_0011;

pub const EVENTHANDLE_NOT_SET: u32 = 0x8889_0014;

/// Initialize of client 1 with EVENTCALLBACK: shared, duration 0, the endpoint's format.
const BY_EVENTS: &[u8] =
    b"\x01\0\0\0\0\0\0\0\0\0\0\0\0\0\x04\0\0\0\0\0\0\0\0\0\0\0\0\0\0\0\0\0\x12\0\x01\0\x02\0\x80\xbb\0\0\0\xee\x02\0\x04\0\x10\0\0\0\0\0\0\0\0\0\0\0\0\0\0\0\0\0\0\0";

/// SetEventHandle of client 1: 0, 77 and 78.
pub const HANDLE_0: &[u8] = b"\x01\0\0\0\0\0\0\0\0\0\0\0\0\0\0\0";

pub const HANDLE_77: &[u8] = b"\x01\0\0\0\0\0\0\0\x4d\0\0\0\0\0\0\0";

const HANDLE_78: &[u8] = b"\x01\0\0\0\0\0\0\0\x4e\0\0\0\0\0\0\0";

/// TakeNotices of none, and what it tells: no event; client 1 with 77, and with 78. No notice was lost, none is told.
pub const TAKE_0: &[u8] = b"\0\0\0\0";

pub const NO_EVENT: &[u8] = b"\0\0\0\0\0\0\0\0\0\0\0\0\0\0\0\0";

pub const EVENT_77: &[u8] =
    b"\x01\0\0\0\x01\0\0\0\0\0\0\0\x4d\0\0\0\0\0\0\0\0\0\0\0\0\0\0\0\0\0\0\0";

const EVENT_78: &[u8] = b"\x01\0\0\0\x01\0\0\0\0\0\0\0\x4e\0\0\0\0\0\0\0\0\0\0\0\0\0\0\0\0\0\0\0";

/// SetExclusive of endpoint 1: neither, a value above 1 in each place; of an endpoint that isn't there.
const NEITHER: &[u8] = b"\x01\0\0\0\0\0";

const ALLOW_2: &[u8] = b"\x01\0\0\0\x02\0";

const PRIORITY_2: &[u8] = b"\x01\0\0\0\0\x02";

const NOWHERE: &[u8] = b"\x09\0\0\0\x01\x01";

/// A handle is needed to start, and only by a stream that is driven by events. A period sets the event, of no frames
/// too, and it is taken once, with the handle of that moment, by a call that takes no notice. Stop leaves it.
const ROWS: &[Row] = &[
    (
        &[ADD, OPEN, ACTIVATE, INITIALIZE],
        &[
            (Ask::Call(26, HANDLE_77), EVENTHANDLE_NOT_EXPECTED, b""),
            (Ask::Call(26, HANDLE_0), EVENTHANDLE_NOT_EXPECTED, b""),
            (Ask::Call(23, ONE), S_OK, b""),
            (Ask::Period, S_OK, PLAYED_480),
            (Ask::Call(9, TAKE_0), S_OK, NO_EVENT),
        ],
    ),
    (
        &[ADD, OPEN, ACTIVATE],
        &[
            (Ask::Call(16, BY_EVENTS), S_OK, ONE),
            (Ask::Call(23, ONE), EVENTHANDLE_NOT_SET, b""),
            (Ask::Call(26, HANDLE_0), E_INVALIDARG, b""),
            (Ask::Call(26, HANDLE_77), S_OK, b""),
            (Ask::Period, S_OK, PLAYED_480),
            (Ask::Call(9, TAKE_0), S_OK, NO_EVENT),
            (Ask::Call(23, ONE), S_OK, b""),
            (Ask::Call(23, ONE), NOT_STOPPED, b""),
            (Ask::Call(32, GET_480), S_OK, b""),
            (Ask::Call(33, SILENT_480), S_OK, b""),
            (Ask::Period, S_OK, PLAYED_480),
            (Ask::Call(9, TAKE_0), S_OK, EVENT_77),
            (Ask::Call(9, TAKE_0), S_OK, NO_EVENT),
            (Ask::Period, S_OK, PLAYED_480),
            (Ask::Call(24, ONE), S_OK, b""),
            (Ask::Call(24, ONE), S_FALSE, b""),
            (Ask::Call(26, HANDLE_78), S_OK, b""),
            (Ask::Call(9, TAKE_0), S_OK, EVENT_78),
            (Ask::Call(9, TAKE_0), S_OK, NO_EVENT),
        ],
    ),
    (
        &[ADD, OPEN, ACTIVATE, INITIALIZE],
        &[
            (Ask::Device(6, NOWHERE), E_NOTFOUND, b""),
            (Ask::Device(6, ALLOW_2), E_INVALIDARG, b""),
            (Ask::Device(6, PRIORITY_2), E_INVALIDARG, b""),
            (Ask::Device(6, NEITHER), S_OK, b""),
            (Ask::Call(23, ONE), S_OK, b""),
        ],
    ),
];

#[test]
fn each_row_of_events_has_its_replies(rt: HostRuntime) -> Result<(), Fail> {
    let alloc = rt.alloc();
    for row in ROWS {
        assert!(rt; holds(alloc, row)?);
    }
    Ok(())
}
