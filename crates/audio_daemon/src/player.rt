//! A stream that plays loud frames, and what is refused meanwhile: it plays on as if that had not come.

use crate::exchanges::{Ask, Exchange, put, put_call, put_reply};
use crate::heard_rows::{Frames, GET_1_OF_3, LOUD, LOUDER, SILENCE, THREE, bytes_of};
use crate::notice_rows::ALL_SESSIONS;
use crate::rows::{
    ACTIVATE_1, E_HANDLE, GET_7, GET_480, INVALID_SIZE, NO_PADDING, ONE, PLAYED_480, S_FALSE, S_OK,
    TWO,
};
use crate::run::Status;
use crate::session_rows::{ACTIVATE_2, ENDPOINT, NEW, OPEN_2, RIGHT};
use crate::tests::{ACTIVATE, ADD, INITIALIZE, OPEN, joined, replay};
use std::alloc::Global;
use std::test::Fail;

/// Client 1 has a stream, clients 2 and 4 have none as yet, and client 3 is one of connection 2.
const FIRST: &[&[u8]] = &[
    ADD, OPEN, OPEN_2, ACTIVATE, ACTIVATE, ACTIVATE_2, ACTIVATE, INITIALIZE,
];

/// Client 5, once the four have come.
const FIVE: &[u8] = b"\x05\0\0\0\0\0\0\0";

/// GetStreamLevel of clients 1 and 3, channel 0; and a level that changes nothing.
const LEFT: &[u8] = b"\x01\0\0\0\0\0\0\0\0\0\0\0";

const LEFT_OF_3: &[u8] = b"\x03\0\0\0\0\0\0\0\0\0\0\0";

const WHOLE: &[u8] = b"\0\0\x01\0";

/// GetPosition of 487 frames that were rendered, at 48,000 Hz.
const POSITION_487: &[u8] = b"\xe7\x01\0\0\0\0\0\0\x80\xbb\0\0\0\0\0\0";

/// The list of sessions 1 and 2.
const SESSIONS_1_2: &[u8] = b"\x02\0\0\0\x01\0\0\0\0\0\0\0\x02\0\0\0\0\0\0\0";

/// The longest name of a connection.
const NAME_64: &[u8] = &[b'a'; 64];

/// How client 1 plays 480 frames, and then 7 frames. What follows shows that nothing was left by a refusal.
const PLAYS: &[Exchange] = &[
    (Ask::Initialize(2, 3, 0, 0), S_OK, TWO),
    (Ask::Initialize(1, 4, 0, 0), S_OK, ONE),
    (Ask::Call(6, b"\x04\0\0\0\0\0\0\0"), S_OK, b""),
    (Ask::Call(32, GET_480), S_OK, b""),
    (Ask::Frames(1, 480, 0, LOUD), S_OK, b""),
    (Ask::Call(23, ONE), S_OK, b""),
    (Ask::Call(7, ALL_SESSIONS), S_OK, ONE),
    (Ask::Call(32, GET_7), S_OK, b""),
    (Ask::Frames(1, 8, 0, LOUDER), INVALID_SIZE, b""),
    (Ask::Frames(1, 7, 0, LOUDER), S_OK, b""),
    (Ask::Call(19, ONE), S_OK, b"\xe7\x01\0\0"),
    (Ask::Period, S_OK, PLAYED_480),
    (Ask::Call(19, ONE), S_OK, b"\x07\0\0\0"),
    (Ask::Period, S_OK, PLAYED_480),
    (Ask::Call(28, ONE), S_OK, POSITION_487),
    (Ask::Call(9, b"\xe8\x03\0\0"), S_OK, &[0; 16]),
    (Ask::Call(24, ONE), S_OK, b""),
    (Ask::Call(49, ONE), S_OK, NEW),
    (Ask::Call(29, LEFT), S_OK, WHOLE),
    (Ask::Call(29, RIGHT), S_OK, WHOLE),
    (Ask::Call(48, ENDPOINT), S_OK, SESSIONS_1_2),
    (Ask::Initialize(1, 2, 0, 2), S_OK, THREE),
    (Ask::On(2, 19, THREE), S_OK, NO_PADDING),
    (Ask::On(2, 24, THREE), S_FALSE, b""),
    (Ask::On(2, 29, LEFT_OF_3), S_OK, WHOLE),
    (Ask::On(2, 32, GET_1_OF_3), S_OK, b""),
    (Ask::On(2, 6, THREE), S_OK, b""),
    (Ask::Call(5, ACTIVATE_1), S_OK, FIVE),
    (Ask::OpenAs(3, 12, NAME_64), S_OK, b""),
];

/// Places in it where the stream runs: before the second GetBuffer; after it, with a lease of 7 frames; and between the
/// periods, with a padding of 7 frames.
pub const FREE: usize = 7;

pub const LEASED: usize = 8;

pub const BETWEEN: usize = 12;

/// What the device gets of it.
const SOUND: &[Frames] = &[(480, LOUD), (7, LOUDER), (473, SILENCE)];

/// Numbers of a client of another connection, of one that was released, and of none that there ever was.
const NO_CLIENTS: [u64; 5] = [3, 4, 0, 99, u64::MAX];

/// A stream that plays: the events before a place and after it, the replies to both, and what the device gets.
#[derive(Drop)]
pub struct Playing {
    before: Vec<u8>,
    after: Vec<u8>,
    early: Vec<u8>,
    late: Vec<u8>,
    device: Vec<u8>,
}

impl Playing {
    pub fn new(alloc: Global, place: usize) -> Result<Playing, Fail> {
        let mut before = joined(alloc, FIRST)?;
        let mut after = Vec::new(alloc);
        let mut early = Vec::new(alloc);
        let mut late = Vec::new(alloc);
        for (i, exchange) in PLAYS.iter().enumerate() {
            if i < place {
                put(exchange, &mut before, &mut early)?;
            } else {
                put(exchange, &mut after, &mut late)?;
            }
        }
        let device = bytes_of(alloc, SOUND)?;
        Ok(Playing {
            before,
            after,
            early,
            late,
            device,
        })
    }

    /// Whether an event at the place has this reply, and all else is as if it had not come.
    pub fn goes_on(&self, alloc: Global, event: &[u8], reply: &[u8]) -> Result<bool, Fail> {
        let input = joined(alloc, &[&self.before, event, &self.after])?;
        let output = joined(alloc, &[&self.early, reply, &self.late])?;
        let got = replay(alloc, &input, &[], &[], &[])?;
        Ok(
            got.status == Status::Done
                && got.output.ends_with(&output)
                && got.device.as_slice() == self.device.as_slice(),
        )
    }

    /// The same of an exchange.
    pub fn answers(&self, alloc: Global, exchange: &Exchange) -> Result<bool, Fail> {
        let mut event = Vec::new(alloc);
        let mut reply = Vec::new(alloc);
        put(exchange, &mut event, &mut reply)?;
        self.goes_on(alloc, &event, &reply)
    }

    /// The same of a call whose fields are these, joined.
    pub fn replies(
        &self,
        alloc: Global,
        conn: u8,
        call: u8,
        fields: &[&[u8]],
        code: u32,
        payload: &[u8],
    ) -> Result<bool, Fail> {
        let fields = joined(alloc, fields)?;
        let mut event = Vec::new(alloc);
        let mut reply = Vec::new(alloc);
        let head = put_call(conn, call, &fields, &mut event)?;
        put_reply(head, code, payload, &mut reply)?;
        self.goes_on(alloc, &event, &reply)
    }

    /// The same of a call that is refused.
    pub fn refuses(
        &self,
        alloc: Global,
        conn: u8,
        call: u8,
        fields: &[&[u8]],
        code: u32,
    ) -> Result<bool, Fail> {
        self.replies(alloc, conn, call, fields, code, b"")
    }

    /// The same of a call whose client isn't one of its connection, or whose connection isn't open.
    pub fn refuses_strangers(&self, alloc: Global, call: u8, rest: &[u8]) -> Result<bool, Fail> {
        for number in &NO_CLIENTS {
            let client = number.to_le_bytes();
            if !self.refuses(alloc, 1, call, &[&client, rest], E_HANDLE)? {
                return Ok(false);
            }
        }
        for conn in [2, 3] {
            if !self.refuses(alloc, conn, call, &[ONE, rest], E_HANDLE)? {
                return Ok(false);
            }
        }
        Ok(true)
    }
}
