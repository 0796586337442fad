//! Worked payloads, each function once.

ghost use Rattle.std.specs.Prelude.{◌≡◌, ◌≤◌, [], length, IfOk};
ghost use Rattle.ca_base.specs.declared.limits.TheConstants.{MAX_TEXT};
ghost use Rattle.reply_payload.specs.declared.payload.TheConstants.{REPLY_ROOM};

use super::*;
use ca_base::{Bytes, ClientNo, ConnNo, EndpointNo, Flow, Guid, Hr, NoMemory, Text};
use ca_machine::Client;
use device_registry::Endpoint;
use event_notices::Notice;
use session_manager::{SessionBook, SessionKey};
use std::alloc::Global;
use std::test::Fail;
use wave_format::Format;

/// 48,000 Hz with two channels.
const STEREO: Format = Format {
    channels: 2,
    rate: 48000,
    extensible: false,
    mask: 0,
};

/// An empty payload with memory for the longest one.
fn empty(alloc: Global) -> Result<Bytes, NoMemory>
    ensures list { IfOk result (λ out. out.list ≡ []) }
    ensures room { IfOk result (λ out. REPLY_ROOM ≤ out.capacity) }
{
    Bytes::with_capacity(alloc, REPLY_ROOM)
}

/// A notice with an empty or a short text.
fn notice(kind: u8, subject: u64, context: u128, value: u64, text: &[u8]) -> Notice
    requires { length text.now ≤ MAX_TEXT }
{
    Notice {
        kind,
        subject,
        context: Guid(context),
        value,
        text: Text::new(text),
    }
}

/// A client of a connection, with the handle of its event.
fn client(no: u64, conn: u8, handle: u64, flagged: bool) -> Client {
    Client {
        client: ClientNo(no),
        conn: ConnNo(conn),
        endpoint: EndpointNo(1),
        role: 0,
        levels: [65536; 4],
        handle,
        flagged,
    }
}

#[test]
fn ids_are_as_worked(rt: HostRuntime) {
    for (no, id) in [
        (1, b"endpoint-1".as_slice()),
        (10, b"endpoint-10"),
        (4294967295, b"endpoint-4294967295"),
    ] {
        assert!(rt; id_of(EndpointNo(no)).as_bytes() == id, "{no}");
    }
}

#[test]
fn an_endpoint_is_told(rt: HostRuntime) -> Result<(), Fail> {
    let line = Endpoint {
        no: EndpointNo(12),
        flow: Flow::Capture,
        state: 8,
        format: STEREO,
        name: Text::new(b"Line in"),
        allow: true,
        priority: false,
    };
    let mut out = empty(rt.alloc())?;
    put_endpoint(&line, &mut out);
    let bytes = [
        1, 8, 0, 0, 0, 1, 0, // flow, state, allow, priority
        18, 0, 1, 0, 2, 0, 128, 187, 0, 0, 0, 238, 2, 0, 4, 0, 16, 0, 0, 0, // format
        11, 0, 101, 110, 100, 112, 111, 105, 110, 116, 45, 49, 50, // endpoint-12
        7, 0, 76, 105, 110, 101, 32, 105, 110, // Line in
    ];
    assert_eq!(rt; out.as_slice(), bytes.as_slice());
    let mut out = empty(rt.alloc())?;
    put_endpoints(&[EndpointNo(1), EndpointNo(258)], &mut out);
    let numbers = [2, 0, 0, 0, 1, 0, 0, 0, 2, 1, 0, 0];
    assert_eq!(rt; out.as_slice(), numbers.as_slice());
    Ok(())
}

#[test]
fn notices_are_told(rt: HostRuntime) -> Result<(), Fail> {
    let notices = [
        notice(9, 3, 0x00112233_4455_6677_8899_AABBCCDDEEFF, 65536, b""),
        notice(11, 258, 9, 1, b"ab"),
    ];
    // The second client's event was taken, and the third is of another connection.
    let clients = [
        client(258, 7, 259, true),
        client(259, 7, 260, false),
        client(260, 8, 261, true),
        client(261, 7, 262, true),
    ];
    let mut out = empty(rt.alloc())?;
    put_notices(&clients, ConnNo(7), 513, &notices, &mut out);
    let bytes = [
        2, 0, 0, 0, // events
        2, 1, 0, 0, 0, 0, 0, 0, 3, 1, 0, 0, 0, 0, 0, 0, // client, handle
        5, 1, 0, 0, 0, 0, 0, 0, 6, 1, 0, 0, 0, 0, 0, 0, // client, handle
        1, 2, 0, 0, 0, 0, 0, 0, 2, 0, 0, 0, // lost, notices
        9, 3, 0, 0, 0, 0, 0, 0, 0, // kind, subject
        0, 17, 34, 51, 68, 85, 102, 119, 136, 153, 170, 187, 204, 221, 238, 255, // context
        0, 0, 1, 0, 0, 0, 0, 0, 0, 0, // value, text
        11, 2, 1, 0, 0, 0, 0, 0, 0, // kind, subject
        0, 0, 0, 0, 0, 0, 0, 0, 0, 0, 0, 0, 0, 0, 0, 9, // context
        1, 0, 0, 0, 0, 0, 0, 0, 2, 0, 97, 98, // value, text
    ];
    assert_eq!(rt; out.as_slice(), bytes.as_slice());
    Ok(())
}

#[test]
fn payloads_are_put(rt: HostRuntime) -> Result<(), Fail> {
    let failed = Payload::Period {
        frames: 480,
        failed: true,
    };
    let format = [
        18, 0, 1, 0, 2, 0, 128, 187, 0, 0, 0, 238, 2, 0, 4, 0, 16, 0, 0, 0,
    ];
    for (payload, code, bytes) in [
        (Payload::Nothing, Hr::S_OK, [].as_slice()),
        (Payload::Number(258), Hr::S_OK, &[2, 1, 0, 0]),
        (Payload::Long(258), Hr::S_OK, &[2, 1, 0, 0, 0, 0, 0, 0]),
        (
            Payload::Longs(1, 2),
            Hr::S_OK,
            &[1, 0, 0, 0, 0, 0, 0, 0, 2, 0, 0, 0, 0, 0, 0, 0],
        ),
        (Payload::Format(STEREO), Hr::S_OK, &format),
        (Payload::Closest(STEREO), Hr::S_FALSE, &format),
        (failed, Hr::S_OK, &[224, 1, 0, 0, 1]),
    ] {
        let mut out = empty(rt.alloc())?;
        payload.put(&mut out);
        assert_eq!(rt; out.as_slice(), bytes);
        assert_eq!(rt; payload.code(), code);
        assert_eq!(rt; payload.is_failure(), payload == failed);
    }
    Ok(())
}

#[test]
fn sessions_are_told(rt: HostRuntime) -> Result<(), Fail> {
    let mut book = SessionBook::new(rt.alloc())?;
    let key = SessionKey {
        endpoint: EndpointNo(258),
        process: 7,
        guid: Guid(0),
        name: Text::new(b"p"),
    };
    book.check_join(&key)?;
    let no = book.join(&key, None, true, 2);
    let session = book.get(no).ok_or("session")?;
    let mut out = empty(rt.alloc())?;
    put_session(session, 1, &mut out);
    let numbers = [
        2, 1, 0, 0, 7, 0, 0, 0, 1, // endpoint, process, state
        0, 0, 1, 0, 0, // level, mute
        2, 0, 0, 0, 0, 0, 1, 0, 0, 0, 1, 0, // levels of channels
        0, 0, 1, 0, 0, // level of ducking, opting out
        0, 0, 0, 0, 0, 0, 0, 0, 0, 0, 0, 0, 0, 0, 0, 0, // grouping
    ];
    let identifier = b"endpoint-258|p|00000000-0000-0000-0000-000000000000";
    let mut bytes = Vec::from_slice(rt.alloc(), &numbers)?;
    bytes.extend_from_slice(&[51, 0])?;
    bytes.extend_from_slice(identifier)?;
    bytes.extend_from_slice(&[53, 0])?;
    bytes.extend_from_slice(identifier)?;
    bytes.extend_from_slice(b"|7")?;
    bytes.extend_from_slice(&[0, 0, 0, 0])?; // display name, icon
    assert!(rt; out.as_slice() == bytes.as_slice());
    let mut out = empty(rt.alloc())?;
    put_sessions_of(&book, EndpointNo(258), &mut out);
    let listed = [1, 0, 0, 0, 1, 0, 0, 0, 0, 0, 0, 0];
    assert_eq!(rt; out.as_slice(), listed.as_slice());
    Ok(())
}

#[test]
fn a_packet_is_told(rt: HostRuntime) -> Result<(), Fail> {
    let words = [0x0004_0003_0002_fffb_u64, 0x0104_0103_0102_0101];
    let frames = [
        251, 255, 2, 0, 3, 0, 4, 0, // -5, 2, 3, 4
        1, 1, 2, 1, 3, 1, 4, 1, // 257, 258, 259, 260
    ];
    for (channels, follows_gap, flags) in [
        (1, true, 1),
        (2, false, 0),
        (3, true, 1),
        (4, false, 0),
    ] {
        let mut out = empty(rt.alloc())?;
        put_packet_head(2, follows_gap, 1920, &mut out);
        add_frames(&words, channels, &mut out);
        let head = [2, 0, 0, 0, flags, 0, 0, 0, 128, 7, 0, 0, 0, 0, 0, 0];
        let size = channels as usize * 2;
        assert_eq!(rt; out.len(), 16 + 2 * size);
        assert!(rt; out.as_slice()[..16] == head[..]);
        assert!(rt;
            out.as_slice()[16..16 + size] == frames[..size],
            "{channels}"
        );
        assert!(rt;
            out.as_slice()[16 + size..] == frames[8..8 + size],
            "{channels}"
        );
    }
    Ok(())
}

#[test]
fn more_frames_than_a_batch_are_added(rt: HostRuntime) -> Result<(), Fail> {
    let mut words = [0; 200];
    for place in 0..words.len() {
        words[place] = place as u64;
    }
    let mut out = empty(rt.alloc())?;
    add_frames(&words, 2, &mut out);
    assert_eq!(rt; out.len(), 800);
    for place in [0_u8, 63, 64, 127, 128, 199] {
        let at = place as usize * 4;
        let frame = [place, 0, 0, 0];
        assert!(rt; out.as_slice()[at..at + 4] == frame[..], "{place}");
    }
    Ok(())
}
