use super::*;
use ca_base::{Bytes, Guid, Hr, Text};
use event_notices::Notice;
use std::test::*;

/// A Period of endpoint 1.
const PERIOD: [u8; 9] = [5, 0, 0, 0, 4, 1, 0, 0, 0];

/// Its reply: S_OK, 480 frames, and no device call that failed.
const REPLY: [u8; 19] = [15, 0, 0, 0, 4, 0, 0, 0, 0, 0, 0, 0, 0, 0, 224, 1, 0, 0, 0];

/// Initialize on connection 2 with tag 7: client 3, shared, one second, 48,000 Hz with two channels.
const INITIALIZE: [u8; 79] = [
    75, 0, 0, 0, 3, 2, 7, 0, 0, 0, 16, // the call
    3, 0, 0, 0, 0, 0, 0, 0, 0, 0, 0, 0, 0, 0, 0, 0, // client, share, flags
    128, 150, 152, 0, 0, 0, 0, 0, 0, 0, 0, 0, 0, 0, 0, 0, // duration, period
    18, 0, 1, 0, 2, 0, 128, 187, 0, 0, 0, 238, 2, 0, 4, 0, 16, 0, 0, 0, // format
    0, 17, 34, 51, 68, 85, 102, 119, 136, 153, 170, 187, 204, 221, 238, 255, // session
];

/// Calls that take no memory: their codes, and the lengths of their bodies if a text is empty.
const CALLS: [(u8, u8); 34] = [
    (1, 12),
    (2, 9),
    (3, 9),
    (4, 11),
    (5, 12),
    (6, 15),
    (7, 16),
    (8, 15),
    (9, 11),
    (10, 11),
    (17, 15),
    (18, 15),
    (19, 15),
    (21, 15),
    (22, 15),
    (23, 15),
    (24, 15),
    (25, 15),
    (27, 19),
    (28, 15),
    (29, 19),
    (30, 23),
    (32, 19),
    (34, 15),
    (35, 15),
    (36, 19),
    (48, 11),
    (49, 15),
    (50, 35),
    (51, 32),
    (52, 39),
    (53, 33),
    (54, 33),
    (55, 47),
];

/// Device events: their codes, and the lengths of their bodies if formats and texts are empty.
const DEVICE_EVENTS: [(u8, u8); 6] = [(1, 11), (2, 10), (3, 6), (4, 8), (5, 8), (8, 8)];

fn frame_of(rt: HostRuntime, body: &[u8]) -> Result<Vec<u8>, Fail> {
    let length = u32::try_from(body.len())
        .ok()
        .ok_or("a body whose length fits")?;
    let mut frame = Vec::new(rt.alloc());
    frame.extend_from_slice(&length.to_le_bytes())?;
    frame.extend_from_slice(body)?;
    Ok(frame)
}

fn body_is_malformed(rt: HostRuntime, body: &[u8]) -> Result<bool, Fail> {
    let frame = frame_of(rt, body)?;
    Ok(matches!(next_event(rt.alloc(), &frame), Ok(Step::Malformed)))
}

#[test]
fn a_period_is_read(rt: HostRuntime) -> Result<(), Fail> {
    let Step::Event { event, used } = next_event(rt.alloc(), &PERIOD).ok().ok_or("memory")? else {
        return Err("the bytes are an event".into());
    };
    assert_eq!(rt; used, 9);
    let Event::Period { endpoint } = event else {
        return Err("the event is a Period".into());
    };
    assert_eq!(rt; endpoint.0, 1);
    Ok(())
}

#[test]
fn an_initialize_is_read(rt: HostRuntime) -> Result<(), Fail> {
    let step = next_event(rt.alloc(), &INITIALIZE).ok().ok_or("memory")?;
    let Step::Event { event, used } = step else {
        return Err("the bytes are an event".into());
    };
    assert_eq!(rt; used, 79);
    let Event::Call { conn, tag, call } = event else {
        return Err("the event is a Call".into());
    };
    assert_eq!(rt; (conn.0, tag), (2, 7));
    let Call::Initialize {
        client,
        duration,
        format,
        session,
        ..
    } = call
    else {
        return Err("the call is Initialize".into());
    };
    assert_eq!(rt; (client.0, duration), (3, 10_000_000));
    assert_eq!(rt; format.as_slice(), &INITIALIZE[45..63]);
    assert_eq!(rt; session.0, 0x0011_2233_4455_6677_8899_aabb_ccdd_eeff);
    Ok(())
}

#[test]
fn a_code_that_is_not_listed_is_read(rt: HostRuntime) -> Result<(), Fail> {
    let bytes = [9, 0, 0, 0, 3, 32, 1, 0, 0, 0, 0, 8, 9, 255];
    let step = next_event(rt.alloc(), &bytes).ok().ok_or("memory")?;
    let Step::Event { event, used } = step else {
        return Err("the bytes are an event".into());
    };
    assert_eq!(rt; used, 13);
    let Event::Call { call, .. } = event else {
        return Err("the event is a Call".into());
    };
    let Call::Other { code, rest } = call else {
        return Err("the code is not listed".into());
    };
    assert_eq!(rt; code, 0);
    assert_eq!(rt; rest.as_slice(), [8, 9].as_slice());
    Ok(())
}

#[test]
fn a_hang_up_is_read(rt: HostRuntime) -> Result<(), Fail> {
    let bytes = [2, 0, 0, 0, 2, 32, 255];
    let step = next_event(rt.alloc(), &bytes).ok().ok_or("memory")?;
    let Step::Event { event, used } = step else {
        return Err("the bytes are an event".into());
    };
    assert_eq!(rt; used, 6);
    let Event::Hangup { conn } = event else {
        return Err("the event is a hang-up".into());
    };
    assert_eq!(rt; conn.0, 32);
    Ok(())
}

/// Whether a head, with zeros behind it to this length, is the body of an event whose code is listed, and is malformed
/// with a byte more or a byte less.
fn has_length(rt: HostRuntime, head: &[u8], length: u8) -> Result<bool, Fail> {
    let mut body = Vec::new(rt.alloc());
    body.extend_from_slice(head)?;
    for _ in head.len()..usize::from(length) {
        body.push(0)?;
    }
    let frame = frame_of(rt, &body)?;
    let step = next_event(rt.alloc(), &frame).ok().ok_or("memory")?;
    let listed = match step {
        Step::Event { event, .. } => match event {
            Event::Call { call, .. } => !matches!(call, Call::Other { .. }),
            Event::Device { event } => !matches!(event, DeviceEvent::Other { .. }),
            _ => true,
        },
        _ => false,
    };
    body.push(0)?;
    let longer = body_is_malformed(rt, &body)?;
    body.pop();
    body.pop();
    Ok(listed && longer && body_is_malformed(rt, &body)?)
}

#[test]
fn calls_that_take_no_memory_are_read(rt: HostRuntime) -> Result<(), Fail> {
    for (code, length) in CALLS {
        let head = [3, 1, 2, 0, 0, 0, code];
        assert!(rt; has_length(rt, &head, length)?, "code {code}");
    }
    Ok(())
}

#[test]
fn device_events_are_read(rt: HostRuntime) -> Result<(), Fail> {
    for (code, length) in DEVICE_EVENTS {
        assert!(rt; has_length(rt, &[5, code], length)?, "code {code}");
    }
    Ok(())
}

#[test]
fn a_shutdown_is_read(rt: HostRuntime) -> Result<(), Fail> {
    let bytes = [1, 0, 0, 0, 7, 255];
    let step = next_event(rt.alloc(), &bytes).ok().ok_or("memory")?;
    let Step::Event { event, used } = step else {
        return Err("the bytes are an event".into());
    };
    assert_eq!(rt; used, 5);
    assert!(rt; matches!(event, Event::Shutdown));
    assert!(rt; body_is_malformed(rt, &[7, 0])?, "a byte too long");
    Ok(())
}

#[test]
fn an_incomplete_prefix_needs_more(rt: HostRuntime) {
    for len in 0..PERIOD.len() {
        let step = next_event(rt.alloc(), &PERIOD[..len]);
        assert!(rt; matches!(step, Ok(Step::NeedMore)), "at {len}");
    }
    let longest = next_event(rt.alloc(), &[0, 0, 64, 0]);
    assert!(rt; matches!(longest, Ok(Step::NeedMore)));
}

#[test]
fn an_invalid_length_is_malformed(rt: HostRuntime) {
    let nothing = next_event(rt.alloc(), &[0, 0, 0, 0]);
    assert!(rt; matches!(nothing, Ok(Step::Malformed)));
    let too_long = next_event(rt.alloc(), &[1, 0, 64, 0]);
    assert!(rt; matches!(too_long, Ok(Step::Malformed)));
}

#[test]
fn bodies_of_no_event_are_malformed(rt: HostRuntime) -> Result<(), Fail> {
    let unknown = [0, 6, 8, 255];
    for kind in unknown {
        assert!(rt; body_is_malformed(rt, &[kind])?, "kind {kind}");
        assert!(rt; body_is_malformed(rt, &[kind, 1])?, "kind {kind} of one");
    }
    assert!(rt;
        body_is_malformed(rt, &[1, 0, 9, 0, 0, 0, 0, 0])?,
        "connection 0"
    );
    assert!(rt;
        body_is_malformed(rt, &[1, 33, 9, 0, 0, 0, 0, 0])?,
        "connection 33"
    );
    assert!(rt; body_is_malformed(rt, &[4, 1, 0, 0])?, "a byte too short");
    assert!(rt;
        body_is_malformed(rt, &[4, 1, 0, 0, 0, 0])?,
        "a byte too long"
    );
    assert!(rt; body_is_malformed(rt, &[2])?, "a hang-up of no connection");
    Ok(())
}

/// Whether a head with a text of `length` bytes behind it is malformed.
fn text_is_malformed(rt: HostRuntime, head: &[u8], length: u16) -> Result<bool, Fail> {
    let mut body = Vec::new(rt.alloc());
    body.extend_from_slice(head)?;
    body.extend_from_slice(&length.to_le_bytes())?;
    for _ in 0..length {
        body.push(97)?;
    }
    body_is_malformed(rt, &body)
}

#[test]
fn a_text_has_at_most_256_bytes(rt: HostRuntime) -> Result<(), Fail> {
    let heads = [
        [1, 1, 9, 0, 0, 0].as_slice(), // Open
        &[3, 1, 2, 0, 0, 0, 3], // GetDevice
        &[5, 8, 1, 0, 0, 0], // SetName
    ];
    for head in heads {
        assert!(rt; !text_is_malformed(rt, head, 256)?, "kind {}", head[0]);
        assert!(rt; text_is_malformed(rt, head, 257)?, "kind {}", head[0]);
    }
    Ok(())
}

#[test]
fn a_reply_is_written(rt: HostRuntime) -> Result<(), Fail> {
    let payload = Bytes::from_slice(rt.alloc(), &REPLY[14..])
        .ok()
        .ok_or("memory")?;
    let reply = Reply {
        kind: 4,
        conn: 0,
        tag: 0,
        result: Hr(0),
        payload,
    };
    let mut out = Bytes::new(rt.alloc());
    write_reply(&reply, &mut out).ok().ok_or("memory")?;
    assert_eq!(rt; out.as_slice(), REPLY.as_slice());
    Ok(())
}

#[test]
fn a_notice_is_written(rt: HostRuntime) -> Result<(), Fail> {
    let notice = Notice {
        kind: 11,
        subject: 258,
        context: Guid(0x00112233_4455_6677_8899_AABBCCDDEEFF),
        value: 3,
        text: Text::new(b"abc"),
    };
    let mut out = Bytes::from_slice(rt.alloc(), &[200])?;
    write_notice(&notice, &mut out)?;
    let bytes = [
        200, 11, 2, 1, 0, 0, 0, 0, 0, 0, // the byte ahead, kind, subject
        0, 17, 34, 51, 68, 85, 102, 119, 136, 153, 170, 187, 204, 221, 238, 255, // context
        3, 0, 0, 0, 0, 0, 0, 0, 3, 0, 97, 98, 99, // value, text
    ];
    assert_eq!(rt; out.as_slice(), bytes.as_slice());
    Ok(())
}
