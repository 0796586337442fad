//! Worked steps: what was noted before them and after them, and what is told.

use super::*;
use ca_base::limits::{CLIENTS, ENDPOINTS, SESSIONS};
use ca_base::{ClientNo, EndpointNo, Gate, Reason, SessionNo};
use event_notices::Notice;
use std::alloc::{AllocError, Global};
use std::test::Fail;

/// What is noted: each endpoint and its state, the defaults, each session and its endpoint, and each client with its
/// session, whether its stream runs, and its gate.
#[derive(Clone, Copy)]
struct Moment {
    endpoints: &'static [(u32, u32)],
    defaults: [u32; DEFAULTS],
    sessions: &'static [(u64, u32)],
    streams: &'static [(u64, u64, bool, Gate)],
}

fn note_endpoints(n: &mut Noted, m: &Moment) {
    for (no, state) in m.endpoints.iter() {
        if n.endpoints().len() < ENDPOINTS {
            n.note_endpoint(NotedEndpoint {
                no: EndpointNo(*no),
                state: *state,
            });
        }
    }
}

fn note_defaults(n: &mut Noted, m: &Moment) {
    for place in 0..DEFAULTS {
        n.note_default(place, m.defaults[place]);
    }
}

fn note_sessions(n: &mut Noted, m: &Moment) {
    for (no, endpoint) in m.sessions.iter() {
        if n.sessions().len() < SESSIONS {
            n.note_session(NotedSession {
                no: SessionNo(*no),
                endpoint: EndpointNo(*endpoint),
            });
        }
    }
}

fn note_streams(n: &mut Noted, m: &Moment) {
    for (client, session, running, gate) in m.streams.iter() {
        if n.streams().len() < CLIENTS {
            n.note_stream(NotedStream {
                client: ClientNo(*client),
                session: SessionNo(*session),
                running: *running,
                gate: *gate,
            });
        }
    }
}

fn noted(m: &Moment) -> Noted {
    let mut n = Noted::new();
    note_endpoints(&mut n, m);
    note_defaults(&mut n, m);
    note_sessions(&mut n, m);
    note_streams(&mut n, m);
    n
}

/// Whether these are the notices' kinds, subjects and values.
fn are(notices: &[Notice], rows: &[(u8, u64, u64)]) -> bool {
    if notices.len() != rows.len() {
        return false;
    }
    for (n, row) in notices.iter().zip(rows.iter()) {
        if (n.kind, n.subject, n.value) != *row
            || n.context.0 != 0
            || !n.text.as_bytes().is_empty()
        {
            return false;
        }
    }
    true
}

/// Whether just these notices are told of a step.
fn tells(
    alloc: Global,
    a: &Moment,
    b: &Moment,
    rows: &[(u8, u64, u64)],
) -> Result<bool, AllocError> {
    let (before, after) = (noted(a), noted(b));
    let mut out = Vec::with_capacity(alloc, DEVICE_NOTICES + SESSION_NOTICES)?;
    put_device_notices(&before, &after, &mut out);
    put_session_notices(&before, &after, &mut out);
    Ok(are(&out, rows))
}

const RUNS: Gate = Gate::Open;

const LEFT: Gate = Gate::Closed(Reason::Removal);

const CHANGED: Gate = Gate::Closed(Reason::Format);

const TAKEN: Gate = Gate::Closed(Reason::Override);

/// Two clients play on the first of two endpoints.
const PLAYING: Moment = Moment {
    endpoints: &[(1, 1), (2, 1)],
    defaults: [1, 1, 1, 0, 0, 0],
    sessions: &[(1, 1), (2, 1)],
    streams: &[(1, 1, true, RUNS), (2, 2, true, RUNS)],
};

/// The endpoint has failed, and the other one is the default.
const FAILED: Moment = Moment {
    endpoints: &[(1, 4), (2, 1)],
    defaults: [2, 2, 2, 0, 0, 0],
    sessions: &[(1, 1), (2, 1)],
    streams: &[(1, 1, false, LEFT), (2, 2, false, LEFT)],
};

#[test]
fn a_device_that_fails_is_told(rt: HostRuntime) -> Result<(), Fail> {
    let rows = [
        (3, 1, 4),
        (4, 0, 2),
        (4, 1, 2),
        (4, 2, 2),
        (7, 1, 0),
        (7, 2, 0),
        (8, 1, 0),
        (8, 2, 0),
    ];
    assert!(rt; tells(rt.alloc(), &PLAYING, &FAILED, &rows)?);
    assert!(rt; tells(rt.alloc(), &PLAYING, &PLAYING, &[])?);
    assert!(rt; tells(rt.alloc(), &FAILED, &FAILED, &[])?);
    Ok(())
}

#[test]
fn steps_of_sessions_are_told(rt: HostRuntime) -> Result<(), Fail> {
    let made = Moment {
        sessions: &[(1, 1), (2, 1), (3, 2)],
        streams: &[(1, 1, true, RUNS), (2, 2, true, RUNS), (3, 3, false, RUNS)],
        ..PLAYING
    };
    assert!(rt; tells(rt.alloc(), &PLAYING, &made, &[(6, 2, 3)])?);
    let released = Moment {
        sessions: &[(2, 1)],
        streams: &[(2, 2, true, RUNS)],
        ..PLAYING
    };
    assert!(rt; tells(rt.alloc(), &PLAYING, &released, &[(8, 1, 2)])?);
    let joined = Moment {
        streams: &[
            (1, 1, true, RUNS),
            (2, 1, true, RUNS),
            (3, 1, false, LEFT),
            (4, 2, true, RUNS),
        ],
        ..PLAYING
    };
    let taken = Moment {
        streams: &[
            (1, 1, true, RUNS),
            (2, 1, false, TAKEN),
            (3, 1, false, LEFT),
            (4, 2, true, RUNS),
        ],
        ..PLAYING
    };
    assert!(rt; tells(rt.alloc(), &joined, &taken, &[(7, 1, 5)])?);
    let changed = Moment {
        streams: &[
            (1, 1, false, CHANGED),
            (2, 1, false, TAKEN),
            (3, 1, false, LEFT),
            (4, 2, true, RUNS),
        ],
        ..PLAYING
    };
    assert!(rt; tells(rt.alloc(), &joined, &changed, &[(7, 1, 2), (8, 1, 0)])?);
    assert!(rt; tells(rt.alloc(), &taken, &changed, &[(7, 1, 2), (8, 1, 0)])?);
    Ok(())
}

#[test]
fn devices_come_and_go(rt: HostRuntime) -> Result<(), Fail> {
    let other = Moment {
        endpoints: &[(2, 1), (3, 2)],
        defaults: [2, 0, 1, 0, 0, 3],
        ..PLAYING
    };
    let rows = [(1, 3, 0), (2, 1, 0), (4, 0, 2), (4, 1, 0), (4, 5, 3)];
    assert!(rt; tells(rt.alloc(), &PLAYING, &other, &rows)?);
    Ok(())
}
