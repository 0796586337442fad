//! What is told of sessions (IAudioSessionNotification, IAudioSessionEvents).

ghost use Rattle.std.specs.Prelude.{◌≡◌, ◌+◌, ◌≤◌, ◌==◌, ◌&&◌, length, vec_capacity};
ghost use Rattle.std.specs.List.{list_any};
ghost use Rattle.step_notices.specs.Puts.{Puts};
ghost use Rattle.step_notices.specs.Changes.{created_notices, session_notices, session_state_notices, state_of};

use crate::disconnects::put_disconnected;
use crate::lookups::{note, session_in};
use crate::{Noted, NotedStream, SESSION_NOTICES};
use ca_base::SessionNo;
use ca_base::limits::SESSIONS;
use ca_base::values::{SESSION_ACTIVE, SESSION_EXPIRED, SESSION_INACTIVE};
use event_notices::Notice;
use event_notices::kinds::{SESSION_CREATED, SESSION_STATE};

/// Adds a notice for each session that is noted after the step alone.
fn put_created(before: &Noted, after: &Noted, out: &mut Vec<Notice>)
    requires { length out.old.items + SESSIONS ≤ vec_capacity out.old }
    ensures { Puts SESSIONS (created_notices before.now after.now) out.old out.new }
{
    let sessions = after.sessions();
    'sessions: for s in sessions.iter() {
        if session_in(s.no, before.sessions()).is_none() {
            out.push_reserved(note(SESSION_CREATED, s.endpoint.0 as u64, s.no.0));
        }
    }
}

/// Whether one of these streams is of this session and runs.
fn is_running(session: SessionNo, streams: &[NotedStream]) -> bool
    ensures { result ≡ list_any (λ s. s.session.0 == session.0 && s.running) streams.now }
{
    streams.iter().any(|s| s.session == session && s.running)
}

/// Whether one of these streams is of this session.
fn has_stream(session: SessionNo, streams: &[NotedStream]) -> bool
    ensures { result ≡ list_any (λ s. s.session.0 == session.0) streams.now }
{
    streams.iter().any(|s| s.session == session)
}

/// AudioSessionState of a session: active while a stream of it runs, inactive while it has streams and none runs, and
/// else expired.
fn state_of(session: SessionNo, streams: &[NotedStream]) -> u8
    ensures { result ≡ state_of session.0 streams.now }
{
    if is_running(session, streams) {
        return SESSION_ACTIVE;
    }
    if has_stream(session, streams) {
        SESSION_INACTIVE
    } else {
        SESSION_EXPIRED
    }
}

/// Adds a notice for each session whose state is another one.
fn put_session_states(before: &Noted, after: &Noted, out: &mut Vec<Notice>)
    requires { length out.old.items + SESSIONS ≤ vec_capacity out.old }
    ensures { Puts SESSIONS (session_state_notices before.now after.now) out.old out.new }
{
    let sessions = before.sessions();
    'sessions: for s in sessions.iter() {
        let now = state_of(s.no, after.streams());
        if state_of(s.no, before.streams()) != now {
            out.push_reserved(note(SESSION_STATE, s.no.0, now as u64));
        }
    }
}

/// Adds what a step tells of sessions, to a list that has room for as much as it may be: it takes no memory.
pub fn put_session_notices(before: &Noted, after: &Noted, out: &mut Vec<Notice>)
    requires { length out.old.items + SESSION_NOTICES ≤ vec_capacity out.old }
    ensures { Puts SESSION_NOTICES (session_notices before.now after.now) out.old out.new }
{
    put_created(before, after, out);
    put_disconnected(before, after, out);
    put_session_states(before, after, out);
}
