//! What is told of sessions whose streams closed (IAudioSessionEvents::OnSessionDisconnected).

ghost use Rattle.std.specs.Prelude.{◌≡◌, ◌+◌, ◌≤◌, length, vec_capacity};
ghost use Rattle.step_notices.specs.Puts.{Puts};
ghost use Rattle.step_notices.specs.Changes.{disconnected_notices, first_reason, reason_number, was_open};

use crate::lookups::{note, stream_in};
use crate::{Noted, NotedStream};
use ca_base::limits::SESSIONS;
use ca_base::{Gate, Reason, SessionNo};
use event_notices::Notice;
use event_notices::kinds::DISCONNECTED;

/// The number of a reason (AudioSessionDisconnectReason).
fn reason_number(reason: Reason) -> u64
    ensures { result ≡ reason_number reason }
{
    match reason {
        Reason::Removal => 0,
        Reason::Shutdown => 1,
        Reason::Format => 2,
        Reason::Override => 5,
        Reason::Released => 6,
    }
}

/// Whether the stream of this client was noted with an open gate.
fn was_open(before: &[NotedStream], s: &NotedStream) -> bool
    ensures { result ≡ was_open before.now s.now }
{
    match stream_in(s.client, before) {
        Some(old) => old.gate == Gate::Open,
        None => false,
    }
}

/// The number of the reason of the first stream of a session that was open and is closed now.
fn first_reason(before: &[NotedStream], after: &[NotedStream], session: SessionNo) -> Option<u64>
    ensures { result ≡ first_reason before.now after.now session.0 }
{
    'streams: for s in after.iter() {
        if let Gate::Closed(reason) = s.gate {
            if s.session == session && was_open(before, s) {
                return Some(reason_number(reason));
            }
        }
    }
    None
}

/// Adds a notice for each session of which a stream closed.
pub fn put_disconnected(before: &Noted, after: &Noted, out: &mut Vec<Notice>)
    requires { length out.old.items + SESSIONS ≤ vec_capacity out.old }
    ensures { Puts SESSIONS (disconnected_notices before.now after.now) out.old out.new }
{
    let sessions = before.sessions();
    'sessions: for s in sessions.iter() {
        if let Some(reason) = first_reason(before.streams(), after.streams(), s.no) {
            out.push_reserved(note(DISCONNECTED, s.no.0, reason));
        }
    }
}
