//! The states of sessions, by the entries of their streams (IAudioSessionControl::GetState).

ghost use Rattle.std.specs.Prelude.{◌≡◌, ℕ, ◌==◌, ◌&&◌};
ghost use Rattle.std.specs.List.{list_any};
ghost use Rattle.ca_stage.specs.Stage.{BufferData};
ghost use Rattle.ca_machine.specs.Sessions.{state_of_session};
ghost use Rattle.period_engine.specs.Entries.{streams_of};

use crate::leaving::is_in_use;
use ca_base::SessionNo;
use ca_base::values::{SESSION_ACTIVE, SESSION_EXPIRED, SESSION_INACTIVE};
use period_engine::StreamEntry;

/// Whether a stream is of this session and runs.
fn runs_in<E>(entry: &StreamEntry<E>, session: SessionNo) -> bool
    ensures { result ≡ (entry.now.session.0 == session.0 && entry.now.running) }
{
    entry.session == session && entry.running
}

/// Whether one of these streams is of this session and runs.
fn is_running<E>(entries: &[StreamEntry<E>], session: SessionNo) -> bool
    ensures { result ≡ list_any (λ e. e.session.0 == session.0 && e.running) entries.now }
{
    entries.iter().any(|e| runs_in(e, session))
}

/// AudioSessionState of a session: active while a stream of it runs, inactive while it has streams and none runs, and
/// else expired.
pub fn state_of_session<E>(entries: &[StreamEntry<E>], session: SessionNo) -> u8
    ensures { (datas : ℕ → BufferData) → result ≡ state_of_session session.0 (streams_of datas entries.now) }
{
    if is_running(entries, session) {
        return SESSION_ACTIVE;
    }
    if is_in_use(entries, session) {
        SESSION_INACTIVE
    } else {
        SESSION_EXPIRED
    }
}
