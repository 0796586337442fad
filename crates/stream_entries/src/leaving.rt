//! Streams of clients that leave, and sessions without one (this project's own).

ghost use Rattle.std.specs.Prelude.{◌≡◌, ◌-◌, ◌==◌};
ghost use Rattle.std.specs.List.{All, AllZip, list_any};
ghost use Rattle.std.specs.Vec.{vec_capacity};
ghost use Rattle.session_manager.specs.Sessions.{remaining};
ghost use Rattle.period_engine.specs.Entries.{IsRested};
ghost use Rattle.stream_entries.specs.Leaving.{Keeps, Parts, is_in_use};

use buffer_ring::EngineSide;
use ca_base::{Gate, Reason, SessionNo};
use ca_machine::Client;
use period_engine::StreamEntry;
use service_book::is_live;
use session_manager::{Session, SessionBook};

/// Closes the store of a stream that is none of these clients', if it is open.
fn close_unless_live<E: EngineSide>(entry: &mut StreamEntry<E>, clients: &[Client])
    requires { IsRested E.state entry.old }
    ensures { Parts E.moves clients.now entry.old entry.new }
{
    if is_live(clients, entry.client) {
        return;
    }
    match entry.gate {
        Gate::Open => {
            entry.store.close(Reason::Released);
        }
        Gate::Closed(_) => {}
    }
}

/// Closes the open stores of all streams but those of these clients.
fn close_stores<E: EngineSide>(entries: &mut [StreamEntry<E>], clients: &[Client])
    requires { All (IsRested E.state) entries.old }
    ensures { AllZip (Parts E.moves clients.now) entries.old entries.new }
{
    for entry in entries.iter_mut() {
        close_unless_live(entry, clients);
    }
}

/// Takes all streams but those of these clients away, and closes their stores.
pub fn drop_streams<E: EngineSide>(entries: &mut Vec<StreamEntry<E>>, clients: &[Client])
    requires rested { All (IsRested E.state) entries.old.items }
    ensures keeps { Keeps E.moves clients.now entries.old.items entries.new.items }
    ensures room { vec_capacity entries.new ≡ vec_capacity entries.old }
{
    close_stores(entries, clients);
    entries.retain(|entry| is_live(clients, entry.client));
}

/// Whether one of these streams is of this session.
pub fn is_in_use<E>(entries: &[StreamEntry<E>], session: SessionNo) -> bool
    ensures { result ≡ list_any (λ e. e.session.0 == session.0) entries.now }
{
    entries.iter().any(|entry| entry.session == session)
}

/// Whether one of these streams is of this session, as the book has it.
fn is_used<E>(entries: &[StreamEntry<E>], session: &Session) -> bool
    ensures { result ≡ is_in_use entries.now session.now }
{
    is_in_use(entries, session.no)
}

/// Takes all sessions but those of these streams away.
pub fn drop_sessions<E>(sessions: &mut SessionBook, entries: &[StreamEntry<E>])
    ensures left { sessions.new.list ≡ remaining (is_in_use entries.now) sessions.old.list }
    ensures made { sessions.new.made ≡ sessions.old.made }
{
    sessions.keep(|s| is_used(entries, s));
}
