//! Closes of streams: those of an endpoint that leaves, fails or gets another format, or all at a shutdown.

ghost use Rattle.std.specs.Prelude.{◌≡◌};
ghost use Rattle.std.specs.List.{All, AllZip};
ghost use Rattle.period_engine.specs.Entries.{IsRested};
ghost use Rattle.period_engine.specs.SubSteps.{Turned};
ghost use Rattle.stream_entries.specs.Closing.{Disconnects, IsClosable, closes_within, is_entry_within, scope_of};

use buffer_ring::EngineSide;
use ca_base::{EndpointNo, Gate, Reason};
use period_engine::StreamEntry;

/// Whether a stream is open within a scope: all streams, or those of one endpoint.
fn is_within<E>(entry: &StreamEntry<E>, scope: Option<EndpointNo>) -> bool
    ensures { result ≡ is_entry_within (scope_of scope) entry.now }
{
    match scope {
        None => entry.gate == Gate::Open,
        Some(e) => entry.endpoint == e && entry.gate == Gate::Open,
    }
}

/// Closes an entry's stream, if it is open within a scope: what it had pending is dropped.
fn close<E: EngineSide>(entry: &mut StreamEntry<E>, scope: Option<EndpointNo>, reason: Reason)
    requires { IsClosable E.state (scope_of scope) entry.old }
    ensures turned { Turned E.moves (closes_within reason (scope_of scope)) entry.old entry.new }
    ensures rested { IsRested E.state entry.new }
{
    if is_within(entry, scope) {
        entry.store.close(reason);
        entry.gate = Gate::Closed(reason);
        entry.running = false;
        entry.picked = 0;
    }
}

/// Closes each stream that is open within a scope: all streams, or those of one endpoint.
pub fn close_all<E: EngineSide>(
    all: &mut [StreamEntry<E>],
    scope: Option<EndpointNo>,
    reason: Reason,
)
    requires { All (IsClosable E.state (scope_of scope)) all.old }
    ensures turned { AllZip (Turned E.moves (closes_within reason (scope_of scope))) all.old all.new }
    ensures rested { All (IsRested E.state) all.new }
{
    for entry in all.iter_mut() {
        close(entry, scope, reason);
    }
}

/// The same, if something is lost.
pub fn disconnect<E: EngineSide>(
    entries: &mut Vec<StreamEntry<E>>,
    lost: bool,
    scope: Option<EndpointNo>,
    reason: Reason,
)
    requires { All (IsRested E.state) entries.old.items }
    ensures { Disconnects E.moves E.state lost reason (scope_of scope) entries.old entries.new }
{
    if lost {
        close_all(entries, scope, reason);
    }
}
