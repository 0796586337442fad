//! Who holds an endpoint: the open streams on it, of which an exclusive one is alone.

ghost use Rattle.std.specs.Prelude.{◌≡◌, ◌≤◌, length};
ghost use Rattle.std.specs.List.{position};
ghost use Rattle.ca_base.specs.declared.limits.TheConstants.{CLIENTS};
ghost use Rattle.exclusive_mode.specs.Claims.{claim};
ghost use Rattle.stream_entries.specs.Holding.{held_on, is_exclusive_entry, is_open_entry, period_frames};

use arrayvec::ArrayVec;
use ca_base::limits::CLIENTS;
use ca_base::{EndpointNo, Gate};
use device_registry::Endpoint;
use exclusive_mode::{Claim, Held, claim};
use period_engine::StreamEntry;
use service_book::shared_frames;

/// Whether a stream is open on an endpoint.
fn is_open_entry<E>(entry: &StreamEntry<E>, e: EndpointNo) -> bool
    ensures { result ≡ is_open_entry e.0 entry.now }
{
    entry.endpoint == e && entry.gate == Gate::Open
}

/// Whether it is, and is exclusive.
fn is_exclusive_entry<E>(entry: &StreamEntry<E>, e: EndpointNo) -> bool
    ensures { result ≡ is_exclusive_entry e.0 entry.now }
{
    is_open_entry(entry, e) && entry.exclusive
}

/// The open streams on an endpoint, as a claim looks at them.
fn held_on<E>(entries: &[StreamEntry<E>], e: EndpointNo) -> ArrayVec<Held, CLIENTS>
    requires { length entries.now ≤ CLIENTS }
    ensures { result.items ≡ held_on e.0 entries.now }
{
    let mut held = ArrayVec::new();
    'entries: for entry in entries.iter() {
        if is_open_entry(entry, e) {
            held.push(Held {
                client: entry.client,
                exclusive: entry.exclusive,
            });
        }
    }
    held
}

/// What a stream that is to be opened on an endpoint gets of it.
pub fn claim_endpoint<E>(entries: &[StreamEntry<E>], endpoint: &Endpoint, exclusive: bool) -> Claim
    requires { length entries.now ≤ CLIENTS }
    ensures { result ≡ claim exclusive (held_on endpoint.now.no.0 entries.now) endpoint.now.priority }
{
    claim(exclusive, &held_on(entries, endpoint.no), endpoint.priority)
}

/// The place of the exclusive stream that holds an endpoint.
fn exclusive_place<E>(entries: &[StreamEntry<E>], e: EndpointNo) -> Option<usize>
    ensures { result ≡ position (is_exclusive_entry e.0) entries.now }
{
    entries
        .iter()
        .position(|entry| is_exclusive_entry(entry, e))
}

/// The frames of an endpoint's period: those of the exclusive stream that holds it, running or not, or of its shared
/// ones.
pub fn period_frames<E>(entries: &[StreamEntry<E>], endpoint: &Endpoint) -> u32
    ensures { result ≡ period_frames endpoint.now entries.now }
{
    match exclusive_place(entries, endpoint.no) {
        Some(at) => entries[at].period,
        None => shared_frames(endpoint),
    }
}
