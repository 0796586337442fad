//! What is told of devices (IMMNotificationClient).

ghost use Rattle.std.specs.Prelude.{◌≡◌, ◌+◌, ◌<◌, ◌≤◌, length, vec_capacity};
ghost use Rattle.step_notices.specs.Puts.{Puts};
ghost use Rattle.step_notices.specs.Changes.{added_notices, default_notices, device_notices, removed_notices};
ghost use Rattle.step_notices.specs.Changes.{had_another_state, is_another_default, state_notices};

use crate::lookups::{endpoint_in, note};
use crate::{DEFAULTS, DEVICE_NOTICES, Noted, NotedEndpoint};
use ca_base::limits::ENDPOINTS;
use event_notices::Notice;
use event_notices::kinds::{DEFAULT_CHANGED, DEVICE_ADDED, DEVICE_REMOVED, DEVICE_STATE};

/// Adds a notice for each endpoint that is noted after the step alone.
fn put_added(before: &Noted, after: &Noted, out: &mut Vec<Notice>)
    requires { length out.old.items + ENDPOINTS ≤ vec_capacity out.old }
    ensures { Puts ENDPOINTS (added_notices before.now after.now) out.old out.new }
{
    let endpoints = after.endpoints();
    'endpoints: for e in endpoints.iter() {
        if endpoint_in(e.no, before.endpoints()).is_none() {
            out.push_reserved(note(DEVICE_ADDED, e.no.0 as u64, 0));
        }
    }
}

/// Adds a notice for each endpoint that is noted before the step alone.
fn put_removed(before: &Noted, after: &Noted, out: &mut Vec<Notice>)
    requires { length out.old.items + ENDPOINTS ≤ vec_capacity out.old }
    ensures { Puts ENDPOINTS (removed_notices before.now after.now) out.old out.new }
{
    let endpoints = before.endpoints();
    'endpoints: for e in endpoints.iter() {
        if endpoint_in(e.no, after.endpoints()).is_none() {
            out.push_reserved(note(DEVICE_REMOVED, e.no.0 as u64, 0));
        }
    }
}

/// Whether this endpoint was noted with another state.
fn had_another_state(before: &[NotedEndpoint], e: &NotedEndpoint) -> bool
    ensures { result ≡ had_another_state before.now e.now }
{
    match endpoint_in(e.no, before) {
        Some(old) => old.state != e.state,
        None => false,
    }
}

/// Adds a notice for each endpoint whose state is another one.
fn put_states(before: &Noted, after: &Noted, out: &mut Vec<Notice>)
    requires { length out.old.items + ENDPOINTS ≤ vec_capacity out.old }
    ensures { Puts ENDPOINTS (state_notices before.now after.now) out.old out.new }
{
    let endpoints = after.endpoints();
    'endpoints: for e in endpoints.iter() {
        if had_another_state(before.endpoints(), e) {
            out.push_reserved(note(DEVICE_STATE, e.no.0 as u64, e.state as u64));
        }
    }
}

/// Whether the default of a place is another one.
fn is_another_default(before: &Noted, after: &Noted, place: usize) -> bool
    requires { place < DEFAULTS }
    ensures { result ≡ is_another_default before.now after.now place }
{
    before.default_at(place) != after.default_at(place)
}

/// Adds a notice for each place whose default is another one.
fn put_defaults(before: &Noted, after: &Noted, out: &mut Vec<Notice>)
    requires { length out.old.items + DEFAULTS ≤ vec_capacity out.old }
    ensures { Puts DEFAULTS (default_notices before.now after.now) out.old out.new }
{
    'places: for place in 0..DEFAULTS {
        if is_another_default(before, after, place) {
            let now = after.default_at(place);
            out.push_reserved(note(DEFAULT_CHANGED, place as u64, now as u64));
        }
    }
}

/// Adds what a step tells of devices, to a list that has room for as much as it may be: it takes no memory.
pub fn put_device_notices(before: &Noted, after: &Noted, out: &mut Vec<Notice>)
    requires { length out.old.items + DEVICE_NOTICES ≤ vec_capacity out.old }
    ensures { Puts DEVICE_NOTICES (device_notices before.now after.now) out.old out.new }
{
    put_added(before, after, out);
    put_removed(before, after, out);
    put_states(before, after, out);
    put_defaults(before, after, out);
}
