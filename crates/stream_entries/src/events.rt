//! Events of clients (IAudioClient::SetEventHandle): the periods that set them, and the call that takes them.

ghost use Rattle.std.specs.Prelude.{◌≡◌, ◌==◌, ◌&&◌, if◌then◌else◌, map};
ghost use Rattle.std.specs.List.{list_any};
ghost use Rattle.ca_machine.specs.Registrations.{unflagged};
ghost use Rattle.stream_entries.specs.Events.{is_signaled_entry, with_event};

use ca_base::{ClientNo, ConnNo, EndpointNo, Gate};
use ca_machine::Client;
use period_engine::StreamEntry;

/// Whether a stream is driven by events, and takes part in a period of the endpoint: it is open, and it runs.
fn is_signaled<E>(entry: &StreamEntry<E>, e: EndpointNo) -> bool
    ensures { result ≡ is_signaled_entry e.0 entry.now }
{
    entry.endpoint == e && entry.gate == Gate::Open && entry.running && entry.event
}

/// Whether one of them does.
fn any_signaled<E>(all: &[StreamEntry<E>], e: EndpointNo) -> bool
    ensures { result ≡ list_any (is_signaled_entry e.0) all.now }
{
    all.iter().any(|x| is_signaled(x, e))
}

/// Whether it does, and is the stream of this client.
fn is_signaled_of<E>(entry: &StreamEntry<E>, e: EndpointNo, client: ClientNo) -> bool
    ensures { result ≡ (entry.now.client.0 == client.0 && is_signaled_entry e.0 entry.now) }
{
    entry.client == client && is_signaled(entry, e)
}

/// Whether the stream of a client does.
fn signals<E>(all: &[StreamEntry<E>], e: EndpointNo, client: ClientNo) -> bool
    ensures { result ≡ list_any (λ x. x.client.0 == client.0 && is_signaled_entry e.0 x) all.now }
{
    all.iter().any(|x| is_signaled_of(x, e, client))
}

/// Sets a client's event, if its stream does.
fn signal<E>(client: &mut Client, all: &[StreamEntry<E>], e: EndpointNo)
    ensures { client.new ≡ with_event e.0 all.now client.old }
{
    if signals(all, e, client.client) {
        client.flagged = true;
    }
}

/// Sets the event of each client whose stream does.
fn signal_each<E>(clients: &mut [Client], all: &[StreamEntry<E>], e: EndpointNo)
    ensures { clients.new ≡ map (with_event e.0 all.now) clients.old }
{
    for client in clients.iter_mut() {
        signal(client, all, e);
    }
}

/// The same, and no client is looked at if no stream does.
pub fn set_events<E>(clients: &mut [Client], all: &[StreamEntry<E>], e: EndpointNo)
    ensures { clients.new ≡ map (with_event e.0 all.now) clients.old }
{
    if any_signaled(all, e) {
        signal_each(clients, all, e);
    }
}

/// The same after a period that recorded `frames` frames: none is set if it recorded none.
pub fn set_recorded_events<E>(
    clients: &mut [Client],
    all: &[StreamEntry<E>],
    e: EndpointNo,
    frames: u32,
)
    ensures { clients.new ≡ (if frames == 0 then clients.old else map (with_event e.0 all.now) clients.old) }
{
    if frames == 0 {
        return;
    }
    set_events(clients, all, e);
}

/// Takes the event of a client, if it is of this connection.
fn take_event(client: &mut Client, conn: ConnNo)
    ensures { client.new ≡ unflagged conn.0 client.old }
{
    if client.conn == conn {
        client.flagged = false;
    }
}

/// Takes the events of this connection's clients.
pub fn take_events(clients: &mut [Client], conn: ConnNo)
    ensures { clients.new ≡ map (unflagged conn.0) clients.old }
{
    for client in clients.iter_mut() {
        take_event(client, conn);
    }
}
