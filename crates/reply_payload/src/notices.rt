//! What is told of events and notices that were taken (IAudioClient::SetEventHandle, IMMNotificationClient,
//! IAudioSessionEvents and the like).

ghost use Rattle.std.specs.Prelude.{◌≡◌, ◌+◌, ◌*◌, ◌≤◌, [], ◌++◌, if◌then◌else◌, length};
ghost use Rattle.std.specs.List.{flat_map};
ghost use Rattle.ca_base.specs.declared.limits.TheConstants.{CLIENTS, NOTICES};
ghost use Rattle.event_notices.specs.Bytes.{notice_bytes};
ghost use Rattle.ca_machine.specs.Registrations.{event_bytes, flagged_on, is_flagged_on, notices_payload};
ghost use Rattle.reply_payload.specs.declared.payload.TheConstants.{EVENT_SIZE, LONGEST_NOTICE, REPLY_ROOM};

use ca_base::{Bytes, ConnNo};
use ca_machine::Client;
use call_wire::write_notice;
use event_notices::Notice;

/// Puts a notice: a text behind its numbers.
fn put_notice(notice: &Notice, out: &mut Bytes)
    requires room { length out.old.list + LONGEST_NOTICE ≤ out.old.capacity }
    ensures list { out.new.list ≡ out.old.list ++ notice_bytes notice.now }
    ensures within { length out.new.list ≤ length out.old.list + LONGEST_NOTICE }
    ensures keeps { out.old.capacity ≤ out.new.capacity }
{
    if write_notice(notice, out).is_err() {
        unreachable!();
    }
}

/// Puts notices, in their order.
fn put_each(notices: &[Notice], out: &mut Bytes)
    requires room { length out.old.list + LONGEST_NOTICE * length notices.now ≤ out.old.capacity }
    ensures list { out.new.list ≡ out.old.list ++ flat_map notice_bytes notices.now }
    ensures within { length out.new.list ≤ length out.old.list + LONGEST_NOTICE * length notices.now }
    ensures keeps { out.old.capacity ≤ out.new.capacity }
{
    'notices: for notice in notices.iter() {
        put_notice(notice, out);
    }
}

/// Whether a client is of this connection, and its event was set and not taken yet.
fn is_flagged_on(client: &Client, conn: ConnNo) -> bool
    ensures { result ≡ is_flagged_on conn.0 client.now }
{
    client.conn == conn && client.flagged
}

/// How many clients of a connection have events that were set and not taken yet.
fn count_events(clients: &[Client], conn: ConnNo) -> u32
    requires { length clients.now ≤ CLIENTS }
    ensures { result ≡ length (flagged_on conn.0 clients.now) }
{
    let mut count = 0;
    'clients: for client in clients.iter() {
        if is_flagged_on(client, conn) {
            count += 1;
        }
    }
    count
}

/// Puts the client and the handle of an event, if it is one of these.
fn put_event(client: &Client, conn: ConnNo, out: &mut Bytes)
    requires room { length out.old.list + EVENT_SIZE ≤ out.old.capacity }
    ensures list { out.new.list
        ≡ out.old.list ++ (if is_flagged_on conn.0 client.now then event_bytes client.now else []) }
    ensures within { length out.new.list ≤ length out.old.list + EVENT_SIZE }
    ensures keeps { out.old.capacity ≤ out.new.capacity }
{
    if is_flagged_on(client, conn) {
        out.append_reserved(&client.client.0.to_le_bytes());
        out.append_reserved(&client.handle.to_le_bytes());
    }
}

/// Puts the client and the handle of each of these events, in the order of the clients.
fn put_events(clients: &[Client], conn: ConnNo, out: &mut Bytes)
    requires room { length out.old.list + EVENT_SIZE * length clients.now ≤ out.old.capacity }
    ensures list { out.new.list ≡ out.old.list ++ flat_map event_bytes (flagged_on conn.0 clients.now) }
    ensures within { length out.new.list ≤ length out.old.list + EVENT_SIZE * length clients.now }
    ensures keeps { out.old.capacity ≤ out.new.capacity }
{
    'clients: for client in clients.iter() {
        put_event(client, conn, out);
    }
}

/// Puts what TakeNotices tells a connection: the events of its clients that were set, how many notices were lost, and
/// those that were taken, in their order.
pub fn put_notices(clients: &[Client], conn: ConnNo, lost: u64, notices: &[Notice], out: &mut Bytes)
    requires few_clients { length clients.now ≤ CLIENTS }
    requires few { length notices.now ≤ NOTICES }
    requires empty { out.old.list ≡ [] }
    requires room { REPLY_ROOM ≤ out.old.capacity }
    ensures list { out.new.list ≡ notices_payload (flagged_on conn.0 clients.now) lost notices.now }
    ensures within { length out.new.list ≤ REPLY_ROOM }
    ensures keeps { out.old.capacity ≤ out.new.capacity }
{
    out.append_reserved(&count_events(clients, conn).to_le_bytes());
    put_events(clients, conn, out);
    out.append_reserved(&lost.to_le_bytes());
    out.append_reserved(&(notices.len() as u32).to_le_bytes());
    put_each(notices, out);
}
