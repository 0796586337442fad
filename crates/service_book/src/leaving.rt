//! Connections and clients that leave the lists of the book.

ghost use Rattle.std.specs.Prelude.{◌≡◌, ◌-◌, ◌≤◌, ◌==◌, filter, length, not, slice_set};
ghost use Rattle.std.specs.Vec.{vec_capacity};
ghost use Rattle.event_notices.specs.Notices.{no_notices};
ghost use Rattle.ca_machine.specs.Clients.{is_client_on};
ghost use Rattle.ca_machine.specs.State.{is_client_of, is_connection};
ghost use Rattle.service_book.specs.Leaving.{is_live};

use ca_base::{ClientNo, ConnNo};
use ca_machine::{Client, Connection};
use event_notices::NoticeQueue;

/// Whether one of these clients has this number.
pub fn is_live(clients: &[Client], client: ClientNo) -> bool
    ensures { result ≡ is_live clients.now client.0 }
{
    clients.iter().any(|c| c.client == client)
}

/// Takes a client of a connection away.
pub fn drop_client(clients: &mut Vec<Client>, conn: ConnNo, client: ClientNo)
    ensures left { clients.new.items ≡ filter (λ c. not (is_client_of conn.0 client.0 c)) clients.old.items }
    ensures room { vec_capacity clients.new ≡ vec_capacity clients.old }
{
    clients.retain(|c| !(c.client == client && c.conn == conn));
}

/// Takes all clients of a connection away.
pub fn drop_clients(clients: &mut Vec<Client>, conn: ConnNo)
    ensures left { clients.new.items ≡ filter (λ c. not (is_client_on conn.0 c)) clients.old.items }
    ensures room { vec_capacity clients.new ≡ vec_capacity clients.old }
{
    clients.retain(|c| c.conn != conn);
}

/// Takes a connection away.
pub fn drop_connection(connections: &mut Vec<Connection>, conn: ConnNo)
    ensures left { connections.new.items ≡ filter (λ c. not (is_connection conn.0 c)) connections.old.items }
    ensures room { vec_capacity connections.new ≡ vec_capacity connections.old }
{
    connections.retain(|c| c.conn != conn);
}

/// Drops what a connection registered for, and the notices that it kept.
pub fn drop_notices(all: &mut [NoticeQueue], conn: ConnNo)
    requires least { 1 ≤ conn.0 }
    requires most { conn.0 ≤ length all.old }
    ensures { all.new ≡ slice_set all.old (conn.0 - 1) no_notices }
{
    all[conn.0 as usize - 1].clear();
}
