//! A search by halves in clients, which stand in the order of their numbers.

ghost use Rattle.std.specs.Prelude.{◌≡◌};
ghost use Rattle.std.specs.List.{position};
ghost use Rattle.ca_stage.specs.Order.{RisesFrom};
ghost use Rattle.ca_machine.specs.State.{is_client_of, live_clients};

use ca_base::{ClientNo, ConnNo};
use ca_machine::Client;

/// The place of a live client of a connection.
pub fn client_at(clients: &[Client], conn: ConnNo, client: ClientNo) -> Option<usize>
    requires { RisesFrom 0 (live_clients clients.now) }
    ensures { result ≡ position (is_client_of conn.0 client.0) clients.now }
{
    let at = clients.partition_point(|c| c.client.0 < client.0);
    if at >= clients.len() {
        return None;
    }
    if clients[at].client != client || clients[at].conn != conn {
        return None;
    }
    Some(at)
}
