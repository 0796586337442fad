//! Look-ups of the endpoint that a client may use.

ghost use Rattle.std.specs.Prelude.{◌≡◌, IfErr, IfOk, Some};
ghost use Rattle.ca_machine.specs.Streams.{endpoint_rows};
ghost use Rattle.service_board.specs.InOrder.{InOrder};
ghost use Rattle.service_board.specs.Lookups.{FindsEndpoint, Says, is_disconnected};

use crate::Board;
use buffer_ring::EngineSide;
use ca_base::{ClientNo, ConnNo, Gate, Hr};

impl<D, E: EngineSide> Board<D, E> {
    /// Whether a client has a stream that was disconnected.
    pub fn is_disconnected(&self, client: ClientNo) -> bool
        requires order { InOrder E.state self.now }
        ensures { result ≡ is_disconnected client.0 self.now.entries.items }
    {
        let Some(at) = self.entry_place(client) else {
            return false;
        };
        match self.entries[at].gate {
            Gate::Open => false,
            Gate::Closed(_) => true,
        }
    }

    /// The place in the book of the endpoint of a call's client. The client is a live one of the connection, its stream
    /// wasn't disconnected, and the endpoint is ACTIVE.
    pub fn valid_endpoint(&self, conn: ConnNo, client: ClientNo) -> Result<usize, Hr>
        requires order { InOrder E.state self.now }
        ensures refused { IfErr result (λ code. Says self.now (λ st. endpoint_rows st conn.0 client.0) (Some code)) }
        ensures found { IfOk result (FindsEndpoint conn.0 client.0 self.now) }
    {
        let Some(place) = self.book.client_place(conn, client) else {
            return Err(Hr::E_HANDLE);
        };
        if self.is_disconnected(client) {
            return Err(Hr::DEVICE_INVALIDATED);
        }
        let number = self.book.clients[place].endpoint;
        match self.book.active_endpoint(number) {
            Some(at) => Ok(at),
            None => Err(Hr::DEVICE_INVALIDATED),
        }
    }
}
