//! Look-ups in the book: which place a connection, a client or an endpoint stands at.

ghost use Rattle.std.specs.Prelude.{◌≡◌, ◌<◌, length, slice_index_or, MatchOption, ◌==◌};
ghost use Rattle.std.specs.List.{list_any, position};
ghost use Rattle.ca_machine.specs.State.{is_client_of, is_connection};
ghost use Rattle.device_registry.specs.Endpoints.{is_endpoint};
ghost use Rattle.service_book.specs.InOrder.{IsBook};
ghost use Rattle.service_book.specs.Lookups.{IsActiveAt, LacksActive};

use crate::Book;
use crate::search::client_at;
use ca_base::values::STATE_ACTIVE;
use ca_base::{ClientNo, ConnNo, EndpointNo};
use device_registry::Endpoint;

impl Book {
    /// Whether a connection is open.
    pub fn is_connected(&self, conn: ConnNo) -> bool
        ensures { result ≡ list_any (is_connection conn.0) self.now.connections.items }
    {
        self.connections.iter().any(|c| c.conn == conn)
    }

    /// The place of an open connection.
    pub fn connection_place(&self, conn: ConnNo) -> Option<usize>
        ensures { result ≡ position (is_connection conn.0) self.now.connections.items }
    {
        self.connections.iter().position(|c| c.conn == conn)
    }

    /// The place of a live client of a connection.
    pub fn client_place(&self, conn: ConnNo, client: ClientNo) -> Option<usize>
        requires { IsBook self.now }
        ensures { result ≡ position (is_client_of conn.0 client.0) self.now.clients.items }
    {
        client_at(&self.clients, conn, client)
    }

    /// The place of the live client of this number.
    pub fn live_place(&self, client: ClientNo) -> Option<usize>
        ensures { result ≡ position (λ c. c.client.0 == client.0) self.now.clients.items }
    {
        self.clients.iter().position(|c| c.client == client)
    }

    /// The place of an endpoint.
    pub fn endpoint_place(&self, e: EndpointNo) -> Option<usize>
        ensures { result ≡ position (is_endpoint e.0) self.now.registry.list }
    {
        self.registry.place(e)
    }

    /// The endpoint at a place.
    pub fn endpoint(&self, at: usize) -> &Endpoint
        requires { at < length self.now.registry.list }
        ensures { result.now ≡ slice_index_or self.now.registry.list at result.now }
    {
        &self.registry.endpoints()[at]
    }

    /// The place of an endpoint that is there and ACTIVE.
    pub fn active_endpoint(&self, e: EndpointNo) -> Option<usize>
        ensures { MatchOption result (LacksActive e.0 self.now) (IsActiveAt e.0 self.now) }
    {
        let at = self.endpoint_place(e)?;
        if self.endpoint(at).state != STATE_ACTIVE {
            return None;
        }
        Some(at)
    }
}
