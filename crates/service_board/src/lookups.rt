//! Look-ups of a call: whom it names. A look-up that fails tells the code of the call's row.

ghost use Rattle.std.specs.Prelude.{◌≡◌, ◌<◌, IfErr, IfOk, Some, None};
ghost use Rattle.std.specs.Result.{result_err};
ghost use Rattle.std.specs.List.{position};
ghost use Rattle.ca_machine.specs.SharedRows.{connection_rows, control_rows, shut_rows};
ghost use Rattle.service_board.specs.InOrder.{InOrder};
ghost use Rattle.service_board.specs.Lookups.{FindsClient, FindsStream, Says};
ghost use Rattle.service_board.specs.Lookups.{client_call_rows, client_control_rows, stream_call_rows};
ghost use Rattle.stream_entries.specs.Search.{is_entry_of};

use crate::Board;
use buffer_ring::EngineSide;
use ca_base::{ClientNo, ConnNo, Hr};
use client_state::gate_refusal;
use stream_entries::entry_at;

impl<D, E: EngineSide> Board<D, E> {
    /// The place of a client's entry.
    pub fn entry_place(&self, client: ClientNo) -> Option<usize>
        requires order { InOrder E.state self.now }
        ensures { result ≡ position (is_entry_of client.0) self.now.entries.items }
    {
        entry_at(&self.entries, client)
    }

    /// Whether the connection is open of a call that is answered after a shutdown too.
    pub fn known(&self, conn: ConnNo) -> Result<(), Hr>
        ensures { Says self.now (connection_rows conn.0) (result_err result) }
    {
        if !self.book.is_connected(conn) {
            return Err(Hr::E_HANDLE);
        }
        Ok(())
    }

    /// Whether the service runs.
    pub fn runs(&self) -> Result<(), Hr>
        ensures { Says self.now shut_rows (result_err result) }
    {
        if self.book.is_shut {
            return Err(Hr::SERVICE_NOT_RUNNING);
        }
        Ok(())
    }

    /// Whether a control call's connection is open, and the service runs.
    pub fn connected(&self, conn: ConnNo) -> Result<(), Hr>
        ensures { Says self.now (control_rows conn.0) (result_err result) }
    {
        self.known(conn)?;
        self.runs()
    }

    /// The place in the book of a call's client, which is a live client of the connection. A live client's connection
    /// is open, and a call of another one has the same code whether its connection is open or not: so it isn't looked
    /// up.
    pub fn live_client(&self, conn: ConnNo, client: ClientNo) -> Result<usize, Hr>
        requires order { InOrder E.state self.now }
        ensures refused { IfErr result (λ code. Says self.now (client_call_rows conn.0 client.0) (Some code)) }
        ensures found { IfOk result (FindsClient conn.0 client.0 self.now) }
    {
        match self.book.client_place(conn, client) {
            Some(place) => Ok(place),
            None => Err(Hr::E_HANDLE),
        }
    }

    /// The same for a control call that isn't answered after a shutdown.
    pub fn control_client(&self, conn: ConnNo, client: ClientNo) -> Result<usize, Hr>
        requires order { InOrder E.state self.now }
        ensures refused { IfErr result (λ code. Says self.now (client_control_rows conn.0 client.0) (Some code)) }
        ensures found { IfOk result (λ at. FindsClient conn.0 client.0 self.now at
            × Says self.now (client_control_rows conn.0 client.0) None) }
    {
        if self.book.is_shut {
            self.connected(conn)?;
        }
        self.live_client(conn, client)
    }

    /// The place of the entry of a call's client, whose stream is open.
    pub fn open_stream(&self, conn: ConnNo, client: ClientNo) -> Result<usize, Hr>
        requires order { InOrder E.state self.now }
        ensures refused { IfErr result (λ code. Says self.now (stream_call_rows conn.0 client.0) (Some code)) }
        ensures found { IfOk result (FindsStream conn.0 client.0 self.now) }
    {
        self.control_client(conn, client)?;
        let Some(at) = self.entry_place(client) else {
            return Err(Hr::NOT_INITIALIZED);
        };
        match gate_refusal(self.entries[at].gate) {
            Some(code) => Err(code),
            None => Ok(at),
        }
    }
}
