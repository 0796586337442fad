//! Clients that leave: Release and Hangup (this project's own). Their streams go with them, and sessions without one.

ghost use Rattle.std.specs.Prelude.{None};
ghost use Rattle.std.specs.List.{All};
ghost use Rattle.ca_machine.specs.Clients.{hangup_plan, release_plan};
ghost use Rattle.period_engine.specs.Entries.{IsRested};
ghost use Rattle.reply_payload.specs.Answers.{code_of, payload_of};
ghost use Rattle.service_board.specs.Does.{AnyData, Does};
ghost use Rattle.service_board.specs.InOrder.{InOrder};
ghost use Rattle.service_board.specs.Leaving.{AreClosed, Forgets};

use crate::Board;
use buffer_ring::EngineSide;
use ca_base::{ClientNo, ConnNo, Hr};
use device_io::Devices;
use reply_payload::Payload;
use service_book::{drop_client, drop_clients, drop_connection, drop_notices};
use stream_entries::{drop_sessions, drop_streams};

impl<D, E: EngineSide> Board<D, E> {
    /// Takes away what belongs to no live client: streams, whose stores are closed, and sessions without a stream. The
    /// streams that are left keep their gains, since their sessions stay.
    fn forget_gone(&mut self)
        requires rested { All (IsRested E.state) self.old.entries.items }
        ensures { Forgets E.moves self.old self.new }
    {
        drop_streams(&mut self.entries, &self.book.clients);
        drop_sessions(&mut self.book.sessions, &self.entries);
    }
}

impl<D: Devices, E: EngineSide> Board<D, E> {
    /// Releases a client: its stream, if it has one, is closed and goes with it.
    pub fn release(&mut self, conn: ConnNo, client: ClientNo) -> Result<Payload, Hr>
        requires order { InOrder E.state self.old }
        ensures does { Does D.faults D.told E.moves None AnyData self.old self.new
            (λ st. release_plan st conn.0 client.0) (code_of result) (payload_of result) }
        ensures order { InOrder E.state self.new }
        ensures closed { AreClosed E.moves self.old.entries.items self.new.entries.items }
    {
        self.live_client(conn, client)?;
        drop_client(&mut self.book.clients, conn, client);
        self.forget_gone();
        Ok(Payload::Nothing)
    }

    /// Ends a connection, and releases all of its clients.
    pub fn hangup(&mut self, conn: ConnNo) -> Result<Payload, Hr>
        requires order { InOrder E.state self.old }
        ensures does { Does D.faults D.told E.moves None AnyData self.old self.new
            (λ st. hangup_plan st conn.0) (code_of result) (payload_of result) }
        ensures order { InOrder E.state self.new }
        ensures closed { AreClosed E.moves self.old.entries.items self.new.entries.items }
    {
        self.known(conn)?;
        drop_clients(&mut self.book.clients, conn);
        drop_connection(&mut self.book.connections, conn);
        drop_notices(&mut self.book.notices, conn);
        self.forget_gone();
        Ok(Payload::Nothing)
    }
}
