//! Connections and clients: Open and Activate (IMMDevice::Activate; the rest is this project's own).

ghost use Rattle.std.specs.Prelude.{None};
ghost use Rattle.std.specs.Result.{result_err};
ghost use Rattle.ca_machine.specs.Clients.{activate_plan, activate_rows, open_plan, open_rows};
ghost use Rattle.reply_payload.specs.Answers.{code_of, payload_of};
ghost use Rattle.service_board.specs.Does.{AnyData, Does};
ghost use Rattle.service_board.specs.InOrder.{InOrder};
ghost use Rattle.service_board.specs.Lookups.{Says};

use crate::Board;
use buffer_ring::EngineSide;
use ca_base::limits::{CLIENTS, MAX_COUNT, MAX_LEVEL};
use ca_base::values::STATE_ACTIVE;
use ca_base::{ClientNo, ConnNo, EndpointNo, Hr, Text};
use ca_machine::{Client, Connection};
use device_io::Devices;
use reply_payload::Payload;
use service_book::is_role;

impl<D, E: EngineSide> Board<D, E> {
    /// Whether a connection may be opened: the code of the first row that refuses it.
    fn check_open(&self, conn: ConnNo, process: u32, name: &Text) -> Result<(), Hr>
        ensures { Says self.now (λ st. open_rows st conn.0 process name.now) (result_err result) }
    {
        self.runs()?;
        if self.book.is_wrong_open(conn, process, name) {
            return Err(Hr::E_INVALIDARG);
        }
        Ok(())
    }

    /// Whether a client may be activated: the code of the first row that refuses it.
    fn check_activate(&self, conn: ConnNo, endpoint: EndpointNo, role: u8) -> Result<(), Hr>
        ensures { Says self.now (λ st. activate_rows st conn.0 endpoint.0 role) (result_err result) }
    {
        self.connected(conn)?;
        let Some(place) = self.book.endpoint_place(endpoint) else {
            return Err(Hr::E_NOTFOUND);
        };
        if !is_role(role) {
            return Err(Hr::E_INVALIDARG);
        }
        if self.book.endpoint(place).state != STATE_ACTIVE {
            return Err(Hr::DEVICE_INVALIDATED);
        }
        if self.book.clients.len() >= CLIENTS {
            return Err(Hr::CLIENTS_FULL);
        }
        if self.book.clients_made >= MAX_COUNT {
            return Err(Hr::WORN);
        }
        Ok(())
    }
}

impl<D: Devices, E: EngineSide> Board<D, E> {
    /// Opens a connection of a process, under a name.
    pub fn open(&mut self, conn: ConnNo, process: u32, name: &Text) -> Result<Payload, Hr>
        requires order { InOrder E.state self.old }
        ensures does { Does D.faults D.told E.moves None AnyData self.old self.new
            (λ st. open_plan st conn.0 process name.now) (code_of result) (payload_of result) }
        ensures order { InOrder E.state self.new }
    {
        self.check_open(conn, process, name)?;
        let connection = Connection {
            conn,
            process,
            name: *name,
        };
        match self.book.connections.push(connection) {
            Ok(()) => Ok(Payload::Nothing),
            Err(_) => unreachable!(),
        }
    }

    /// Activates a client of a connection on an endpoint, and answers its number (IMMDevice::Activate).
    pub fn activate(&mut self, conn: ConnNo, endpoint: EndpointNo, role: u8) -> Result<Payload, Hr>
        requires order { InOrder E.state self.old }
        ensures does { Does D.faults D.told E.moves None AnyData self.old self.new
            (λ st. activate_plan st conn.0 endpoint.0 role) (code_of result) (payload_of result) }
        ensures order { InOrder E.state self.new }
    {
        self.check_activate(conn, endpoint, role)?;
        let number = self.book.clients_made + 1;
        let client = Client {
            client: ClientNo(number),
            conn,
            endpoint,
            role,
            levels: [MAX_LEVEL; 4],
            handle: 0,
            flagged: false,
        };
        match self.book.clients.push(client) {
            Ok(()) => {
                self.book.clients_made = number;
                Ok(Payload::Long(number))
            }
            Err(_) => unreachable!(),
        }
    }
}
