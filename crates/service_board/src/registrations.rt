//! What a connection registers for, and the notices that it takes
//! (IMMDeviceEnumerator::RegisterEndpointNotificationCallback and the like; that a connection asks for its notices is
//! this project's own).

ghost use Rattle.std.specs.Prelude.{◌≡◌, ◌≤◌, [], IfErr, IfOk, None, Some, length};
ghost use Rattle.ca_machine.specs.Registrations.{register_plan, take_notices_plan, unregister_plan};
ghost use Rattle.ca_machine.specs.SharedRows.{connection_rows, control_rows};
ghost use Rattle.reply_payload.specs.Answers.{code_of, payload_of, told_code};
ghost use Rattle.reply_payload.specs.declared.payload.TheConstants.{REPLY_ROOM};
ghost use Rattle.service_board.specs.Does.{AnyData, Does};
ghost use Rattle.service_board.specs.InOrder.{InOrder};
ghost use Rattle.service_board.specs.Lookups.{FindsNotices, Says};

use crate::Board;
use buffer_ring::EngineSide;
use ca_base::{Bytes, ConnNo, Hr};
use ca_machine::Client;
use device_io::Devices;
use event_notices::NoticeFault;
use reply_payload::{Payload, REPLY_ROOM, put_notices};
use stream_entries::take_events;

impl<D, E: EngineSide> Board<D, E> {
    /// The place in the book of the notices of a call's connection, which is open. The call is answered after a
    /// shutdown too.
    fn known_notices(&self, conn: ConnNo) -> Result<usize, Hr>
        requires order { InOrder E.state self.now }
        ensures refused { IfErr result (λ code. Says self.now (connection_rows conn.0) (Some code)) }
        ensures found { IfOk result (FindsNotices conn.0 (connection_rows conn.0) self.now) }
    {
        self.known(conn)?;
        Ok(conn.0 as usize - 1)
    }

    /// The same for a call that isn't answered after a shutdown.
    fn control_notices(&self, conn: ConnNo) -> Result<usize, Hr>
        requires order { InOrder E.state self.now }
        ensures refused { IfErr result (λ code. Says self.now (control_rows conn.0) (Some code)) }
        ensures found { IfOk result (FindsNotices conn.0 (control_rows conn.0) self.now) }
    {
        let at = self.known_notices(conn)?;
        self.runs()?;
        Ok(at)
    }
}

impl<D: Devices, E: EngineSide> Board<D, E> {
    /// Registers a connection for the notices of a class about one subject, or about all with 0, and answers the
    /// number of the registration (IMMDeviceEnumerator::RegisterEndpointNotificationCallback and the like).
    ///
    /// Errors: E_INVALIDARG if there is no such class, WORN if the connection made 2^62, and else E_OUTOFMEMORY if
    /// there is no memory for one more.
    pub fn register(&mut self, conn: ConnNo, class: u8, subject: u64) -> Result<Payload, Hr>
        requires order { InOrder E.state self.old }
        ensures does { Does D.faults D.told E.moves None AnyData self.old self.new
            (λ st. register_plan st conn.0 class subject) (code_of result) (payload_of result) }
        ensures order { InOrder E.state self.new }
    {
        let at = self.control_notices(conn)?;
        match self.book.notices[at].register(class, subject) {
            Ok(number) => Ok(Payload::Long(number)),
            Err(NoticeFault::Refused(code)) => Err(code),
            Err(NoticeFault::NoMemory) => Err(Hr::E_OUTOFMEMORY),
        }
    }

    /// Ends a registration of a connection (IMMDeviceEnumerator::UnregisterEndpointNotificationCallback and the like).
    /// The notices that it matched stay.
    ///
    /// Errors: E_NOTFOUND if the connection has no registration of this number.
    pub fn unregister(&mut self, conn: ConnNo, number: u64) -> Result<Payload, Hr>
        requires order { InOrder E.state self.old }
        ensures does { Does D.faults D.told E.moves None AnyData self.old self.new
            (λ st. unregister_plan st conn.0 number) (code_of result) (payload_of result) }
        ensures order { InOrder E.state self.new }
    {
        let at = self.control_notices(conn)?;
        self.book.notices[at].unregister(number)?;
        Ok(Payload::Nothing)
    }

    /// Takes the events of a connection's clients that were set, and the first notices that it keeps, `max` at most,
    /// and puts them, with how many notices were lost before them. The payload is empty before and has taken memory for
    /// the longest one. It is answered after a shutdown too, and takes no memory.
    ///
    /// Errors: E_HANDLE if the connection isn't open.
    pub fn take_notices(&mut self, conn: ConnNo, max: u32, out: &mut Bytes) -> Result<(), Hr>
        requires order { InOrder E.state self.old }
        requires empty { out.old.list ≡ [] }
        requires room { REPLY_ROOM ≤ out.old.capacity }
        ensures does { Does D.faults D.told E.moves None AnyData self.old self.new
            (λ st. take_notices_plan st conn.0 max) (told_code result) out.new.list }
        ensures order { InOrder E.state self.new }
        ensures within { length out.new.list ≤ REPLY_ROOM }
        ensures keeps { out.old.capacity ≤ out.new.capacity }
    {
        let at = self.known_notices(conn)?;
        self.drafts.clear();
        let lost = self.book.notices[at].take(max, &mut self.drafts);
        let clients: &mut [Client] = &mut self.book.clients;
        put_notices(clients, conn, lost, &self.drafts, out);
        take_events(clients, conn);
        Ok(())
    }
}
