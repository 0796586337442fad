//! What calls tell of sessions (IAudioSessionEnumerator, IAudioSessionControl2).

ghost use Rattle.std.specs.Prelude.{◌≡◌, ◌≤◌, [], None, length};
ghost use Rattle.ca_machine.specs.Sessions.{enum_sessions_plan, get_session_plan, state_of_session};
ghost use Rattle.reply_payload.specs.Answers.{told_code};
ghost use Rattle.service_board.specs.Does.{AnyData, Does};
ghost use Rattle.service_board.specs.InOrder.{InOrder};
ghost use Rattle.reply_payload.specs.declared.payload.TheConstants.{REPLY_ROOM};

use crate::Board;
use buffer_ring::EngineSide;
use ca_base::{Bytes, ConnNo, EndpointNo, Hr, SessionNo};
use device_io::Devices;
use reply_payload::{REPLY_ROOM, put_session, put_sessions_of};
use stream_entries::state_of_session;

impl<D: Devices, E: EngineSide> Board<D, E> {
    /// IAudioSessionEnumerator: how many sessions an endpoint has, and their numbers, in the order in which they were
    /// made. The payload is empty before and has taken memory for the longest one.
    ///
    /// Errors: E_NOTFOUND if the endpoint isn't there.
    pub fn enum_sessions(&self, conn: ConnNo, e: EndpointNo, out: &mut Bytes) -> Result<(), Hr>
        requires empty { out.old.list ≡ [] }
        requires room { REPLY_ROOM ≤ out.old.capacity }
        ensures does { Does D.faults D.told E.moves None AnyData self.now self.now
            (λ st. enum_sessions_plan st conn.0 e.0) (told_code result) out.new.list }
        ensures within { length out.new.list ≤ REPLY_ROOM }
        ensures keeps { out.old.capacity ≤ out.new.capacity }
    {
        self.connected(conn)?;
        if self.book.endpoint_place(e).is_none() {
            return Err(Hr::E_NOTFOUND);
        }
        put_sessions_of(&self.book.sessions, e, out);
        Ok(())
    }

    /// IAudioSessionControl2: the data of a session. The payload is empty before and has taken memory for the longest
    /// one.
    ///
    /// Errors: E_NOTFOUND if the session isn't there.
    pub fn get_session(&self, conn: ConnNo, session: SessionNo, out: &mut Bytes) -> Result<(), Hr>
        requires order { InOrder E.state self.now }
        requires empty { out.old.list ≡ [] }
        requires room { REPLY_ROOM ≤ out.old.capacity }
        ensures does { Does D.faults D.told E.moves None AnyData self.now self.now
            (λ st. get_session_plan st conn.0 session.0) (told_code result) out.new.list }
        ensures within { length out.new.list ≤ REPLY_ROOM }
        ensures keeps { out.old.capacity ≤ out.new.capacity }
    {
        self.connected(conn)?;
        let Some(s) = self.book.sessions.get(session) else {
            return Err(Hr::E_NOTFOUND);
        };
        put_session(s, state_of_session(&self.entries, session), out);
        Ok(())
    }
}
