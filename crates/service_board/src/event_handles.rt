//! IAudioClient::SetEventHandle: the handle by which a client is told of its events.

ghost use Rattle.std.specs.Prelude.{None};
ghost use Rattle.ca_machine.specs.Streams.{set_event_handle_plan};
ghost use Rattle.reply_payload.specs.Answers.{code_of, payload_of};
ghost use Rattle.service_board.specs.Does.{AnyData, Does};
ghost use Rattle.service_board.specs.InOrder.{InOrder};

use crate::Board;
use buffer_ring::EngineSide;
use ca_base::{ClientNo, ConnNo, Hr};
use device_io::Devices;
use reply_payload::Payload;

impl<D: Devices, E: EngineSide> Board<D, E> {
    /// IAudioClient::SetEventHandle: the handle that TakeNotices tells when a period set the client's event.
    ///
    /// Errors: AUDCLNT_E_EVENTHANDLE_NOT_EXPECTED if the stream isn't driven by events, E_INVALIDARG for 0.
    pub fn set_event_handle(
        &mut self,
        conn: ConnNo,
        client: ClientNo,
        handle: u64,
    ) -> Result<Payload, Hr>
        requires order { InOrder E.state self.old }
        ensures does { Does D.faults D.told E.moves None AnyData self.old self.new
            (λ st. set_event_handle_plan st conn.0 client.0 handle) (code_of result) (payload_of result) }
        ensures order { InOrder E.state self.new }
    {
        let place = self.control_client(conn, client)?;
        let at = self.open_stream(conn, client)?;
        if !self.entries[at].event {
            return Err(Hr::EVENTHANDLE_NOT_EXPECTED);
        }
        if handle == 0 {
            return Err(Hr::E_INVALIDARG);
        }
        self.book.clients[place].handle = handle;
        Ok(Payload::Nothing)
    }
}
