//! What calls tell of endpoints (IMMDeviceEnumerator, IMMDevice).

ghost use Rattle.std.specs.Prelude.{◌≡◌, ◌≤◌, [], None, length};
ghost use Rattle.ca_machine.specs.Endpoints.{device_info_plan, enum_endpoints_plan, get_default_plan, get_device_plan};
ghost use Rattle.reply_payload.specs.Answers.{code_of, payload_of, told_code};
ghost use Rattle.reply_payload.specs.declared.payload.TheConstants.{REPLY_ROOM};
ghost use Rattle.service_board.specs.Does.{AnyData, Does};

use crate::Board;
use buffer_ring::EngineSide;
use ca_base::{Bytes, ConnNo, EndpointNo, Hr, Text};
use device_io::Devices;
use reply_payload::{Payload, REPLY_ROOM, put_endpoint};
use service_book::{flow_of, is_wrong_default, is_wrong_enumeration, number_named, put_matching};

impl<D: Devices, E: EngineSide> Board<D, E> {
    /// IMMDeviceEnumerator::EnumAudioEndpoints: how many endpoints there are of a flow, 0 or 1, or of both, 2, whose
    /// state's bit is set in a mask, and their numbers, in the order in which they were added. The payload is empty
    /// before and has taken memory for the longest one.
    ///
    /// Errors: E_INVALIDARG if the flow is another, no bit is set, or one above those of the four states.
    pub fn enum_endpoints(
        &self,
        conn: ConnNo,
        flow: u8,
        mask: u32,
        out: &mut Bytes,
    ) -> Result<(), Hr>
        requires empty { out.old.list ≡ [] }
        requires room { REPLY_ROOM ≤ out.old.capacity }
        ensures does { Does D.faults D.told E.moves None AnyData self.now self.now
            (λ st. enum_endpoints_plan st conn.0 flow mask) (told_code result) out.new.list }
        ensures within { length out.new.list ≤ REPLY_ROOM }
        ensures keeps { out.old.capacity ≤ out.new.capacity }
    {
        self.connected(conn)?;
        if is_wrong_enumeration(flow, mask) {
            return Err(Hr::E_INVALIDARG);
        }
        put_matching(self.book.registry.endpoints(), flow, mask, out);
        Ok(())
    }

    /// IMMDeviceEnumerator::GetDefaultAudioEndpoint: the number of the endpoint that was chosen for a flow and a role
    /// if it is there and active, or else of the first active one of that flow.
    ///
    /// Errors: E_INVALIDARG if the flow isn't 0 or 1, or the role isn't 0, 1 or 2; E_NOTFOUND if the flow has no active
    /// endpoint.
    pub fn get_default(&self, conn: ConnNo, flow: u8, role: u8) -> Result<Payload, Hr>
        ensures does { Does D.faults D.told E.moves None AnyData self.now self.now
            (λ st. get_default_plan st conn.0 flow role) (code_of result) (payload_of result) }
    {
        self.connected(conn)?;
        if is_wrong_default(flow, role) {
            return Err(Hr::E_INVALIDARG);
        }
        let book = &self.book;
        let e = book
            .choices
            .default_of(&book.registry, flow_of(flow), role)?;
        Ok(Payload::Number(e.0))
    }

    /// IMMDeviceEnumerator::GetDevice: the number of the endpoint that an id names (IMMDevice::GetId).
    ///
    /// Errors: E_NOTFOUND if the id names no endpoint that is there.
    pub fn get_device(&self, conn: ConnNo, id: &Text) -> Result<Payload, Hr>
        ensures does { Does D.faults D.told E.moves None AnyData self.now self.now
            (λ st. get_device_plan st conn.0 id.now) (code_of result) (payload_of result) }
    {
        self.connected(conn)?;
        match number_named(self.book.registry.endpoints(), id.as_bytes()) {
            Some(e) => Ok(Payload::Number(e.0)),
            None => Err(Hr::E_NOTFOUND),
        }
    }

    /// IMMDevice: the data of an endpoint. The payload is empty before and has taken memory for the longest one.
    ///
    /// Errors: E_NOTFOUND if the endpoint isn't there.
    pub fn device_info(&self, conn: ConnNo, e: EndpointNo, out: &mut Bytes) -> Result<(), Hr>
        requires empty { out.old.list ≡ [] }
        requires room { REPLY_ROOM ≤ out.old.capacity }
        ensures does { Does D.faults D.told E.moves None AnyData self.now self.now
            (λ st. device_info_plan st conn.0 e.0) (told_code result) out.new.list }
        ensures within { length out.new.list ≤ REPLY_ROOM }
        ensures keeps { out.old.capacity ≤ out.new.capacity }
    {
        self.connected(conn)?;
        let Some(endpoint) = self.book.registry.get(e) else {
            return Err(Hr::E_NOTFOUND);
        };
        put_endpoint(endpoint, out);
        Ok(())
    }
}
