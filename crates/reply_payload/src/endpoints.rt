//! What is told of endpoints (IMMDeviceEnumerator, IMMDevice).

ghost use Rattle.std.specs.Prelude.{◌≡◌, ◌+◌, ◌≤◌, [], ◌++◌, length};
ghost use Rattle.arrayvec.specs.ArrayVec.{array_vec_len};
ghost use Rattle.ca_base.specs.declared.limits.TheConstants.{ENDPOINTS};
ghost use Rattle.ca_machine.specs.Endpoints.{endpoint_payload, endpoints_payload, id_of};
ghost use Rattle.reply_payload.specs.declared.payload.TheConstants.{REPLY_ROOM};

use crate::payload::REPLY_ROOM;
use crate::pieces::{flag, put_format, put_text};
use arrayvec::ArrayVec;
use ca_base::{Bytes, EndpointNo, Text};
use device_registry::{Endpoint, flow_number};

/// The longest id of an endpoint, in bytes: nine ahead of its number, which has ten digits at most.
const LONGEST_ID: usize = 9 + 10;

/// Adds bytes of an id that fit.
fn add_to_id(id: &mut ArrayVec<u8, LONGEST_ID>, bytes: &[u8])
    requires { array_vec_len id.old + length bytes.now ≤ LONGEST_ID }
    ensures { id.new.items ≡ id.old.items ++ bytes.now }
{
    if id.try_extend_from_slice(bytes).is_err() {
        unreachable!();
    }
}

/// The text that names an endpoint (IMMDevice::GetId).
pub fn id_of(no: EndpointNo) -> Text
    ensures { result ≡ id_of no.0 }
{
    let mut buffer = itoa::Buffer::new();
    let mut id = ArrayVec::new();
    add_to_id(&mut id, b"endpoint-");
    add_to_id(&mut id, buffer.format(no.0).as_bytes());
    Text::new(id.as_slice())
}

/// Puts how many endpoints a call found, and their numbers, in their order.
pub fn put_endpoints(numbers: &[EndpointNo], out: &mut Bytes)
    requires few { length numbers.now ≤ ENDPOINTS }
    requires empty { out.old.list ≡ [] }
    requires room { REPLY_ROOM ≤ out.old.capacity }
    ensures list { out.new.list ≡ endpoints_payload numbers.now }
    ensures within { length out.new.list ≤ REPLY_ROOM }
    ensures keeps { out.old.capacity ≤ out.new.capacity }
{
    out.append_reserved(&(numbers.len() as u32).to_le_bytes());
    'numbers: for number in numbers.iter() {
        out.append_reserved(&number.0.to_le_bytes());
    }
}

/// Puts an endpoint's data: its numbers, its format, its id and its name.
pub fn put_endpoint(e: &Endpoint, out: &mut Bytes)
    requires empty { out.old.list ≡ [] }
    requires room { REPLY_ROOM ≤ out.old.capacity }
    ensures list { out.new.list ≡ endpoint_payload e.now }
    ensures within { length out.new.list ≤ REPLY_ROOM }
    ensures keeps { out.old.capacity ≤ out.new.capacity }
{
    out.append_reserved(&[flow_number(e.flow)]);
    out.append_reserved(&e.state.to_le_bytes());
    out.append_reserved(&[flag(e.allow), flag(e.priority)]);
    put_format(&e.format, out);
    put_text(&id_of(e.no), out);
    put_text(&e.name, out);
}
