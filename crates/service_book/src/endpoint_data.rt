//! What calls ask of the list of endpoints (IMMDeviceEnumerator).

ghost use Rattle.std.specs.Prelude.{◌≡◌, ◌≤◌, ◌||◌, nat_lt, [], length, map};
ghost use Rattle.std.specs.List.{AllByRecursion, find};
ghost use Rattle.std.specs.Option.{option_map};
ghost use Rattle.std.specs.Str.{bytes_eq};
ghost use Rattle.ca_base.specs.declared.limits.TheConstants.{ENDPOINTS};
ghost use Rattle.ca_base.specs.declared.values.TheConstants.{FLOW_CAPTURE, ROLE_COMMUNICATIONS};
ghost use Rattle.device_registry.specs.Endpoints.{flow_number, matching};
ghost use Rattle.device_registry.specs.Registry.{IsEndpoint};
ghost use Rattle.ca_machine.specs.Endpoints.{endpoints_payload, id_of, is_wrong_enumeration};
ghost use Rattle.reply_payload.specs.declared.payload.TheConstants.{REPLY_ROOM};

use ca_base::limits::ENDPOINTS;
use ca_base::values::{FLOW_ALL, FLOW_CAPTURE, FLOW_RENDER, ROLE_COMMUNICATIONS};
use ca_base::{Bytes, EndpointNo, Flow};
use device_registry::Endpoint;
use reply_payload::{REPLY_ROOM, id_of, put_endpoints};

/// Whether endpoints are asked for by a flow that there isn't, by no state, or by a state that there isn't.
pub fn is_wrong_enumeration(flow: u8, mask: u32) -> bool
    ensures { result ≡ is_wrong_enumeration flow mask }
{
    flow > FLOW_ALL || mask == 0 || mask / 16 != 0
}

/// Puts how many endpoints there are of a flow, 0 or 1, or of both, 2, whose state's bit is set in a mask, and their
/// numbers, in their order.
pub fn put_matching(list: &[Endpoint], flow: u8, mask: u32, out: &mut Bytes)
    requires each { AllByRecursion IsEndpoint list.now }
    requires few { length list.now ≤ ENDPOINTS }
    requires empty { out.old.list ≡ [] }
    requires room { REPLY_ROOM ≤ out.old.capacity }
    ensures list { out.new.list ≡ endpoints_payload (map (λ e. e.no) (matching flow mask list.now)) }
    ensures within { length out.new.list ≤ REPLY_ROOM }
    ensures keeps { out.old.capacity ≤ out.new.capacity }
{
    let mut numbers = [EndpointNo(0); ENDPOINTS];
    let mut count = 0;
    'endpoints: for e in list.iter() {
        if e.is_matching(flow, mask) {
            numbers[count] = e.no;
            count += 1;
        }
    }
    put_endpoints(&numbers[..count], out);
}

/// Whether a default is asked for by a flow or a role that there isn't.
pub fn is_wrong_default(flow: u8, role: u8) -> bool
    ensures { result ≡ (nat_lt FLOW_CAPTURE flow || nat_lt ROLE_COMMUNICATIONS role) }
{
    flow > FLOW_CAPTURE || role > ROLE_COMMUNICATIONS
}

/// The flow of a number (EDataFlow): 0 or 1.
pub fn flow_of(number: u8) -> Flow
    requires { number ≤ FLOW_CAPTURE }
    ensures { flow_number result ≡ number }
{
    if number == FLOW_RENDER {
        Flow::Render
    } else {
        Flow::Capture
    }
}

/// The number of the endpoint that an id names, if it is there.
pub fn number_named(list: &[Endpoint], id: &[u8]) -> Option<EndpointNo>
    ensures { result ≡ option_map (λ e. e.no) (find (λ e. bytes_eq (id_of e.no.0) id.now) list.now) }
{
    let e = list.iter().find(|e| id_of(e.no).as_bytes() == id)?;
    Some(e.no)
}
