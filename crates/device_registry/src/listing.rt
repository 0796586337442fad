//! The endpoints of a flow and of states (IMMDeviceEnumerator::EnumAudioEndpoints).

ghost use Rattle.std.specs.Prelude.{◌≡◌, ◌+◌, ◌≤◌, ◌++◌, [], length, map};
ghost use Rattle.std.specs.List.{AllByRecursion};
ghost use Rattle.std.specs.Vec.{vec_capacity, vec_len};
ghost use Rattle.device_registry.specs.Endpoints.{matching};
ghost use Rattle.device_registry.specs.Registry.{IsEndpoint};

use crate::{Endpoint, Registry};
use ca_base::EndpointNo;
use ca_base::limits::ENDPOINTS;

/// Adds the numbers of the endpoints of a flow whose state's bit is set in a mask.
fn add_numbers(list: &[Endpoint], flow: u8, mask: u32, out: &mut Vec<EndpointNo>)
    requires each { AllByRecursion IsEndpoint list.now }
    requires room { vec_len out.old + length list.now ≤ vec_capacity out.old }
    ensures numbers { out.new.items ≡ out.old.items ++ map (λ e. e.no) (matching flow mask list.now) }
    ensures keeps { vec_capacity out.new ≡ vec_capacity out.old }
{
    'endpoints: for e in list.iter() {
        if e.is_matching(flow, mask) {
            out.push_reserved(e.no);
        }
    }
}

impl Registry {
    /// Adds the numbers of the endpoints of a flow, 0 or 1, or of both, 2, whose state's bit is set in a mask, to an
    /// empty list that has room for all: in their order. It takes no memory.
    pub fn enumerate(&self, flow: u8, mask: u32, out: &mut Vec<EndpointNo>)
        requires empty { out.old.items ≡ [] }
        requires room { ENDPOINTS ≤ vec_capacity out.old }
        ensures numbers { out.new.items ≡ map (λ e. e.no) (matching flow mask self.now.list) }
        ensures keeps { vec_capacity out.new ≡ vec_capacity out.old }
    {
        add_numbers(&self.endpoints, flow, mask, out);
    }
}
