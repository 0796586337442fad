//! The place of an endpoint in the list.

ghost use Rattle.std.specs.Prelude.{◌≡◌};
ghost use Rattle.std.specs.List.{position};
ghost use Rattle.device_registry.specs.Endpoints.{is_endpoint};

use crate::Endpoint;
use ca_base::EndpointNo;

/// The place of the endpoint of this number.
pub fn place_of(list: &[Endpoint], no: EndpointNo) -> Option<usize>
    ensures { result ≡ position (is_endpoint no.0) list.now }
{
    list.iter().position(|e| e.no == no)
}
