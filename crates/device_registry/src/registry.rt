//! The endpoints as a list.

ghost use Rattle.std.specs.Prelude.{◌≡◌, IfOk, IfSome};
ghost use Rattle.std.specs.List.{position};
ghost use Rattle.std.specs.Option.{option_copied};
ghost use Rattle.device_registry.specs.Endpoints.{endpoint_at, is_endpoint, no_endpoints};
ghost use Rattle.device_registry.specs.Registry.{IsEndpoint, IsList};

use crate::Endpoint;
use crate::lookups::place_of;
use ca_base::limits::ENDPOINTS;
use ca_base::{EndpointNo, NoMemory};
use std::alloc::Global;
use std::marker::Model;

/// The endpoints that are there, in the order of their numbers, and the greatest number that was ever added. Its memory
/// is taken when it is made, and no call takes more.
#[derive(Drop)]
pub struct Registry {
    pub(crate) endpoints: Vec<Endpoint>,
    pub(crate) last: u32,
}

impl Model for Registry {
    ghost use Rattle.device_registry.specs.Endpoints.{EndpointList};
    ghost use Rattle.device_registry.specs.Registry.{IsRegistry};

    ghost Value = { EndpointList };

    ghost view = { λ r. record { list = r.endpoints.items; last = r.last } };

    ghost invariant = { IsRegistry };
}

impl Registry {
    /// No endpoints, and memory for as many as there may be.
    pub fn new(alloc: Global) -> Result<Registry, NoMemory>
        ensures { IfOk result (λ r. r ≡ no_endpoints) }
    {
        let endpoints = Vec::with_capacity(alloc, ENDPOINTS)?;
        Ok(Registry { endpoints, last: 0 })
    }

    /// The endpoints, in the order of their numbers.
    pub fn endpoints(&self) -> &[Endpoint]
        ensures list { result.now ≡ self.now.list }
        ensures holds { IsList self.now }
    {
        &self.endpoints
    }

    /// The greatest number that was ever added, 0 if none was.
    pub fn last(&self) -> u32
        ensures { result ≡ self.now.last }
    {
        self.last
    }

    /// The place of the endpoint of this number in the list.
    pub fn place(&self, no: EndpointNo) -> Option<usize>
        ensures { result ≡ position (is_endpoint no.0) self.now.list }
    {
        place_of(&self.endpoints, no)
    }

    /// The endpoint of this number (IMMDeviceEnumerator::GetDevice).
    pub fn get(&self, no: EndpointNo) -> Option<&Endpoint>
        ensures endpoint { option_copied result ≡ endpoint_at no.0 self.now.list }
        ensures holds { IfSome result (λ e. IsEndpoint e.now) }
    {
        match place_of(&self.endpoints, no) {
            Some(at) => Some(&self.endpoints[at]),
            None => None,
        }
    }
}
