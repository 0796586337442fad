//! Endpoints that come, go and change (IMMNotificationClient tells of such events).

ghost use Rattle.std.specs.Prelude.{◌≡◌, true};
ghost use Rattle.wave_format.specs.Format.{IsValid};
ghost use Rattle.device_registry.specs.Changes.{Sets, with_changed, without};
ghost use Rattle.device_registry.specs.Endpoints.{added, endpoint_at, is_state, replaced_by, with_state};
ghost use Rattle.device_registry.specs.Rows.{add_rows, found_rows, state_rows};

use crate::endpoint::is_state;
use crate::lookups::place_of;
use crate::{Endpoint, Registry};
use ca_base::limits::ENDPOINTS;
use ca_base::{EndpointNo, Hr};

impl Registry {
    /// Adds an endpoint of a number above all that were ever added. It takes no memory. A refusal leaves the list as it
    /// was, as it does in the calls below.
    ///
    /// Errors: E_INVALIDARG if the number isn't above all others, ENDPOINTS_FULL if eight are there.
    pub fn add(&mut self, e: Endpoint) -> Result<(), Hr>
        requires state { is_state e.state ≡ true }
        requires format { IsValid e.format }
        ensures { Sets (add_rows e.no.0 self.old) (added e self.old) result self.old self.new }
    {
        if e.no.0 <= self.last {
            return Err(Hr::E_INVALIDARG);
        }
        if self.endpoints.len() >= ENDPOINTS {
            return Err(Hr::ENDPOINTS_FULL);
        }
        self.last = e.no.0;
        self.endpoints.push_reserved(e);
        Ok(())
    }

    /// Removes an endpoint. Its number is never added again.
    ///
    /// Errors: E_NOTFOUND if it isn't there.
    pub fn remove(&mut self, no: EndpointNo) -> Result<(), Hr>
        ensures { Sets (found_rows (endpoint_at no.0 self.old.list)) (without no.0 self.old) result self.old self.new }
    {
        if place_of(&self.endpoints, no).is_none() {
            return Err(Hr::E_NOTFOUND);
        }
        self.endpoints.retain(|e| e.no != no);
        Ok(())
    }

    /// Sets the state of an endpoint (DEVICE_STATE_XXX).
    ///
    /// Errors: E_NOTFOUND if the endpoint isn't there, E_INVALIDARG if the state isn't 1, 2, 4 or 8.
    pub fn set_state(&mut self, no: EndpointNo, state: u32) -> Result<(), Hr>
        ensures { Sets (state_rows state (endpoint_at no.0 self.old.list))
            (with_changed no.0 (with_state state) self.old) result self.old self.new }
    {
        let Some(at) = place_of(&self.endpoints, no) else {
            return Err(Hr::E_NOTFOUND);
        };
        if !is_state(state) {
            return Err(Hr::E_INVALIDARG);
        }
        self.endpoints[at].state = state;
        Ok(())
    }

    /// Gives the endpoint of this number the format, the name and the properties of exclusive use of another record of
    /// it. Its flow and its state stay.
    ///
    /// Errors: E_NOTFOUND if it isn't there.
    pub fn replace(&mut self, e: Endpoint) -> Result<(), Hr>
        requires { IsValid e.format }
        ensures { Sets (found_rows (endpoint_at e.no.0 self.old.list)) (with_changed e.no.0 (replaced_by e) self.old)
            result self.old self.new }
    {
        let Some(at) = place_of(&self.endpoints, e.no) else {
            return Err(Hr::E_NOTFOUND);
        };
        let endpoint = &mut self.endpoints[at];
        endpoint.format = e.format;
        endpoint.name = e.name;
        endpoint.allow = e.allow;
        endpoint.priority = e.priority;
        Ok(())
    }
}
