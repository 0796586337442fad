//! Which endpoints were chosen, and which endpoint is the default.

ghost use Rattle.std.specs.Prelude.{◌≡◌, ◌+◌, ◌*◌, ◌<◌, ◌≤◌};
ghost use Rattle.device_registry.specs.Endpoints.{flow_number};
ghost use Rattle.std.specs.Option.{option_map};
ghost use Rattle.role_defaults.specs.Defaults.{answered, default_of, first_active, is_active_at, no_choices};
ghost use Rattle.role_defaults.specs.Defaults.{with_choice};

use ca_base::values::{ROLE_COMMUNICATIONS, STATE_ACTIVE};
use ca_base::{EndpointNo, Flow, Hr};
use device_registry::{Endpoint, Registry, flow_number};

/// How many roles there are (ERole): console, multimedia and communications.
pub const ROLES: usize = 3;

/// How many choices there are: one for each flow and role.
pub const CHOICES: usize = 6;

/// The endpoint that was chosen for each flow and role.
#[derive(Clone, Copy)]
pub struct Choices {
    /// The number of the endpoint at three times the flow plus the role; 0 if none was chosen.
    pub chosen: [u32; CHOICES],
}

/// Where the choice for a flow and a role is.
fn place_of(flow: Flow, role: u8) -> usize
    requires { role ≤ ROLE_COMMUNICATIONS }
    ensures place { result ≡ flow_number flow * ROLES + role }
    ensures within { result < CHOICES }
{
    flow_number(flow) as usize * ROLES + role as usize
}

/// The first active endpoint of a flow.
fn first_active(list: &[Endpoint], flow: Flow) -> Option<EndpointNo>
    ensures { result ≡ option_map (λ e. e.no) (first_active (flow_number flow) list.now) }
{
    let e = list
        .iter()
        .find(|e| e.flow == flow && e.state == STATE_ACTIVE)?;
    Some(e.no)
}

/// Whether an endpoint is there and active.
fn is_active(r: &Registry, no: EndpointNo) -> bool
    ensures { result ≡ is_active_at no.0 r.now.list }
{
    match r.get(no) {
        Some(e) => e.state == STATE_ACTIVE,
        None => false,
    }
}

impl Choices {
    /// None is chosen.
    pub fn new() -> Choices
        ensures { result ≡ no_choices }
    {
        Choices {
            chosen: [0; CHOICES],
        }
    }

    /// Chooses an endpoint for a flow and a role (0 to 2), whether it is there or not.
    pub fn choose(&mut self, flow: Flow, role: u8, e: EndpointNo)
        requires { role ≤ ROLE_COMMUNICATIONS }
        ensures { self.new ≡ with_choice (flow_number flow) role e.0 self.old }
    {
        self.chosen[place_of(flow, role)] = e.0;
    }

    /// The default endpoint of a flow and a role (0 to 2): the chosen one if it is there and active, or else the active
    /// one of that flow with the lowest number.
    ///
    /// Errors: E_NOTFOUND if the flow has no active endpoint.
    pub fn default_of(&self, r: &Registry, flow: Flow, role: u8) -> Result<EndpointNo, Hr>
        requires { role ≤ ROLE_COMMUNICATIONS }
        ensures { result ≡ answered (default_of r.now.list self.now (flow_number flow) role) }
    {
        let chosen = EndpointNo(self.chosen[place_of(flow, role)]);
        if is_active(r, chosen) {
            return Ok(chosen);
        }
        match first_active(r.endpoints(), flow) {
            Some(no) => Ok(no),
            None => Err(Hr::E_NOTFOUND),
        }
    }
}
