//! What is known of an endpoint. The definitions and the code have the same record.

ghost use Rattle.std.specs.Prelude.{◌≡◌, true};
ghost use Rattle.device_registry.specs.Endpoints.{flow_number, has_bit, is_matching, is_state};

use ca_base::values::{
    FLOW_ALL, FLOW_CAPTURE, FLOW_RENDER, STATE_ACTIVE, STATE_DISABLED, STATE_NOTPRESENT,
    STATE_UNPLUGGED,
};
use ca_base::{EndpointNo, Flow, Text};
use wave_format::Format;

/// An endpoint that was added and not removed (IMMDevice).
#[derive(Clone, Copy)]
pub struct Endpoint {
    pub no: EndpointNo,
    pub flow: Flow,
    /// DEVICE_STATE_XXX: 1, 2, 4 or 8.
    pub state: u32,
    /// The format that its device has.
    pub format: Format,
    /// The name that a user interface shows it by (PKEY_Device_FriendlyName).
    pub name: Text,
    /// Whether exclusive use is allowed.
    pub allow: bool,
    /// Whether exclusive use takes precedence over shared streams.
    pub priority: bool,
}

/// The number of a flow (EDataFlow): 0 or 1.
pub fn flow_number(flow: Flow) -> u8
    ensures { result ≡ flow_number flow }
{
    match flow {
        Flow::Render => FLOW_RENDER,
        Flow::Capture => FLOW_CAPTURE,
    }
}

/// Whether a number is that of a state (DEVICE_STATE_XXX).
pub fn is_state(state: u32) -> bool
    ensures { result ≡ is_state state }
{
    state == STATE_ACTIVE
        || state == STATE_DISABLED
        || state == STATE_NOTPRESENT
        || state == STATE_UNPLUGGED
}

/// Whether the bit of a state is set in a mask.
fn has_bit(mask: u32, state: u32) -> bool
    requires { is_state state ≡ true }
    ensures { result ≡ has_bit mask state }
{
    mask & state != 0
}

impl Endpoint {
    /// Whether its flow is the wanted one (0 to 2, of which 2 is both), and the bit of its state is set in a mask.
    pub fn is_matching(&self, flow: u8, mask: u32) -> bool
        requires { is_state self.now.state ≡ true }
        ensures { result ≡ is_matching flow mask self.now }
    {
        (flow == FLOW_ALL || flow_number(self.flow) == flow) && has_bit(mask, self.state)
    }
}
