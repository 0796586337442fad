//! Endpoints: what an event of one is asked with, and what it makes of one.

ghost use Rattle.std.specs.Prelude.{◌≡◌, ◌||◌, not, nat_le, nat_lt, Some};
ghost use Rattle.std.specs.Str.{is_utf8};
ghost use Rattle.ca_machine.specs.Devices.{is_wrong_choice, leaves_active, with_exclusive, with_name};
ghost use Rattle.ca_machine.specs.Periods.{shared_frames};

use crate::Book;
use ca_base::limits::SHARED_PERIOD;
use ca_base::values::{FLOW_CAPTURE, ROLE_COMMUNICATIONS, STATE_ACTIVE};
use ca_base::{EndpointNo, Text};
use device_registry::{Endpoint, flow_number};
use wave_format::{Format, frames_of};

/// Whether bytes are a text in UTF-8.
pub fn is_text(bytes: &[u8]) -> bool
    ensures { result ≡ is_utf8 bytes.now }
{
    str::from_utf8(bytes).is_ok()
}

/// The frames of the period of an endpoint's shared streams.
pub fn shared_frames(e: &Endpoint) -> u32
    ensures { result ≡ shared_frames e.now }
{
    frames_of(e.format.rate, SHARED_PERIOD) as u32
}

/// Whether an endpoint that would have this state leaves ACTIVE.
pub fn leaves_active(e: &Endpoint, state: u32) -> bool
    ensures { result ≡ leaves_active state e.now }
{
    e.state == STATE_ACTIVE && state != STATE_ACTIVE
}

/// Whether a flow isn't the endpoint's, or there is no such role.
pub fn is_wrong_choice(e: &Endpoint, flow: u8, role: u8) -> bool
    ensures { result ≡ is_wrong_choice flow role (Some e.now) }
{
    flow > FLOW_CAPTURE || role > ROLE_COMMUNICATIONS || flow_number(e.flow) != flow
}

/// An endpoint with another format.
pub fn with_format(e: &Endpoint, format: Format) -> Endpoint
    ensures { result ≡ record (e.now) { format = format } }
{
    Endpoint {
        no: e.no,
        flow: e.flow,
        state: e.state,
        format,
        name: e.name,
        allow: e.allow,
        priority: e.priority,
    }
}

/// Whether what is said of exclusive use is neither 0 nor 1.
pub fn is_wrong_use(allow: u8, priority: u8) -> bool
    ensures { result ≡ (nat_lt 1 allow || nat_lt 1 priority) }
{
    allow > 1 || priority > 1
}

/// An endpoint of which another thing is said of exclusive use: 0 or 1 each.
pub fn with_exclusive(e: &Endpoint, allow: u8, priority: u8) -> Endpoint
    ensures { result ≡ with_exclusive allow priority e.now }
{
    Endpoint {
        no: e.no,
        flow: e.flow,
        state: e.state,
        format: e.format,
        name: e.name,
        allow: allow == 1,
        priority: priority == 1,
    }
}

/// An endpoint with another name.
pub fn with_name(e: &Endpoint, name: &Text) -> Endpoint
    ensures { result ≡ with_name name.now e.now }
{
    Endpoint {
        no: e.no,
        flow: e.flow,
        state: e.state,
        format: e.format,
        name: *name,
        allow: e.allow,
        priority: e.priority,
    }
}

impl Book {
    /// Whether an endpoint that is to be added has a number that isn't above all before it, no flow, or a name that is
    /// no text.
    pub fn is_wrong_add(&self, number: EndpointNo, flow: u8, name: &Text) -> bool
        ensures { result ≡ (nat_le number.0 self.now.registry.last
            || (nat_lt FLOW_CAPTURE flow || not (is_utf8 name.now))) }
    {
        number.0 <= self.registry.last() || flow > FLOW_CAPTURE || !is_text(name.as_bytes())
    }
}
