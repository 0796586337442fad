//! What is noted of one thing. The definitions and the code have the same records.

use ca_base::limits::{ENDPOINTS, SESSIONS};
use ca_base::{ClientNo, EndpointNo, Gate, SessionNo};

/// How many defaults there are: one for each of two flows and three roles.
pub const DEFAULTS: usize = 6;

/// How many notices of devices a step makes at most: three of each endpoint, and one of each default.
pub const DEVICE_NOTICES: usize = 3 * ENDPOINTS + DEFAULTS;

/// How many notices of sessions a step makes at most: three of each session.
pub const SESSION_NOTICES: usize = 3 * SESSIONS;

/// An endpoint, and its state (DEVICE_STATE_XXX).
#[derive(Clone, Copy)]
pub struct NotedEndpoint {
    pub no: EndpointNo,
    pub state: u32,
}

/// A session, and the endpoint that it is of.
#[derive(Clone, Copy)]
pub struct NotedSession {
    pub no: SessionNo,
    pub endpoint: EndpointNo,
}

/// The stream of a client.
#[derive(Clone, Copy)]
pub struct NotedStream {
    pub client: ClientNo,
    pub session: SessionNo,
    pub running: bool,
    pub gate: Gate,
}

impl Default for NotedEndpoint {
    fn default() -> Self {
        NotedEndpoint {
            no: EndpointNo(0),
            state: 0,
        }
    }
}

impl Default for NotedSession {
    fn default() -> Self {
        NotedSession {
            no: SessionNo(0),
            endpoint: EndpointNo(0),
        }
    }
}

impl Default for NotedStream {
    fn default() -> Self {
        NotedStream {
            client: ClientNo(0),
            session: SessionNo(0),
            running: false,
            gate: Gate::Open,
        }
    }
}
