//! Notices, and what a connection registered for. The definitions and the code have the same records.

use ca_base::{Guid, Hr, Text};

/// What happened.
#[derive(Clone, Copy)]
pub struct Notice {
    /// One of `kinds`.
    pub kind: u8,
    /// The number of what it happened to: an endpoint, a session or a part.
    pub subject: u64,
    /// The event context of the call that caused it (LPCGUID EventContext).
    pub context: Guid,
    /// What it is now, as the kind has it.
    pub value: u64,
    /// What it is now, if that is a text.
    pub text: Text,
}

/// What a connection registered for.
#[derive(Clone, Copy)]
pub struct Registration {
    /// Its number, from 1 in the order of registering.
    pub no: u64,
    /// A class of `kinds`.
    pub class: u8,
    /// The number of the endpoint, session or part that it is about, 0 for all. Devices are always all.
    pub subject: u64,
}

/// Why nothing was registered.
#[derive(Clone, Copy, Debug, PartialEq, Eq)]
pub enum NoticeFault {
    /// A row refuses it.
    Refused(Hr),
    /// Memory ran out.
    NoMemory,
}
