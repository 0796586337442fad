//! What clients, devices and the service say to each other: events, replies, their spelling, and rows of refusals.
#![tactic(auto)]

mod event;
mod reply;

pub use event::{Call, DeviceEvent, Event};
pub use reply::Reply;
