//! Events and replies as bytes, and the desk that answers events.
#![tactic(auto)]

mod calls;
mod desk;
mod devices;
mod endpoints;
mod events;
mod fault;
mod fields;
pub mod laws;
mod notices;
mod reading;
mod sessions;
mod writing;

pub use ca_model::{Call, DeviceEvent, Event, Reply};
pub use desk::Desk;
pub use notices::{NOTICE_HEAD, write_notice};
pub use reading::{Step, next_event};
pub use writing::{REPLY_HEAD, write_reply};

#[cfg(test)]
mod tests;
