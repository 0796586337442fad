//! The endpoints of the service (IMMDeviceEnumerator, IMMDevice, DEVICE_STATE_XXX).
#![tactic(auto)]

mod changing;
mod endpoint;
mod listing;
mod lookups;
mod registry;

pub use endpoint::{Endpoint, flow_number};
pub use registry::Registry;

#[cfg(test)]
mod tests;
