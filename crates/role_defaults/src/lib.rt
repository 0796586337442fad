//! The default endpoint of a flow and a role (IMMDeviceEnumerator::GetDefaultAudioEndpoint).
#![tactic(auto)]

mod choices;

pub use choices::{CHOICES, Choices, ROLES};

#[cfg(test)]
mod tests;
