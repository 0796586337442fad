//! The topology of an endpoint: a chain of four parts, of which one has a step of volume for each channel and one a
//! mute (DeviceTopology: IPart, IConnector, IAudioVolumeLevel, IAudioMute).
#![tactic(auto)]

pub mod laws;
mod parts;
mod reading;
mod setting;
mod settings;
#[cfg(test)]
mod tests;

pub use parts::{
    CHANNELS, FIRST_PART, INCOMING, LAST_PART, MAX_STEP, MUTE_PART, OUTGOING, PartKind,
    VOLUME_PART, factor,
};
pub use settings::Topology;
