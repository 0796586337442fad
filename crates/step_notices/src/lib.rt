//! The notices of a step of the service: what is told of devices and of sessions, by comparing what was noted of the
//! state before it and after it (IMMNotificationClient, IAudioSessionNotification, IAudioSessionEvents).
#![tactic(auto)]

mod devices;
mod disconnects;
pub mod laws;
mod lookups;
mod noted;
mod records;
mod sessions;

pub use devices::put_device_notices;
pub use noted::Noted;
pub use records::{
    DEFAULTS, DEVICE_NOTICES, NotedEndpoint, NotedSession, NotedStream, SESSION_NOTICES,
};
pub use sessions::put_session_notices;

#[cfg(test)]
mod tests;
