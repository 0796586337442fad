//! What a connection registered for, and the notices that matched (IMMNotificationClient, IAudioSessionNotification,
//! IAudioSessionEvents, IAudioVolumeDuckNotification, IAudioEndpointVolumeCallback, IControlChangeNotify).
#![tactic(auto)]

pub mod kinds;
mod matching;
mod notice;
mod pushing;
mod queue;
mod registering;
mod taking;

pub use notice::{Notice, NoticeFault, Registration};
pub use queue::NoticeQueue;

#[cfg(test)]
mod tests;
