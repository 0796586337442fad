//! The sessions of the service (IAudioSessionControl2, ISimpleAudioVolume, IChannelAudioVolume).
#![tactic(auto)]

mod book;
mod changes;
mod joining;
mod listing;
mod lookups;
mod names;
mod session;
mod setting;

pub use book::SessionBook;
pub use changes::Change;
pub use names::guid_text;
pub use session::{CHANNELS, Kept, Session, SessionKey};

#[cfg(test)]
mod tests;
