//! The sub-steps of a period over the engine's ends of streams.
#![tactic(auto)]

mod adding;
mod block;
mod device_read;
mod device_write;
mod entry;
mod feeding;
pub mod laws;
mod picked;
mod sounding;
#[cfg(test)]
mod tests;
mod writing;

pub use block::Block;
pub use entry::StreamEntry;
pub use feeding::{feed_capture, feed_loopback};
pub use picked::{pick, retire};
pub use sounding::sound;
