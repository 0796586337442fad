//! Stores of words between a client and the engine.
#![tactic(auto)]

mod plain;
mod step;
mod stores;
#[cfg(test)]
mod tests;

pub use plain::PlainStore;
pub use step::{Deed, EndState, StoreStep};
pub use stores::{EngineSide, FrameStore, Put, Retired};
