//! The service behind the calls: the one-thread machine as code, over any store of frames.
#![tactic(auto)]

mod both_ends;
mod control;
mod counting;
mod data;
mod desk;
mod new_streams;
mod packets;
mod pending;
mod putting;
mod service;
mod steps;
mod tally;
mod telling;
#[cfg(test)]
mod tests;
mod totals;

pub use both_ends::BothEnds;
pub use reply_payload::{Payload, REPLY_ROOM};
pub use service::Core;
pub use tally::Tally;
pub use totals::Totals;
