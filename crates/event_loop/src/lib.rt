//! The event loop: events are read from a source, a desk answers each in order, and the replies go to a sink.
//!
//! It is generic over all three, and `answer_events` is its one call.
#![tactic(auto)]

mod ends;
mod events;
mod front;
mod laws;
mod pending;
mod replies;

pub use ends::{LoopEnd, Stop};
pub use events::answer_events;
pub use laws::whole_input_completes;

#[cfg(test)]
mod tests;
