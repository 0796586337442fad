//! The board: control calls and periods as code, over the engine's ends of any streams.
#![tactic(auto)]

mod adding;
mod board;
mod calls;
mod clients;
mod device_events;
mod endpoint_data;
mod endpoints;
mod event_handles;
mod formats;
mod gains;
mod initialize;
mod leaving;
mod levels;
mod lookups;
mod noting;
mod periods;
mod plays;
mod registrations;
mod session_data;
mod sessions;
mod streams;
mod telling;

pub use board::{Board, NewStream, Seat};
