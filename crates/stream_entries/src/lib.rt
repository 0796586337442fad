//! The entries of streams, as free functions: what a close, an event, a level or a leaving client makes of them, and
//! what is found and noted of them.
#![tactic(auto)]

mod closing;
mod events;
mod gains;
mod holding;
mod leaving;
mod noting;
mod search;
mod sessions;

pub use closing::{close_all, disconnect};
pub use events::{set_events, set_recorded_events, take_events};
pub use gains::regain;
pub use holding::{claim_endpoint, period_frames};
pub use leaving::{drop_sessions, drop_streams};
pub use noting::noted_of;
pub use search::entry_at;
pub use sessions::state_of_session;
