//! The one-thread machine, as definitions: its state, what each event asks and gets, its runs, and the headline.
#![tactic(auto)]

pub mod headline;
mod state;

pub use state::{Client, Connection};
