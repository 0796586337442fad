//! Which sessions are made quieter while others communicate, and to which level
//! (IAudioSessionControl2::SetDuckingPreference; default ducking).
#![tactic(auto)]

mod book;
pub mod laws;
mod rows;
mod rules;

pub use book::DuckBook;
pub use rows::DuckRow;
pub use rules::{REDUCED_BY_50, REDUCED_BY_80, RULE_50, RULE_80, RULE_MUTES, RULE_NOTHING, SILENT};

#[cfg(test)]
mod tests;
