//! The stage of the service: its streams and playheads, what moves them, and the laws of every list of moves.
#![tactic(auto)]

pub mod laws;
