//! A client's side of its stream, and the rows of its data calls.
#![tactic(auto)]

mod check;
mod side;
#[cfg(test)]
mod tests;

pub use check::{DataCall, Verdict, data_check, gate_refusal};
pub use side::ClientSide;
