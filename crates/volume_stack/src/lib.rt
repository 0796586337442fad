//! Levels and the gains that they make, samples times gains, and sums of them.
#![tactic(auto)]

mod gains;
mod mix;
#[cfg(test)]
mod tests;

pub use gains::{EndGains, Gains, stream_gain};
pub use mix::{add_plain, out_plain, sample_of, scaled_sample};
