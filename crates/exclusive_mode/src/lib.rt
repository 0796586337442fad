//! Who may use an endpoint alone: what a client that asks for a stream gets, while others have streams there
//! (AUDCLNT_SHAREMODE, IAudioClient::Initialize).
#![tactic(auto)]

mod claiming;
mod claims;
pub mod laws;
#[cfg(test)]
mod tests;

pub use claiming::claim;
pub use claims::{Claim, Held};
