//! Devices: where the frames of endpoints go to and come from.
#![tactic(auto)]

mod devices;
mod endpoints;
mod files;
mod kept;
mod laws;
mod memory;

pub use devices::Devices;
pub use files::FileDevices;
pub use laws::{a_read_takes_the_front, a_write_adds_its_piece, writes_gather};
pub use memory::MemDevices;

#[cfg(test)]
mod tests;
