//! What every layer of the service shares: numbers, result codes, limits, texts, bytes, and the objects of the
//! environment.
#![tactic(auto)]

mod bytes;
mod codes;
mod environment;
mod faults;
mod ids;
pub mod limits;
mod memory;
mod standard;
mod text;
pub mod values;
mod words;

pub use bytes::Bytes;
pub use codes::{Hr, codes_are_tabled};
pub use environment::{Failed, NoMemory, Sink, Source};
pub use faults::Faults;
pub use ids::{
    ClientNo, ConnNo, Dir, EndpointNo, Flow, Gate, Guid, Reason, Seen, SessionNo, StreamKind,
};
pub use memory::{MemSink, MemSource};
pub use standard::{StdSink, StdSource, read_once, write_once};
pub use text::Text;
pub use words::Words;

#[cfg(test)]
mod tests;
