//! The engine's end of a stream, with what the engine keeps of it.

use ca_base::{ClientNo, EndpointNo, Gate, SessionNo, StreamKind};

/// A stream as the engine has it (IAudioClient). Frames are of `channels` samples of 16 bits.
#[derive(Drop)]
pub struct StreamEntry<E> {
    pub client: ClientNo,
    pub endpoint: EndpointNo,
    pub kind: StreamKind,
    pub exclusive: bool,
    /// Whether the stream is event-driven.
    pub event: bool,
    pub channels: u16,
    /// Frames a second.
    pub rate: u32,
    /// The frames of the buffer, and of a period.
    pub buffer: u32,
    pub period: u32,
    pub store: E,
    /// The words that the store holds: one for a frame that is to be played, and for a packet one for each frame of a
    /// period and one ahead of them.
    pub room: u32,
    /// In units of 100 ns.
    pub latency: u64,
    pub session: SessionNo,
    pub gate: Gate,
    pub running: bool,
    /// How many frames the period that is under way plays.
    pub picked: u32,
    /// The frames rendered since the last Reset.
    pub position: u64,
    /// The frames of packets offered since the last Reset, and of all that were ever offered.
    pub offered: u64,
    pub ever: u64,
    /// Whether the last packet offered since the last Reset was lost because there was no room.
    pub after_gap: bool,
    /// The gain of each channel, from 0 to 65536.
    pub gains: [u32; 4],
}
