//! The numbers that calls name, and small facts about streams.

/// An endpoint's number, from 1.
#[derive(Clone, Copy, Debug, PartialEq, Eq, PartialOrd, Ord)]
pub struct EndpointNo(pub u32);

/// A connection's number, from 1 to 32.
#[derive(Clone, Copy, Debug, PartialEq, Eq, PartialOrd, Ord)]
pub struct ConnNo(pub u8);

/// An audio client's number, from 1 in the order of Activate.
#[derive(Clone, Copy, Debug, PartialEq, Eq, PartialOrd, Ord)]
pub struct ClientNo(pub u64);

/// A session's number, from 1 in the order of making.
#[derive(Clone, Copy, Debug, PartialEq, Eq, PartialOrd, Ord)]
pub struct SessionNo(pub u64);

/// A GUID: its 16 bytes, read as one big-endian number (RFC 9562).
#[derive(Clone, Copy, Debug, PartialEq, Eq, PartialOrd, Ord)]
pub struct Guid(pub u128);

/// Why a stream was disconnected (AudioSessionDisconnectReason; `Released` is this project's own).
#[derive(Clone, Copy, Debug, PartialEq, Eq)]
pub enum Reason {
    /// The device left, or failed: 0.
    Removal,
    /// The service shut down: 1.
    Shutdown,
    /// The endpoint's format changed: 2.
    Format,
    /// An exclusive stream took the endpoint: 5.
    Override,
    /// The client was released, or its connection hung up: 6.
    Released,
}

/// Whether frames may pass through a stream. A closed gate keeps its first reason and never opens.
#[derive(Clone, Copy, Debug, PartialEq, Eq)]
pub enum Gate {
    Open,
    Closed(Reason),
}

/// Which way the frames of a stream's store go: from the client, or to it.
#[derive(Clone, Copy, Debug, PartialEq, Eq)]
pub enum Dir {
    Render,
    Capture,
}

/// Which way the frames of an endpoint go (EDataFlow): to the device, or from it.
#[derive(Clone, Copy, Debug, PartialEq, Eq)]
pub enum Flow {
    Render,
    Capture,
}

/// What one look at a store finds: the words held, and the gate.
#[derive(Clone, Copy, Debug, PartialEq, Eq)]
pub struct Seen {
    pub words: u32,
    pub gate: Gate,
}

/// What a stream does with frames: it plays them, records them, or records what an endpoint plays.
#[derive(Clone, Copy, Debug, PartialEq, Eq)]
pub enum StreamKind {
    Render,
    Capture,
    Loopback,
}
