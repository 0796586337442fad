//! What the service keeps of connections and clients. The definitions and the code have the same records.

use ca_base::{ClientNo, ConnNo, EndpointNo, Text};

/// An open connection: its process, and the name that it gave.
#[derive(Clone, Copy)]
pub struct Connection {
    pub conn: ConnNo,
    pub process: u32,
    pub name: Text,
}

/// A live client (IMMDevice::Activate) of a connection. Its stream, if it is initialised, has the client's number.
#[derive(Clone, Copy)]
pub struct Client {
    pub client: ClientNo,
    pub conn: ConnNo,
    pub endpoint: EndpointNo,
    /// ERole: 0, 1 or 2, or 255 for none.
    pub role: u8,
    /// The level of each channel of its stream, from 0 to 65536 (IAudioStreamVolume).
    pub levels: [u32; 4],
    /// The handle of its event (IAudioClient::SetEventHandle), 0 if none was set.
    pub handle: u64,
    /// Whether its event was set by a period and not taken yet.
    pub flagged: bool,
}
