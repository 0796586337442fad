//! What granted calls answer, as bytes.
#![tactic(auto)]

mod endpoints;
mod notices;
mod packets;
mod payload;
mod pieces;
mod sessions;

pub use endpoints::{id_of, put_endpoint, put_endpoints};
pub use notices::put_notices;
pub use packets::{
    LONGEST_PACKET, MOST_FRAMES, PACKET_HEAD, add_frames, packet_fits, put_packet_head,
};
pub use payload::{LONGEST_NOTICES, Payload, REPLY_ROOM};
pub use sessions::{put_session, put_sessions_of};

#[cfg(test)]
mod tests;
