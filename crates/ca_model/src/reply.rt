//! Replies.

use ca_base::{Bytes, Hr};

/// What the service answers to one event. The kind, the connection and the tag are the event's, or 0.
#[derive(Drop)]
pub struct Reply {
    pub kind: u8,
    pub conn: u8,
    pub tag: u32,
    pub result: Hr,
    pub payload: Bytes,
}
