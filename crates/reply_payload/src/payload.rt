//! What granted calls answer.

ghost use Rattle.std.specs.Prelude.{◌≡◌, ◌≤◌, [], ◌∷◌, ◌++◌, length, if◌then◌else◌};
ghost use Rattle.std.specs.Int.{to_le_bytes, w32};
ghost use Rattle.reply_payload.specs.Answers.{is_failure, payload_bytes, payload_code};

use crate::packets::LONGEST_PACKET;
use crate::pieces::{flag, put_format};
use ca_base::limits::{CLIENTS, MAX_TEXT, NOTICES};
use ca_base::{Bytes, Hr};
use call_wire::NOTICE_HEAD;
use wave_format::Format;

/// What a payload of notices has beside them and events, in bytes: how many events there are, how many notices were
/// lost, and how many there are.
pub const NOTICES_HEAD: usize = 4 + 8 + 4;

/// An event in such a payload, in bytes: the number of its client, and its handle.
pub const EVENT_SIZE: usize = 8 + 8;

/// The longest notice in a payload, in bytes.
pub const LONGEST_NOTICE: usize = NOTICE_HEAD + MAX_TEXT;

/// The longest payload of events and notices, in bytes: an event of each client, and all notices that a connection
/// keeps, each with the longest text.
pub const LONGEST_NOTICES: usize = NOTICES_HEAD + CLIENTS * EVENT_SIZE + NOTICES * LONGEST_NOTICE;

/// The longest payload of a reply, in bytes: that of a packet, which is longer than all events and notices.
pub const REPLY_ROOM: usize = LONGEST_PACKET;

/// The payload of a granted call.
#[derive(Clone, Copy, Debug, PartialEq, Eq)]
pub enum Payload {
    /// No bytes.
    Nothing,
    /// A number of four bytes.
    Number(u32),
    /// A number of eight bytes.
    Long(u64),
    /// Two numbers of eight bytes.
    Longs(u64, u64),
    /// A format: two bytes of length, and its bytes.
    Format(Format),
    /// The closest format, with S_FALSE (IAudioClient::IsFormatSupported).
    Closest(Format),
    /// A period: its frames, and a byte that says whether the device failed.
    Period { frames: u32, failed: bool },
}

/// A period's frames, and a byte that says whether the device failed.
fn put_period(frames: u32, failed: bool, out: &mut Bytes)
    requires empty { out.old.list ≡ [] }
    requires room { REPLY_ROOM ≤ out.old.capacity }
    ensures list { out.new.list ≡ to_le_bytes w32 frames ++ (if failed then 1 else 0) ∷ [] }
    ensures keeps { out.old.capacity ≤ out.new.capacity }
{
    let [a, b, c, d] = frames.to_le_bytes();
    out.append_reserved(&[a, b, c, d, flag(failed)]);
}

impl Payload {
    /// The code that it is answered with: S_FALSE with the closest format.
    pub fn code(&self) -> Hr
        ensures { result ≡ payload_code self.now }
    {
        match self {
            Payload::Closest(_) => Hr::S_FALSE,
            _ => Hr::S_OK,
        }
    }

    /// Whether it says that a device failed.
    pub fn is_failure(&self) -> bool
        ensures { result ≡ is_failure self.now }
    {
        match self {
            Payload::Period { failed, .. } => *failed,
            _ => false,
        }
    }

    /// Puts its bytes into the payload of a reply, which is empty before and has taken memory for the longest one.
    pub fn put(&self, out: &mut Bytes)
        requires empty { out.old.list ≡ [] }
        requires room { REPLY_ROOM ≤ out.old.capacity }
        ensures list { out.new.list ≡ payload_bytes self.now }
        ensures within { length out.new.list ≤ REPLY_ROOM }
        ensures keeps { out.old.capacity ≤ out.new.capacity }
    {
        match self {
            Payload::Nothing => {}
            Payload::Number(n) => out.append_reserved(&n.to_le_bytes()),
            Payload::Long(n) => out.append_reserved(&n.to_le_bytes()),
            Payload::Longs(a, b) => {
                out.append_reserved(&a.to_le_bytes());
                out.append_reserved(&b.to_le_bytes());
            }
            Payload::Format(f) | Payload::Closest(f) => put_format(f, out),
            Payload::Period { frames, failed } => put_period(*frames, *failed, out),
        }
    }
}
