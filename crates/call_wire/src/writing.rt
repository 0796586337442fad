//! Replies as bytes.

ghost use Rattle.std.specs.Prelude.{◌≡◌, ◌+◌, ◌≤◌, ◌++◌, length, IsOk, OnOk, OnErr};
ghost use Rattle.ca_model.specs.Replies.{reply_frame, FitsFrame};

use ca_base::limits::LENGTH_SIZE;
use ca_base::{Bytes, NoMemory};
use ca_model::Reply;

/// The bytes of a reply's body ahead of its payload: kind, connection, tag and result.
const BODY_HEAD: usize = 10;

/// The bytes of a reply's frame ahead of its payload: the length of the body, and the body's head.
pub const REPLY_HEAD: usize = LENGTH_SIZE + BODY_HEAD;

/// The reply's frame up to its payload.
fn frame_head(reply: &Reply) -> [u8; REPLY_HEAD]
    requires { FitsFrame reply.now }
    ensures { result ++ reply.now.payload.list ≡ reply_frame reply.now }
{
    let length = (BODY_HEAD + reply.payload.len()) as u32;
    let [a, b, c, d] = length.to_le_bytes();
    let [e, f, g, h] = reply.tag.to_le_bytes();
    let [i, j, k, l] = reply.result.0.to_le_bytes();
    [a, b, c, d, reply.kind, reply.conn, e, f, g, h, i, j, k, l]
}

/// Adds the reply's frame at the end. `NoMemory` leaves the bytes as they were.
pub fn write_reply(reply: &Reply, out: &mut Bytes) -> Result<(), NoMemory>
    requires { FitsFrame reply.now }
    ensures ok { OnOk result (out.new.list ≡ out.old.list ++ reply_frame reply.now) }
    ensures fits { length out.old.list + (REPLY_HEAD + length reply.now.payload.list) ≤ out.old.capacity → IsOk result }
    ensures keeps { out.old.capacity ≤ out.new.capacity }
    ensures err { OnErr result (out.new.list ≡ out.old.list) }
{
    let payload = reply.payload.as_slice();
    out.reserve(REPLY_HEAD + payload.len())?;
    out.append(&frame_head(reply))?;
    out.append(payload)
}
