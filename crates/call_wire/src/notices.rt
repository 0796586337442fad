//! Notices as bytes.

ghost use Rattle.std.specs.Prelude.{◌≡◌, ◌+◌, ◌≤◌, ◌++◌, length, IsOk, OnOk, OnErr};
ghost use Rattle.event_notices.specs.Bytes.{notice_bytes};

use ca_base::limits::MAX_TEXT;
use ca_base::{Bytes, NoMemory};
use event_notices::Notice;

/// The bytes of a notice ahead of its text: kind, subject, context, value and the text's length.
pub const NOTICE_HEAD: usize = 1 + 8 + 16 + 8 + 2;

/// Adds a notice's bytes at the end. `NoMemory` leaves the bytes as they were.
pub fn write_notice(notice: &Notice, out: &mut Bytes) -> Result<(), NoMemory>
    ensures within { length notice.now.text ≤ MAX_TEXT }
    ensures ok { OnOk result (out.new.list ≡ out.old.list ++ notice_bytes notice.now) }
    ensures fits { length out.old.list + (NOTICE_HEAD + length notice.now.text) ≤ out.old.capacity → IsOk result }
    ensures keeps { out.old.capacity ≤ out.new.capacity }
    ensures err { OnErr result (out.new.list ≡ out.old.list) }
{
    let text = notice.text.as_bytes();
    out.reserve(NOTICE_HEAD + text.len())?;
    out.append_reserved(&[notice.kind]);
    out.append_reserved(&notice.subject.to_le_bytes());
    out.append_reserved(&notice.context.0.to_be_bytes());
    out.append_reserved(&notice.value.to_le_bytes());
    out.append_reserved(&(text.len() as u16).to_le_bytes());
    out.append_reserved(text);
    Ok(())
}
