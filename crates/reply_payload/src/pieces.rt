//! Pieces of a payload, each added behind the bytes that are there.

ghost use Rattle.std.specs.Prelude.{◌≡◌, ◌+◌, ◌≤◌, ◌++◌, length, if◌then◌else◌};
ghost use Rattle.ca_base.specs.declared.limits.TheConstants.{MAX_TEXT};
ghost use Rattle.wave_format.specs.declared.layout.TheConstants.{EXTENSIBLE_LENGTH};
ghost use Rattle.ca_machine.specs.Sessions.{text_payload};
ghost use Rattle.ca_machine.specs.Formats.{format_payload};

use ca_base::{Bytes, Text};
use wave_format::{Format, format_length, write_format};

/// A byte that says whether something holds.
pub fn flag(holds: bool) -> u8
    ensures { result ≡ (if holds then 1 else 0) }
{
    holds as u8
}

/// Puts a text: its length, and its bytes.
pub fn put_text(text: &Text, out: &mut Bytes)
    requires room { length out.old.list + 2 + MAX_TEXT ≤ out.old.capacity }
    ensures list { out.new.list ≡ out.old.list ++ text_payload text.now }
    ensures within { length out.new.list ≤ length out.old.list + 2 + MAX_TEXT }
    ensures keeps { out.old.capacity ≤ out.new.capacity }
{
    let bytes = text.as_bytes();
    out.append_reserved(&(bytes.len() as u16).to_le_bytes());
    out.append_reserved(bytes);
}

/// Puts a format: two bytes of length, and its bytes.
pub fn put_format(f: &Format, out: &mut Bytes)
    requires room { length out.old.list + 2 + EXTENSIBLE_LENGTH ≤ out.old.capacity }
    ensures list { out.new.list ≡ out.old.list ++ format_payload f.now }
    ensures within { length out.new.list ≤ length out.old.list + 2 + EXTENSIBLE_LENGTH }
    ensures keeps { out.old.capacity ≤ out.new.capacity }
{
    out.append_reserved(&format_length(f).to_le_bytes());
    if write_format(f, out).is_err() {
        unreachable!();
    }
}
