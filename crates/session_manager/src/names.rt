//! How a session is told from others across runs (IAudioSessionControl2).

ghost use Rattle.std.specs.Prelude.{◌≡◌, ◌+◌, ◌≤◌, ◌++◌, decimal, length};
ghost use Rattle.arrayvec.specs.ArrayVec.{array_vec_len};
ghost use Rattle.session_manager.specs.Names.{guid_text, identifier_of, instance_of};

use crate::Session;
use arrayvec::ArrayVec;
use ca_base::limits::{MAX_CONNECTION_NAME, MAX_TEXT};
use ca_base::{Guid, Text};
use uuid::Uuid;

/// Adds bytes that fit.
fn add(out: &mut ArrayVec<u8, MAX_TEXT>, bytes: &[u8])
    requires { array_vec_len out.old + length bytes.now ≤ MAX_TEXT }
    ensures { out.new.items ≡ out.old.items ++ bytes.now }
{
    if out.try_extend_from_slice(bytes).is_err() {
        unreachable!();
    }
}

/// Adds a number in decimal: ten digits at most.
fn add_number(out: &mut ArrayVec<u8, MAX_TEXT>, n: u32)
    requires { array_vec_len out.old + 10 ≤ MAX_TEXT }
    ensures digits { out.new.items ≡ out.old.items ++ decimal n }
    ensures few { array_vec_len out.new ≤ array_vec_len out.old + 10 }
{
    let mut buffer = itoa::Buffer::new();
    add(out, buffer.format(n).as_bytes());
}

/// Adds a GUID: 36 bytes.
fn add_guid(out: &mut ArrayVec<u8, MAX_TEXT>, guid: Guid)
    requires { array_vec_len out.old + 36 ≤ MAX_TEXT }
    ensures text { out.new.items ≡ out.old.items ++ guid_text guid.0 }
    ensures long { array_vec_len out.new ≡ array_vec_len out.old + 36 }
{
    let mut buffer = Uuid::encode_buffer();
    let text = Uuid::from_u128(guid.0)
        .hyphenated()
        .encode_lower(&mut buffer);
    add(out, text.as_bytes());
}

/// A GUID as a text: 36 bytes, in hexadecimal digits of lower case and hyphens (RFC 9562).
pub fn guid_text(guid: Guid) -> Text
    ensures { result ≡ guid_text guid.0 }
{
    let mut out = ArrayVec::new();
    add_guid(&mut out, guid);
    Text::new(out.as_slice())
}

/// A session's identifier: 57 bytes at most beside the name.
fn put_identifier(s: &Session, out: &mut ArrayVec<u8, MAX_TEXT>)
    requires empty { array_vec_len out.old ≡ 0 }
    requires name { length s.now.key.name ≤ MAX_CONNECTION_NAME }
    ensures text { out.new.items ≡ identifier_of s.now }
    ensures few { array_vec_len out.new ≤ 57 + length s.now.key.name }
{
    add(out, b"endpoint-");
    add_number(out, s.key.endpoint.0);
    add(out, b"|");
    add(out, s.key.name.as_bytes());
    add(out, b"|");
    add_guid(out, s.key.guid);
}

impl Session {
    /// The text that tells a session from others of its kind, the same in each run
    /// (IAudioSessionControl2::GetSessionIdentifier).
    pub fn identifier(&self) -> Text
        requires { length self.now.key.name ≤ MAX_CONNECTION_NAME }
        ensures { result ≡ identifier_of self.now }
    {
        let mut out = ArrayVec::new();
        put_identifier(self, &mut out);
        Text::new(out.as_slice())
    }

    /// The text that tells a session from all others (IAudioSessionControl2::GetSessionInstanceIdentifier).
    pub fn instance(&self) -> Text
        requires { length self.now.key.name ≤ MAX_CONNECTION_NAME }
        ensures { result ≡ instance_of self.now }
    {
        let mut out = ArrayVec::new();
        put_identifier(self, &mut out);
        add(&mut out, b"|");
        add_number(&mut out, self.key.process);
        Text::new(out.as_slice())
    }
}
