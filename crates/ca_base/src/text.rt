//! A short text by value.

ghost use Rattle.std.specs.Prelude.{◌≡◌, ◌≤◌, length};

use crate::limits::MAX_TEXT;
use std::marker::Model;

/// A list of at most `MAX_TEXT` bytes, which need not be UTF-8.
#[derive(Clone, Copy)]
pub struct Text {
    bytes: [u8; MAX_TEXT],
    len: usize,
}

impl Model for Text {
    ghost use Rattle.std.specs.Prelude.{List, ℕ, take, replicate, length, ◌++◌, ◌-◌};
    ghost use Rattle.ca_base.specs.Padded.{IsPadded, padded, Padded-restored};

    ghost Value = { List ℕ };

    ghost view = { λ t. take t.len t.bytes };

    ghost invariant = { λ t. IsPadded t.len t.bytes };

    ghost inverse = { padded };

    ghost inverse_ok = { λ t h. Padded-restored t h };
}

impl Text {
    /// The longest text, in bytes.
    pub const MAX: usize = MAX_TEXT;

    /// The text of these bytes.
    pub fn new(bytes: &[u8]) -> Text
        requires { length bytes.now ≤ MAX_TEXT }
        ensures { result ≡ bytes.now }
    {
        let mut padded = [0; MAX_TEXT];
        for (i, byte) in bytes.iter().enumerate() {
            padded[i] = *byte;
        }
        Text {
            bytes: padded,
            len: bytes.len(),
        }
    }

    pub fn as_bytes(&self) -> &[u8]
        ensures value { result.now ≡ self.now }
        ensures within { length self.now ≤ MAX_TEXT }
    {
        &self.bytes[..self.len]
    }
}
