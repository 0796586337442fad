//! Connections and clients: what an Open and an Activate are asked with.

ghost use Rattle.std.specs.Prelude.{◌≡◌, ◌==◌, ◌&&◌, ◌||◌, not, nat_le};
ghost use Rattle.std.specs.List.{list_all, list_any};
ghost use Rattle.ca_base.specs.declared.limits.TheConstants.{CONNECTIONS};
ghost use Rattle.ca_machine.specs.Clients.{is_name, is_name_byte, is_role};
ghost use Rattle.ca_machine.specs.State.{is_connection};

use crate::Book;
use ca_base::limits::{CONNECTIONS, MAX_CONNECTION_NAME};
use ca_base::values::{ROLE_COMMUNICATIONS, ROLE_NONE};
use ca_base::{ConnNo, Text};

fn is_name_byte(byte: u8) -> bool
    ensures { result ≡ is_name_byte byte }
{
    byte.is_ascii_digit()
        || byte.is_ascii_uppercase()
        || byte.is_ascii_lowercase()
        || matches!(byte, b'-' | b'.' | b'_')
}

fn has_name_bytes(name: &[u8]) -> bool
    ensures { result ≡ list_all is_name_byte name.now }
{
    name.iter().all(|byte| is_name_byte(*byte))
}

/// Whether a connection may give this name: 1 to 64 ASCII letters, digits, dots, underscores and dashes.
fn is_name(name: &[u8]) -> bool
    ensures { result ≡ is_name name.now }
{
    !name.is_empty() && name.len() <= MAX_CONNECTION_NAME && has_name_bytes(name)
}

/// Whether this is a role (ERole), or none.
pub fn is_role(role: u8) -> bool
    ensures { result ≡ is_role role }
{
    role <= ROLE_COMMUNICATIONS || role == ROLE_NONE
}

impl Book {
    /// Whether a connection that is to be opened has a wrong number, is open, or has no process or a wrong name.
    pub fn is_wrong_open(&self, conn: ConnNo, process: u32, name: &Text) -> bool
        ensures { result ≡ (not (nat_le 1 conn.0 && nat_le conn.0 CONNECTIONS)
            || (list_any (is_connection conn.0) self.now.connections.items
            || (process == 0 || not (is_name name.now)))) }
    {
        let in_range = conn.0 >= 1 && conn.0 <= CONNECTIONS;
        !in_range || self.is_connected(conn) || process == 0 || !is_name(name.as_bytes())
    }
}
