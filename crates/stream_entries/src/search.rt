//! A search by halves in entries, which stand in the order of clients' numbers.

ghost use Rattle.std.specs.Prelude.{◌≡◌};
ghost use Rattle.std.specs.List.{position};
ghost use Rattle.period_engine.specs.Entries.{AreInOrder};
ghost use Rattle.stream_entries.specs.Search.{is_entry_of};

use ca_base::ClientNo;
use period_engine::StreamEntry;

/// The place of a client's entry.
pub fn entry_at<E>(entries: &[StreamEntry<E>], client: ClientNo) -> Option<usize>
    requires { AreInOrder entries.now }
    ensures { result ≡ position (is_entry_of client.0) entries.now }
{
    let at = entries.partition_point(|entry| entry.client.0 < client.0);
    if at >= entries.len() {
        return None;
    }
    if entries[at].client != client {
        return None;
    }
    Some(at)
}
