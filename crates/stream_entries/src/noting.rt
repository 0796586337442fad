//! What is noted of the service, before and after an event, for the notices that the event makes.

ghost use Rattle.std.specs.Prelude.{◌≡◌, ◌<◌, ◌≤◌, [], length, map};
ghost use Rattle.ca_base.specs.declared.limits.TheConstants.{CLIENTS};
ghost use Rattle.stream_entries.specs.Noting.{noted_entry, noted_with};

use period_engine::StreamEntry;
use service_book::Book;
use step_notices::{Noted, NotedStream};

/// Notes the stream of each entry.
pub fn note_streams<E>(entries: &[StreamEntry<E>], n: &mut Noted)
    requires none { n.old.streams ≡ [] }
    requires few { length entries.now ≤ CLIENTS }
    ensures { n.new ≡ record n.old { streams = map noted_entry entries.now } }
{
    'entries: for e in entries.iter() {
        n.note_stream(NotedStream {
            client: e.client,
            session: e.session,
            running: e.running,
            gate: e.gate,
        });
    }
}

/// What is noted of the endpoints, the defaults and the sessions of a book, and of these streams.
pub fn noted_of<E>(book: &Book, entries: &[StreamEntry<E>]) -> Noted
    requires few { length entries.now ≤ CLIENTS }
    ensures { result ≡ noted_with book.now entries.now }
{
    let mut n = Noted::new();
    book.note(&mut n);
    note_streams(entries, &mut n);
    n
}
