//! The gains of streams, by the levels of their clients and sessions.

ghost use Rattle.std.specs.Prelude.{◌<◌};
ghost use Rattle.std.specs.List.{All, AllZip};
ghost use Rattle.service_book.specs.InOrder.{HasLevels};
ghost use Rattle.stream_entries.specs.Gains.{HasClient, Regains};

use period_engine::StreamEntry;
use service_book::{Book, gains_if};

/// The gains of a stream's channels, by its client's levels and its session.
fn gains_of<E>(book: &Book, entry: &StreamEntry<E>) -> [u32; 4]
    requires levels { All HasLevels book.now.clients.items }
    requires client { HasClient book.now entry.now }
    ensures { Regains book.now entry.now (record (entry.now) { gains = result }) }
{
    let Some(place) = book.live_place(entry.client) else {
        unreachable!();
    };
    gains_if(
        entry.exclusive,
        &book.clients[place].levels,
        book.sessions.get(entry.session),
    )
}

/// Computes the gains of entries anew.
pub fn regain<E>(entries: &mut [StreamEntry<E>], book: &Book)
    requires levels { All HasLevels book.now.clients.items }
    requires clients { All (HasClient book.now) entries.old }
    ensures { AllZip (Regains book.now) entries.old entries.new }
{
    for entry in entries.iter_mut() {
        entry.gains = gains_of(book, entry);
    }
}
