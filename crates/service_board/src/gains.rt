//! The gains of streams, by the levels of their clients and sessions. They are computed before a period, and only if a
//! level has changed since.

ghost use Rattle.std.specs.Prelude.{◌≡◌, false};
ghost use Rattle.service_board.specs.Gains.{HasSameStreams};
ghost use Rattle.service_board.specs.InOrder.{InOrder};

use crate::Board;
use buffer_ring::EngineSide;
use stream_entries::regain;

impl<D, E: EngineSide> Board<D, E> {
    /// Computes the gains of all streams anew, if a level has changed since they were computed.
    pub fn refresh_gains(&mut self)
        requires order { InOrder E.state self.old }
        ensures order { InOrder E.state self.new }
        ensures fresh { self.new.book.levels_changed ≡ false }
        ensures same { HasSameStreams self.old self.new }
    {
        if !self.book.levels_changed {
            return;
        }
        regain(&mut self.entries, &self.book);
        self.book.levels_changed = false;
    }
}
