//! What is noted of the service, before and after an event, for the notices that the event makes.

ghost use Rattle.std.specs.Prelude.{◌≡◌, ℕ};
ghost use Rattle.ca_stage.specs.Stage.{BufferData};
ghost use Rattle.ca_stage.specs.Tally.{Tally};
ghost use Rattle.ca_machine.specs.Notices.{noted};
ghost use Rattle.service_board.specs.Board.{state_of};
ghost use Rattle.service_board.specs.InOrder.{InOrder};

use crate::Board;
use buffer_ring::EngineSide;
use step_notices::Noted;
use stream_entries::noted_of;

impl<D, E: EngineSide> Board<D, E> {
    /// What is noted of the service.
    pub fn noted(&self) -> Noted
        requires order { InOrder E.state self.now }
        ensures { (datas : ℕ → BufferData) (tally : Tally) → result ≡ noted (state_of datas tally self.now) }
    {
        noted_of(&self.book, &self.entries)
    }
}
