//! What became of all frames that were ever released.

ghost use Rattle.std.specs.Prelude.{◌≡◌};
ghost use Rattle.service_core.specs.Totals.{Reports};

use crate::Core;
use crate::pending::{Streams, pending};
use buffer_ring::FrameStore;
use device_io::Devices;

/// How many frames were ever released: those that were rendered, reset and dropped, and those that wait in buffers.
/// Each count saturates.
#[derive(Clone, Copy, Debug, PartialEq, Eq)]
pub struct Totals {
    pub released: u128,
    pub rendered: u128,
    pub padding: u128,
    pub reset: u128,
    pub dropped: u128,
}

impl<D: Devices, F: FrameStore> Core<D, F> {
    /// What became of all frames so far. It looks at each store, and changes nothing.
    pub fn totals(&mut self) -> Totals
        ensures totals { Reports self.old.state result }
        ensures same { self.new ≡ self.old }
    {
        let padding = pending(&mut self.board, Streams::All) as u128;
        let rendered = self.tally.rendered;
        let reset = self.tally.reset;
        let dropped = self.tally.dropped;
        Totals {
            released: rendered
                .saturating_add(reset)
                .saturating_add(dropped)
                .saturating_add(padding),
            rendered,
            padding,
            reset,
            dropped,
        }
    }
}
