//! The service in one thread.

use crate::{BothEnds, Tally};
use buffer_ring::FrameStore;
use ca_base::NoMemory;
use device_io::Devices;
use service_board::Board;
use std::alloc::Global;
use std::marker::Model;

/// The service in one thread: the devices and what is kept of all that is open, with both ends of each stream, the
/// counts of frames, and where it takes memory.
#[derive(Drop)]
pub struct Core<D: Devices, F: FrameStore> {
    pub(crate) board: Board<D, BothEnds<F>>,
    pub(crate) tally: Tally,
    pub(crate) alloc: Global,
}

impl<D: Devices, F: FrameStore> Model for Core<D, F> {
    ghost use Rattle.ca_machine.specs.View.{MachineView};
    ghost use Rattle.service_core.specs.Service.{IsCore, core_view};

    ghost Value = { MachineView D };

    ghost view = { λ c. core_view F.kept c.board c.tally };

    ghost invariant = { λ c. IsCore F.state F.kept c.board };
}

ghost use Rattle.std.specs.Prelude.{◌≡◌, IfErr, IfOk};
ghost use Rattle.ca_machine.specs.State.{empty_state};

impl<D: Devices, F: FrameStore> Core<D, F> {
    /// A service over these devices on which nothing is yet. The memory of its tables is taken now; if there is none,
    /// the devices are handed back.
    pub fn new(alloc: Global, devices: D) -> Result<Core<D, F>, (NoMemory, D)>
        ensures devices { IfOk result (λ c. c.devices ≡ devices) }
        ensures state { IfOk result (λ c. c.state ≡ empty_state) }
        ensures err { IfErr result (λ e. e.1 ≡ devices) }
    {
        match Board::new(alloc, devices) {
            Ok(board) => Ok(Core {
                board,
                tally: Tally::new(),
                alloc,
            }),
            Err(refused) => Err(refused),
        }
    }

    /// The devices as the service left them.
    pub fn into_devices(self) -> D
        ensures { result ≡ self.devices }
    {
        let Core {
            board,
            tally: _,
            alloc: _,
        } = self;
        let Board {
            devices,
            book: _,
            seats: _,
            entries: _,
            drafts: _,
            failed: _,
        } = board;
        devices
    }
}
