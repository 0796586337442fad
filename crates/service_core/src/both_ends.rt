//! Both ends of a stream, which one thread holds.

ghost use Rattle.std.specs.Prelude.{◌≡◌};

use buffer_ring::{EngineSide, FrameStore};
use ca_base::Reason;
use client_state::ClientSide;

/// The client's side of a stream, and the stream's store. The engine's end of it moves the store alone.
#[derive(Drop)]
pub struct BothEnds<F> {
    pub side: ClientSide,
    pub store: F,
}

impl<F: FrameStore> EngineSide for BothEnds<F> {
    ghost use Rattle.std.specs.Prelude.{refl};
    ghost use Rattle.service_core.specs.BothEnds.{MovesStore, joined};

    ghost state = { λ a. F.state a.store };

    ghost moves = { MovesStore F.moves };

    ghost none = { λ a. (refl, F.none a.store) };

    ghost joins = { joined F.moves F.joins };

    ghost goes = { λ a b s h. F.goes a.store b.store s h.1 };

    fn held(&mut self) -> u32 {
        self.store.held()
    }

    fn get(&mut self, i: u32) -> u64 {
        self.store.get(i)
    }

    fn read(&mut self, i: u32, words: &mut [u64]) {
        self.store.read(i, words);
    }

    fn retire(&mut self, n: u32) {
        self.store.retire(n);
    }

    fn put(&mut self, words: &[u64]) {
        self.store.put(words);
    }

    fn close(&mut self, reason: Reason) -> u32 {
        self.store.close(reason)
    }
}
