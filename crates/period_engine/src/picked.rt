//! What a period takes from streams: the frames that are due are picked before its Sound, and retired after it.

ghost use Rattle.std.specs.List.{All, AllZip};
ghost use Rattle.period_engine.specs.Entries.{HasRoom, IsRested, IsPicked, is_played};
ghost use Rattle.period_engine.specs.SubSteps.{Turned, picks_on, retires_on};
ghost use Rattle.std.specs.Prelude.{◌≡◌, ℕ};

use crate::StreamEntry;
use buffer_ring::EngineSide;
use ca_base::{EndpointNo, Gate, StreamKind};

impl<E: EngineSide> StreamEntry<E> {
    /// Whether a period of this endpoint plays the stream: it is open, it runs, and it renders.
    fn is_played(&self, e: EndpointNo) -> bool
        ensures { result ≡ is_played e.0 self.now }
    {
        self.endpoint == e
            && self.gate == Gate::Open
            && self.running
            && self.kind == StreamKind::Render
    }

    /// Picks the frames that are due, if a period of endpoint `e` plays the stream: at most `p`.
    fn pick(&mut self, e: EndpointNo, p: u32)
        requires rested { IsRested E.state self.old }
        requires counts { HasRoom e.0 p self.old }
        ensures turned { Turned E.moves (picks_on e.0 p) self.old self.new }
        ensures picked { IsPicked E.state e.0 p self.new }
    {
        if self.is_played(e) {
            let held = self.store.held();
            self.picked = held.min(p);
        }
    }

    /// Takes the frames that were picked off the stream, if a period of endpoint `e` plays it: they are rendered.
    fn retire(&mut self, e: EndpointNo)
        requires { (p : ℕ) × IsPicked E.state e.0 p self.old }
        ensures turned { Turned E.moves (retires_on e.0) self.old self.new }
        ensures rested { IsRested E.state self.new }
    {
        if self.is_played(e) {
            let picked = self.picked;
            if picked > 0 {
                self.store.retire(picked);
            }
            self.position += picked as u64;
            self.picked = 0;
        }
    }
}

/// Picks the frames that are due of each stream that a period of endpoint `e` plays: at most `p` each.
pub fn pick<E: EngineSide>(all: &mut [StreamEntry<E>], e: EndpointNo, p: u32)
    requires rested { All (IsRested E.state) all.old }
    requires counts { All (HasRoom e.0 p) all.old }
    ensures turned { AllZip (Turned E.moves (picks_on e.0 p)) all.old all.new }
    ensures picked { All (IsPicked E.state e.0 p) all.new }
{
    for entry in all.iter_mut() {
        entry.pick(e, p);
    }
}

/// Takes the frames that were picked off each stream that a period of endpoint `e` plays: they are rendered.
pub fn retire<E: EngineSide>(all: &mut [StreamEntry<E>], e: EndpointNo)
    requires { (p : ℕ) × All (IsPicked E.state e.0 p) all.old }
    ensures turned { AllZip (Turned E.moves (retires_on e.0)) all.old all.new }
    ensures rested { All (IsRested E.state) all.new }
{
    for entry in all.iter_mut() {
        entry.retire(e);
    }
}
