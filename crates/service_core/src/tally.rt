//! What the service counts of all frames that had a fate.

ghost use Rattle.std.specs.Prelude.{◌≡◌};
ghost use Rattle.ca_stage.specs.Tally.{counted};
ghost use Rattle.service_core.specs.Counting.{after_taking};
ghost use Rattle.service_core.specs.Service.{tally_of};

use ca_base::Hr;
use reply_payload::Payload;

/// How many frames were rendered, reset and dropped. Each count saturates.
#[derive(Clone, Copy, Debug, PartialEq, Eq)]
pub struct Tally {
    pub rendered: u128,
    pub reset: u128,
    pub dropped: u128,
}

impl Tally {
    /// No frame has a fate yet.
    pub fn new() -> Tally
        ensures { result ≡ record { rendered = 0; reset = 0; dropped = 0 } }
    {
        Tally {
            rendered: 0,
            reset: 0,
            dropped: 0,
        }
    }

    /// Counts frames that were rendered.
    pub fn add_rendered(&mut self, more: u64)
        ensures { self.new ≡ record (self.old) { rendered = counted self.old.rendered more } }
    {
        self.rendered = self.rendered.saturating_add(more as u128);
    }

    /// Counts frames that were reset.
    pub fn add_reset(&mut self, more: u64)
        ensures { self.new ≡ record (self.old) { reset = counted self.old.reset more } }
    {
        self.reset = self.reset.saturating_add(more as u128);
    }

    /// Counts frames that were dropped.
    pub fn add_dropped(&mut self, more: u64)
        ensures { self.new ≡ record (self.old) { dropped = counted self.old.dropped more } }
    {
        self.dropped = self.dropped.saturating_add(more as u128);
    }

    /// Counts what a period took, by its answer: it was dropped if the device failed, or else rendered.
    pub fn take(&mut self, answer: &Result<Payload, Hr>, taken: u64)
        ensures { tally_of self.new ≡ after_taking answer.now taken (tally_of self.old) }
    {
        if let Ok(payload) = answer {
            if payload.is_failure() {
                self.add_dropped(taken);
            } else {
                self.add_rendered(taken);
            }
        }
    }
}
