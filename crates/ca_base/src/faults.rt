//! Counts of failed calls.

ghost use Rattle.std.specs.Prelude.{◌≡◌};
ghost use Rattle.ca_base.specs.Faults.{Rose};
ghost use Rattle.ca_base.specs.Memory.{raised};

use crate::Failed;
use std::marker::Model;

/// How many calls of an object have failed. The count saturates at 2^64 - 1.
#[derive(Clone, Copy)]
pub struct Faults {
    count: u64,
}

impl Model for Faults {
    ghost use Rattle.std.specs.Prelude.{ℕ, ◌<◌, ◌^◌};

    ghost Value = { ℕ };

    ghost view = { λ f. f.count };

    ghost inverse = { λ n. record { count = n } };
}

impl Faults {
    /// No call has failed.
    pub fn new() -> Faults
        ensures { result ≡ 0 }
    {
        Faults { count: 0 }
    }

    /// How many calls have failed.
    pub fn count(&self) -> u64
        ensures { result ≡ self.now }
    {
        self.count
    }

    /// Counts one more, and hands out what such a call answers.
    pub fn raise(&mut self) -> Failed
        ensures raised { self.new ≡ raised self.old }
        ensures rose { Rose self.old self.new }
    {
        self.count = self.count.saturating_add(1);
        Failed
    }
}
