//! The environment of the service: a source of bytes and a sink for bytes. Each has a count of faults, and its contents
//! may be specified.

ghost use Rattle.std.specs.Prelude.{◌≡◌, ℕ, ◌<◌, ◌≤◌, List, Option, take, length, IfOk, OnErr};
ghost use Rattle.std.specs.Io.KnownBytes.{Appends, Consumes, IsAtEnd};
ghost use Rattle.ca_base.specs.Faults.{Counts};

use std::alloc::{AllocError, AllocFailed};
use std::fmt::{self, Display, Formatter, Write};

/// A call of an object of the environment failed. Its count of faults rose in that call.
#[derive(Clone, Copy, Debug, PartialEq, Eq)]
pub struct Failed;

impl Display for Failed {
    fn fmt<W: Write>(&self, f: &mut Formatter<W>) -> fmt::Result {
        f.write_str("a read, a write or a device failed")
    }
}

/// Memory ran out.
#[derive(Clone, Copy, Debug, PartialEq, Eq)]
pub struct NoMemory;

impl Display for NoMemory {
    fn fmt<W: Write>(&self, f: &mut Formatter<W>) -> fmt::Result {
        f.write_str("no memory")
    }
}

impl From<AllocError> for NoMemory {
    fn from(_error: AllocError) -> NoMemory {
        NoMemory
    }
}

impl<T: Drop> From<AllocFailed<T>> for NoMemory {
    fn from(_error: AllocFailed<T>) -> NoMemory {
        NoMemory
    }
}

/// Where bytes come from. If what a source has left is specified, it gives the front of that.
pub trait Source: Drop {
    /// How many calls have failed. It never falls.
    ghost faults: { Self → ℕ };

    /// The bytes that reads will give from here on, if they are specified.
    ghost left: { Self → Option (List ℕ) };

    /// Reads the next bytes into the front of `buf`, and answers how many. 0 is the end, exactly if nothing is left.
    fn read(&mut self, buf: &mut [u8]) -> Result<usize, Failed>
        requires { 0 < length buf.old }
        ensures count { IfOk result (λ n. n ≤ length buf.new) }
        ensures cause { Counts result (faults self.old) (faults self.new) }
        ensures gives { IfOk result (λ n. Consumes (left self.old) (left self.new) (take n buf.new)) }
        ensures end { IfOk result (λ n. n ≡ 0 → IsAtEnd (left self.old)) }
        ensures err { OnErr result (left self.new ≡ left self.old) };
}

/// Where bytes go. If what was written to a sink is specified, each piece is added at the end.
pub trait Sink: Drop {
    /// How many calls have failed. It never falls.
    ghost faults: { Self → ℕ };

    /// The bytes written so far, if they are specified.
    ghost written: { Self → Option (List ℕ) };

    /// Takes at least one byte of the front of the piece, and answers how many.
    fn write(&mut self, piece: &[u8]) -> Result<usize, Failed>
        requires { 0 < length piece.now }
        ensures some { IfOk result (λ n. 0 < n) }
        ensures count { IfOk result (λ n. n ≤ length piece.now) }
        ensures cause { Counts result (faults self.old) (faults self.new) }
        ensures takes { IfOk result (λ n. Appends (written self.old) (written self.new) (take n piece.now)) }
        ensures err { OnErr result (written self.new ≡ written self.old) };
}
