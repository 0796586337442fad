//! Why bytes are not read as an event.

ghost use Rattle.std.specs.Prelude.{◌≡◌};
ghost use Rattle.call_wire.specs.declared.fault.Fault.TheVariants.{OutOfMemory, Malformed};

use ca_base::NoMemory;

/// The bytes don't begin with a field of the kind that was asked for. Readers that take no memory fail by it alone.
#[derive(Clone, Copy)]
pub struct NoField;

/// Why a reader that takes memory fails.
#[derive(Clone, Copy)]
pub enum Fault {
    /// Memory ran out for bytes that can be read.
    OutOfMemory,
    /// The bytes spell no event.
    Malformed,
}

impl From<NoMemory> for Fault {
    ghost from_gives = { λ _ f. f ≡ OutOfMemory };

    fn from(_e: NoMemory) -> Fault {
        Fault::OutOfMemory
    }
}

impl From<NoField> for Fault {
    ghost from_gives = { λ _ f. f ≡ Malformed };

    fn from(_e: NoField) -> Fault {
        Fault::Malformed
    }
}
