//! The open streams of an endpoint, and what a client that asks for one gets.

ghost use Rattle.std.specs.Prelude.{◌≡◌};
ghost use Rattle.ca_base.specs.Rows.{first};
ghost use Rattle.exclusive_mode.specs.Claims.{claim_rows, is_takeover};

use ca_base::{ClientNo, Hr};

/// An open stream of an endpoint: whose it is, and whether it is exclusive (AUDCLNT_SHAREMODE_EXCLUSIVE).
#[derive(Clone, Copy, Debug, PartialEq, Eq)]
pub struct Held {
    pub client: ClientNo,
    pub exclusive: bool,
}

/// No stream's: what a table has at its unused places.
impl Default for Held {
    fn default() -> Held {
        Held {
            client: ClientNo(0),
            exclusive: false,
        }
    }
}

/// What a client that asks for a stream gets.
#[derive(Clone, Copy, Debug, PartialEq, Eq)]
pub enum Claim {
    /// A stream beside those that are there.
    Granted,
    /// A stream in place of all that are there: each of them is disconnected first
    /// (DisconnectReasonExclusiveModeOverride).
    TakeOver,
    /// No stream, for this code.
    Refused(Hr),
}

impl Claim {
    /// The code that a call answers if the claim is refused, AUDCLNT_E_DEVICE_IN_USE: claims are refused with no other.
    pub fn refusal(self) -> Option<Hr>
        ensures { result ≡ first (claim_rows self) }
    {
        match self {
            Claim::Refused(_) => Some(Hr::DEVICE_IN_USE),
            _ => None,
        }
    }

    /// Whether the streams that are there are disconnected first.
    pub fn is_takeover(self) -> bool
        ensures { result ≡ is_takeover self }
    {
        matches!(self, Claim::TakeOver)
    }
}
