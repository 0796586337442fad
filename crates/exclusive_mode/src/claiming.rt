//! Who gets a stream.

ghost use Rattle.std.specs.Prelude.{◌≡◌};
ghost use Rattle.exclusive_mode.specs.Claims.{claim, has_exclusive};

use crate::{Claim, Held};
use ca_base::Hr;

/// Whether one of these streams is exclusive.
fn has_exclusive(held: &[Held]) -> bool
    ensures { result ≡ has_exclusive held.now }
{
    held.iter().any(|stream| stream.exclusive)
}

/// What a client gets that asks for a stream, exclusive or shared, of an endpoint with these open streams. `priority`
/// is the endpoint's: exclusive streams take it over.
///
/// Refused: AUDCLNT_E_DEVICE_IN_USE if one of the streams is exclusive, or if an exclusive one is asked for, there are
/// others, and the endpoint doesn't give exclusive ones priority.
pub fn claim(exclusive: bool, held: &[Held], priority: bool) -> Claim
    ensures { result ≡ claim exclusive held.now priority }
{
    if has_exclusive(held) {
        return Claim::Refused(Hr::DEVICE_IN_USE);
    }
    if !exclusive || held.is_empty() {
        return Claim::Granted;
    }
    if priority {
        Claim::TakeOver
    } else {
        Claim::Refused(Hr::DEVICE_IN_USE)
    }
}
