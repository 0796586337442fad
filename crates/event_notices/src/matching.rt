//! Which notices a connection registered for.

ghost use Rattle.std.specs.Prelude.{◌≡◌};
ghost use Rattle.event_notices.specs.Notices.{is_matched, is_matched_by};

use crate::kinds::{CLASS_DEVICES, class_of};
use crate::{Notice, Registration};

/// Whether a registration is for this notice.
fn is_matched_by(n: &Notice, r: &Registration) -> bool
    ensures { result ≡ is_matched_by n.now r.now }
{
    class_of(n.kind) == r.class
        && (r.class == CLASS_DEVICES || r.subject == 0 || r.subject == n.subject)
}

/// Whether one of these registrations is for this notice.
pub fn is_matched(registrations: &[Registration], n: &Notice) -> bool
    ensures { result ≡ is_matched registrations.now n.now }
{
    registrations.iter().any(|r| is_matched_by(n, r))
}
