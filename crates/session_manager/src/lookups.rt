//! The place of a session in the list.

ghost use Rattle.std.specs.Prelude.{◌≡◌};
ghost use Rattle.std.specs.List.{position};
ghost use Rattle.session_manager.specs.Sessions.{is_named, is_session};

use crate::{Session, SessionKey};
use ca_base::SessionNo;

/// The place of the session of this number.
pub fn place_of(list: &[Session], s: SessionNo) -> Option<usize>
    ensures { result ≡ position (is_session s.0) list.now }
{
    list.iter().position(|x| x.no == s)
}

/// The place of the session that a key names.
pub fn place_for(list: &[Session], key: &SessionKey) -> Option<usize>
    ensures { result ≡ position (is_named key.now.endpoint.0 key.now.process key.now.guid.0) list.now }
{
    list.iter().position(|x| x.key.endpoint == key.endpoint
        && x.key.process == key.process
        && x.key.guid == key.guid)
}
