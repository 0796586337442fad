//! The sessions of an endpoint, and sessions that go.

ghost use Rattle.std.specs.Prelude.{◌≡◌, ◌+◌, ◌*◌, ◌≤◌, ◌++◌, length};
ghost use Rattle.std.specs.List.Retain.{IsFiltered};
ghost use Rattle.std.specs.Fn.{CalledAt};
ghost use Rattle.session_manager.specs.Sessions.{number_bytes, numbers_on};

use crate::{Session, SessionBook};
use ca_base::limits::SESSIONS;
use ca_base::{Bytes, EndpointNo};

/// Adds the numbers of an endpoint's sessions, eight bytes each.
fn add_numbers(list: &[Session], e: EndpointNo, out: &mut Bytes)
    requires { length out.old.list + 8 * length list.now ≤ out.old.capacity }
    ensures list { out.new.list ≡ out.old.list ++ number_bytes (numbers_on e.0 list.now) }
    ensures keeps { out.old.capacity ≤ out.new.capacity }
{
    'sessions: for s in list.iter() {
        if s.key.endpoint == e {
            out.append_reserved(&s.no.0.to_le_bytes());
        }
    }
}

impl SessionBook {
    /// Adds the numbers of an endpoint's sessions to bytes that have room for those of all sessions: eight bytes each,
    /// in the order of the numbers (IAudioSessionEnumerator).
    pub fn enumerate(&self, e: EndpointNo, out: &mut Bytes)
        requires { length out.old.list + 8 * SESSIONS ≤ out.old.capacity }
        ensures list { out.new.list ≡ out.old.list ++ number_bytes (numbers_on e.0 self.now.list) }
        ensures keeps { out.old.capacity ≤ out.new.capacity }
    {
        add_numbers(&self.sessions, e, out);
    }

    /// Keeps the sessions of which a test says yes, as those that still have a stream.
    pub fn keep<F: FnMut(&Session) -> bool>(&mut self, test: F)
        requires { F.IsAlwaysCallable test }
        ensures list { IsFiltered (CalledAt F.FnMut) test self.old.list self.new.list }
        ensures made { self.new.made ≡ self.old.made }
    {
        self.sessions.retain(test);
    }
}
