//! The sessions as a list.

ghost use Rattle.std.specs.Prelude.{◌≡◌, IfOk, IfSome};
ghost use Rattle.std.specs.Option.{option_copied, option_map};
ghost use Rattle.session_manager.specs.Book.{IsList, IsSession};
ghost use Rattle.session_manager.specs.Sessions.{no_sessions, session_at, session_for};

use crate::lookups::{place_for, place_of};
use crate::{Session, SessionKey};
use ca_base::limits::SESSIONS;
use ca_base::{NoMemory, SessionNo};
use std::alloc::Global;
use std::marker::Model;

/// The sessions that are there, in the order of their numbers, and how many were ever made. Its memory is taken when it
/// is made, and no call takes more.
#[derive(Drop)]
pub struct SessionBook {
    pub(crate) sessions: Vec<Session>,
    pub(crate) made: u64,
}

impl Model for SessionBook {
    ghost use Rattle.session_manager.specs.Sessions.{SessionList};
    ghost use Rattle.session_manager.specs.Book.{IsBook};

    ghost Value = { SessionList };

    ghost view = { λ b. record { list = b.sessions.items; made = b.made } };

    ghost invariant = { IsBook };
}

impl SessionBook {
    /// No sessions, and memory for as many as there may be.
    pub fn new(alloc: Global) -> Result<SessionBook, NoMemory>
        ensures { IfOk result (λ b. b ≡ no_sessions) }
    {
        let sessions = Vec::with_capacity(alloc, SESSIONS)?;
        Ok(SessionBook { sessions, made: 0 })
    }

    /// The sessions, in the order of their numbers.
    pub fn sessions(&self) -> &[Session]
        ensures list { result.now ≡ self.now.list }
        ensures holds { IsList self.now }
    {
        &self.sessions
    }

    /// The session of this number.
    pub fn get(&self, s: SessionNo) -> Option<&Session>
        ensures session { option_copied result ≡ session_at s.0 self.now.list }
        ensures holds { IfSome result (λ x. IsSession x.now) }
    {
        match place_of(&self.sessions, s) {
            Some(at) => Some(&self.sessions[at]),
            None => None,
        }
    }

    /// The number of the session that a key names.
    pub fn find(&self, key: &SessionKey) -> Option<SessionNo>
        ensures { result ≡ option_map (λ s. s.no) (session_for key.now self.now.list) }
    {
        match place_for(&self.sessions, key) {
            Some(at) => Some(self.sessions[at].no),
            None => None,
        }
    }
}
