//! The session that a new stream joins (IAudioClient::Initialize).

ghost use Rattle.std.specs.Prelude.{◌≡◌, ◌≤◌, IfOk, None, length};
ghost use Rattle.std.specs.Result.{result_err};
ghost use Rattle.std.specs.Option.{option_map};
ghost use Rattle.ca_base.specs.Rows.{first};
ghost use Rattle.session_manager.specs.Rows.{join_rows};
ghost use Rattle.session_manager.specs.Sessions.{first_level, joined, new_session, number_joined, session_for};

use crate::lookups::place_for;
use crate::{CHANNELS, Kept, Session, SessionBook, SessionKey};
use ca_base::limits::{MAX_CONNECTION_NAME, MAX_COUNT, MAX_LEVEL, SESSIONS};
use ca_base::{Guid, Hr, SessionNo, Text};

/// A session as it is made, with the level and the mute that were kept, for a stream of `channels` channels.
fn new_session(
    no: SessionNo,
    key: &SessionKey,
    kept: Option<Kept>,
    persist: bool,
    channels: u16,
) -> Session
    ensures { result ≡ new_session no.0 key.now kept persist channels }
{
    let (level, mute) = match kept {
        Some(kept) => (kept.level, kept.mute),
        None => (MAX_LEVEL, false),
    };
    Session {
        no,
        key: *key,
        level,
        mute,
        channels: [MAX_LEVEL; CHANNELS],
        count: channels,
        persist,
        display: Text::new(&[]),
        icon: Text::new(&[]),
        grouping: Guid(0),
        optout: false,
    }
}

impl SessionBook {
    /// The session that a stream would join, `None` if it would make one.
    ///
    /// Errors: SESSIONS_FULL or WORN if it can't be made.
    pub fn check_join(&self, key: &SessionKey) -> Result<Option<SessionNo>, Hr>
        ensures says { result_err result ≡ first (join_rows key.now self.now) }
        ensures found { IfOk result (λ s. s ≡ option_map (λ x. x.no) (session_for key.now self.now.list)) }
    {
        let found = self.find(key);
        if found.is_none() && self.sessions.len() >= SESSIONS {
            return Err(Hr::SESSIONS_FULL);
        }
        if found.is_none() && self.made >= MAX_COUNT {
            return Err(Hr::WORN);
        }
        Ok(found)
    }

    /// Joins a stream of `channels` channels to the session that the key names, or makes it, with the level and the
    /// mute that were kept. It takes no memory.
    pub fn join(
        &mut self,
        key: &SessionKey,
        kept: Option<Kept>,
        persist: bool,
        channels: u16,
    ) -> SessionNo
        requires free { first (join_rows key.now self.old) ≡ None }
        requires least { 1 ≤ channels }
        requires most { channels ≤ CHANNELS }
        requires level { first_level kept ≤ MAX_LEVEL }
        requires name { length key.now.name ≤ MAX_CONNECTION_NAME }
        ensures number { result.0 ≡ number_joined key.now self.old }
        ensures after { self.new ≡ joined key.now kept persist channels self.old }
    {
        if let Some(at) = place_for(&self.sessions, key) {
            let no = self.sessions[at].no;
            self.sessions[at].count = channels;
            return no;
        }
        self.made += 1;
        let no = SessionNo(self.made);
        self.sessions
            .push_reserved(new_session(no, key, kept, persist, channels));
        no
    }
}
