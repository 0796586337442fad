//! Changes of one session (ISimpleAudioVolume, IChannelAudioVolume, IAudioSessionControl).

ghost use Rattle.session_manager.specs.Changes.{Sets, after, change_rows};

use crate::SessionBook;
use crate::changes::Change;
use crate::lookups::place_of;
use ca_base::{Hr, SessionNo};

impl SessionBook {
    /// Changes a session, unless it isn't there or the values are wrong for it: then nothing is changed.
    ///
    /// Errors: E_NOTFOUND if the session isn't there, E_INVALIDARG if the values are wrong.
    pub fn set(&mut self, s: SessionNo, by: &Change) -> Result<(), Hr>
        ensures { Sets s.0 (change_rows by.now) (after by.now) result self.old self.new }
    {
        let Some(at) = place_of(&self.sessions, s) else {
            return Err(Hr::E_NOTFOUND);
        };
        if by.is_wrong(&self.sessions[at]) {
            return Err(Hr::E_INVALIDARG);
        }
        by.apply(&mut self.sessions[at]);
        Ok(())
    }
}
