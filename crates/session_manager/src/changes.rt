//! What calls change of a session.

ghost use Rattle.std.specs.Prelude.{◌≡◌, Some, false};
ghost use Rattle.std.specs.Str.{is_utf8};
ghost use Rattle.session_manager.specs.Book.{IsSession};
ghost use Rattle.session_manager.specs.Changes.{after, is_wrong};

use crate::Session;
use ca_base::limits::MAX_LEVEL;
use ca_base::{Guid, Text};

/// A change of one session, with the values as a call has them.
#[derive(Clone, Copy)]
pub enum Change {
    /// The master level (ISimpleAudioVolume::SetMasterVolume).
    Level(u32),
    /// Whether it is muted, 0 or 1 (ISimpleAudioVolume::SetMute).
    Mute(u8),
    /// A channel, from 0, and its level (IChannelAudioVolume::SetChannelVolume).
    Channel(u32, u32),
    /// IAudioSessionControl::SetDisplayName.
    Display(Text),
    /// IAudioSessionControl::SetIconPath.
    Icon(Text),
    /// IAudioSessionControl::SetGroupingParam.
    Grouping(Guid),
}

/// Whether bytes are a text in UTF-8.
fn is_text(bytes: &[u8]) -> bool
    ensures { result ≡ is_utf8 bytes.now }
{
    str::from_utf8(bytes).is_ok()
}

impl Change {
    /// Whether its values are wrong for a session.
    pub fn is_wrong(&self, s: &Session) -> bool
        ensures { result ≡ is_wrong self.now (Some s.now) }
    {
        match self {
            Change::Level(level) => *level > MAX_LEVEL,
            Change::Mute(mute) => *mute > 1,
            Change::Channel(channel, level) => *channel >= s.count as u32 || *level > MAX_LEVEL,
            Change::Display(text) | Change::Icon(text) => !is_text(text.as_bytes()),
            Change::Grouping(_) => false,
        }
    }

    /// Makes the change. Its values aren't wrong for the session.
    pub fn apply(&self, s: &mut Session)
        requires right { is_wrong self.now (Some s.old) ≡ false }
        requires holds { IsSession s.old }
        ensures { s.new ≡ after self.now s.old }
    {
        match self {
            Change::Level(level) => s.level = *level,
            Change::Mute(mute) => s.mute = *mute == 1,
            Change::Channel(channel, level) => s.channels[*channel as usize] = *level,
            Change::Display(text) => s.display = *text,
            Change::Icon(text) => s.icon = *text,
            Change::Grouping(guid) => s.grouping = *guid,
        }
    }
}
