//! What is known of a session. The definitions and the code have the same records.

use ca_base::{EndpointNo, Guid, SessionNo, Text};

/// How many channels a session has levels for: no format has more.
pub const CHANNELS: usize = 4;

/// What names a session. Two are the same if endpoint, process and GUID are.
#[derive(Clone, Copy)]
pub struct SessionKey {
    pub endpoint: EndpointNo,
    /// The process of its streams, 0 if processes share it.
    pub process: u32,
    pub guid: Guid,
    /// The name of its maker's connection, at most 64 bytes; `*` if processes share it.
    pub name: Text,
}

/// What a keeper of volumes has kept of a session.
#[derive(Clone, Copy)]
pub struct Kept {
    /// From 0 to 65536.
    pub level: u32,
    pub mute: bool,
}

/// A session that has a stream which isn't released (IAudioSessionControl2). Whether it is active follows from its
/// streams.
#[derive(Clone, Copy)]
pub struct Session {
    pub no: SessionNo,
    pub key: SessionKey,
    /// The master volume (ISimpleAudioVolume), from 0 to 65536.
    pub level: u32,
    pub mute: bool,
    /// The level of each channel (IChannelAudioVolume), from 0 to 65536.
    pub channels: [u32; CHANNELS],
    /// How many channels the stream had that joined last, from 1 to 4.
    pub count: u16,
    /// Whether a keeper of volumes is told of its level and mute.
    pub persist: bool,
    /// The texts and the grouping that a user interface shows it by (IAudioSessionControl).
    pub display: Text,
    pub icon: Text,
    pub grouping: Guid,
    /// Whether it opted out of ducking (IAudioSessionControl2::SetDuckingPreference).
    pub optout: bool,
}
