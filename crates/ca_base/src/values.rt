//! Values of fields that the Core Audio reference names (mmdeviceapi.h, audiosessiontypes.h, audioclient.h), and those
//! of this project's own wire form.

/// An endpoint that can be used (DEVICE_STATE_ACTIVE), and so on for the states below.
pub const STATE_ACTIVE: u32 = 1;

pub const STATE_DISABLED: u32 = 2;

pub const STATE_NOTPRESENT: u32 = 4;

pub const STATE_UNPLUGGED: u32 = 8;

/// An endpoint that plays (EDataFlow: eRender), and so on for the flows below.
pub const FLOW_RENDER: u8 = 0;

pub const FLOW_CAPTURE: u8 = 1;

pub const FLOW_ALL: u8 = 2;

/// Games and notifications (ERole: eConsole), and so on for the roles below.
pub const ROLE_CONSOLE: u8 = 0;

pub const ROLE_MULTIMEDIA: u8 = 1;

pub const ROLE_COMMUNICATIONS: u8 = 2;

/// No role (own).
pub const ROLE_NONE: u8 = 255;

/// A stream beside others (AUDCLNT_SHAREMODE_SHARED), and one that has its endpoint for itself.
pub const SHARE_SHARED: u32 = 0;

pub const SHARE_EXCLUSIVE: u32 = 1;

/// The session is one of all processes (AUDCLNT_STREAMFLAGS_CROSSPROCESS), and so on for the flags below.
pub const STREAM_CROSSPROCESS: u32 = 0x0001_0000;

pub const STREAM_LOOPBACK: u32 = 0x0002_0000;

pub const STREAM_EVENTCALLBACK: u32 = 0x0004_0000;

pub const STREAM_NOPERSIST: u32 = 0x0008_0000;

/// Packets before this one were lost (AUDCLNT_BUFFERFLAGS_DATA_DISCONTINUITY).
pub const BUFFER_DATA_DISCONTINUITY: u32 = 1;

/// The frames are silence, whatever the data are (AUDCLNT_BUFFERFLAGS_SILENT).
pub const BUFFER_SILENT: u32 = 2;

/// No stream of the session runs (AudioSessionState), and so on for the states below.
pub const SESSION_INACTIVE: u8 = 0;

pub const SESSION_ACTIVE: u8 = 1;

pub const SESSION_EXPIRED: u8 = 2;

/// The kinds of events (own).
pub const KIND_OPEN: u8 = 1;

pub const KIND_HANGUP: u8 = 2;

pub const KIND_CALL: u8 = 3;

pub const KIND_PERIOD: u8 = 4;

pub const KIND_DEVICE: u8 = 5;

pub const KIND_HTTP: u8 = 6;

pub const KIND_SHUTDOWN: u8 = 7;
