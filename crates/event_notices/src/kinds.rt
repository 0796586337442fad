//! Kinds of notices, the classes that they are registered for by, and properties of a device. The numbers are this
//! project's own.

ghost use Rattle.std.specs.Prelude.{◌≡◌};
ghost use Rattle.event_notices.specs.Kinds.{class_of};

/// IMMNotificationClient::OnDeviceAdded.
pub const DEVICE_ADDED: u8 = 1;

/// IMMNotificationClient::OnDeviceRemoved.
pub const DEVICE_REMOVED: u8 = 2;

/// IMMNotificationClient::OnDeviceStateChanged.
pub const DEVICE_STATE: u8 = 3;

/// IMMNotificationClient::OnDefaultDeviceChanged.
pub const DEFAULT_CHANGED: u8 = 4;

/// IMMNotificationClient::OnPropertyValueChanged.
pub const DEVICE_PROPERTY: u8 = 5;

/// IAudioSessionNotification::OnSessionCreated.
pub const SESSION_CREATED: u8 = 6;

/// IAudioSessionEvents::OnSessionDisconnected.
pub const DISCONNECTED: u8 = 7;

/// IAudioSessionEvents::OnStateChanged.
pub const SESSION_STATE: u8 = 8;

/// IAudioSessionEvents::OnSimpleVolumeChanged.
pub const SIMPLE_VOLUME: u8 = 9;

/// IAudioSessionEvents::OnChannelVolumeChanged.
pub const CHANNEL_VOLUME: u8 = 10;

/// IAudioSessionEvents::OnDisplayNameChanged.
pub const DISPLAY_NAME: u8 = 11;

/// IAudioSessionEvents::OnIconPathChanged.
pub const ICON_PATH: u8 = 12;

/// IAudioSessionEvents::OnGroupingParamChanged.
pub const GROUPING: u8 = 13;

/// IAudioVolumeDuckNotification::OnVolumeDuckNotification.
pub const DUCK: u8 = 14;

/// IAudioVolumeDuckNotification::OnVolumeUnduckNotification.
pub const UNDUCK: u8 = 15;

/// IAudioEndpointVolumeCallback::OnNotify.
pub const ENDPOINT_VOLUME: u8 = 16;

/// IControlChangeNotify::OnNotify.
pub const PART_CHANGED: u8 = 17;

/// Devices (IMMDeviceEnumerator::RegisterEndpointNotificationCallback).
pub const CLASS_DEVICES: u8 = 1;

/// Sessions that are made (IAudioSessionManager2::RegisterSessionNotification).
pub const CLASS_SESSIONS: u8 = 2;

/// What happens to one session (IAudioSessionControl::RegisterAudioSessionNotification).
pub const CLASS_SESSION: u8 = 3;

/// Ducking (IAudioSessionManager2::RegisterDuckNotification).
pub const CLASS_DUCKING: u8 = 4;

/// The volume of an endpoint (IAudioEndpointVolume::RegisterControlChangeNotify).
pub const CLASS_ENDPOINT_VOLUME: u8 = 5;

/// Parts of a device's topology (IPart::RegisterControlChangeCallback).
pub const CLASS_PARTS: u8 = 6;

/// A device's name, in a notice of the kind DEVICE_PROPERTY.
pub const PROPERTY_NAME: u64 = 1;

/// Its format.
pub const PROPERTY_FORMAT: u64 = 2;

/// Whether exclusive streams are allowed on it.
pub const PROPERTY_EXCLUSIVE: u64 = 3;

/// The class of a kind, 0 if there is no such kind.
pub fn class_of(kind: u8) -> u8
    ensures { result ≡ class_of kind }
{
    match kind {
        DEVICE_ADDED..=DEVICE_PROPERTY => CLASS_DEVICES,
        SESSION_CREATED => CLASS_SESSIONS,
        DISCONNECTED..=GROUPING => CLASS_SESSION,
        DUCK | UNDUCK => CLASS_DUCKING,
        ENDPOINT_VOLUME => CLASS_ENDPOINT_VOLUME,
        PART_CHANGED => CLASS_PARTS,
        _ => 0,
    }
}
