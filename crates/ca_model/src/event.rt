//! Events: what the service is asked, and what happens to devices.

use ca_base::{Bytes, ClientNo, ConnNo, EndpointNo, Guid, SessionNo, Text};

/// One event of the service.
#[derive(Drop)]
pub enum Event {
    /// A connection opens: its process and its name.
    Open { conn: ConnNo, pid: u32, name: Text },
    /// A connection hangs up: its clients are released.
    Hangup { conn: ConnNo },
    /// A call on a connection. The reply carries the same tag.
    Call { conn: ConnNo, tag: u32, call: Call },
    /// One period of an endpoint.
    Period { endpoint: EndpointNo },
    /// A device event.
    Device { event: DeviceEvent },
    /// The service shuts down: all streams are closed, and later calls are refused but for a few (own).
    Shutdown,
}

/// A call, by its code.
#[derive(Drop)]
pub enum Call {
    /// 1: IMMDeviceEnumerator::EnumAudioEndpoints. The flow is 0, 1 or 2 (EDataFlow), the mask DEVICE_STATE bits.
    EnumEndpoints {
        flow: u8,
        mask: u32,
    },
    /// 2: IMMDeviceEnumerator::GetDefaultAudioEndpoint. The flow is 0 or 1 (EDataFlow), the role 0, 1 or 2 (ERole).
    GetDefault {
        flow: u8,
        role: u8,
    },
    /// 3: IMMDeviceEnumerator::GetDevice, by an endpoint's identifier.
    GetDevice {
        id: Text,
    },
    /// 4: IMMDevice, an endpoint's data.
    DeviceInfo {
        endpoint: EndpointNo,
    },
    /// 5: IMMDevice::Activate. The role is 0, 1 or 2 (ERole), or 255 for none.
    Activate {
        endpoint: EndpointNo,
        role: u8,
    },
    /// 6: the client is released (IUnknown::Release of an IAudioClient).
    Release {
        client: ClientNo,
    },
    /// 7: notices of a class from 1 to 6 are wanted (own, for the callbacks that the reference registers). The subject
    /// is an endpoint's or a session's number, or 0 for all.
    Register {
        class: u8,
        subject: u64,
    },
    /// 8: notices of a registration are no longer wanted (own).
    Unregister {
        registration: u64,
    },
    /// 9: the oldest notices, at most `max` (own).
    TakeNotices {
        max: u32,
    },
    /// 10: the same, and the answer waits until there is one (own).
    AwaitNotices {
        max: u32,
    },
    /// 16: IAudioClient::Initialize. Times are in units of 100 ns, the format is WAVEFORMATEX bytes.
    Initialize {
        client: ClientNo,
        share: u32,
        flags: u32,
        duration: u64,
        period: u64,
        format: Bytes,
        session: Guid,
    },
    /// 17: IAudioClient::GetBufferSize.
    GetBufferSize {
        client: ClientNo,
    },
    /// 18: IAudioClient::GetStreamLatency.
    GetStreamLatency {
        client: ClientNo,
    },
    /// 19: IAudioClient::GetCurrentPadding.
    GetCurrentPadding {
        client: ClientNo,
    },
    /// 20: IAudioClient::IsFormatSupported. The format is WAVEFORMATEX bytes.
    IsFormatSupported {
        client: ClientNo,
        share: u32,
        format: Bytes,
    },
    /// 21: IAudioClient::GetMixFormat.
    GetMixFormat {
        client: ClientNo,
    },
    /// 22: IAudioClient::GetDevicePeriod.
    GetDevicePeriod {
        client: ClientNo,
    },
    /// 23: IAudioClient::Start.
    Start {
        client: ClientNo,
    },
    /// 24: IAudioClient::Stop.
    Stop {
        client: ClientNo,
    },
    /// 25: IAudioClient::Reset.
    Reset {
        client: ClientNo,
    },
    /// 26: IAudioClient::SetEventHandle. The handle is the caller's own number, which isn't 0.
    SetEventHandle {
        client: ClientNo,
        handle: u64,
    },
    /// 27: IAudioClient::GetService, by the service's number from 1 to 7 (own).
    GetService {
        client: ClientNo,
        service: u32,
    },
    /// 28: IAudioClock::GetPosition.
    GetPosition {
        client: ClientNo,
    },
    /// 29: IAudioStreamVolume::GetChannelVolume.
    GetStreamLevel {
        client: ClientNo,
        channel: u32,
    },
    /// 30: IAudioStreamVolume::SetChannelVolume. The level is 0 to 65536.
    SetStreamLevel {
        client: ClientNo,
        channel: u32,
        level: u32,
    },
    /// 32: IAudioRenderClient::GetBuffer, of `frames` frames.
    GetBuffer {
        client: ClientNo,
        frames: u32,
    },
    /// 33: IAudioRenderClient::ReleaseBuffer. The bytes are the frames, little-endian.
    ReleaseBuffer {
        client: ClientNo,
        frames: u32,
        flags: u32,
        bytes: Bytes,
    },
    /// 34: IAudioCaptureClient::GetNextPacketSize, in frames.
    GetNextPacketSize {
        client: ClientNo,
    },
    /// 35: IAudioCaptureClient::GetBuffer, of the next packet.
    CaptureGetBuffer {
        client: ClientNo,
    },
    /// 36: IAudioCaptureClient::ReleaseBuffer: the packet's frames if it was read, or 0.
    CaptureReleaseBuffer {
        client: ClientNo,
        frames: u32,
    },
    /// 48: IAudioSessionEnumerator, the sessions of an endpoint.
    EnumSessions {
        endpoint: EndpointNo,
    },
    /// 49: IAudioSessionControl2, a session's data.
    GetSession {
        session: SessionNo,
    },
    /// 50: ISimpleAudioVolume::SetMasterVolume, with its event context. The level is 0 to 65536.
    SetMaster {
        session: SessionNo,
        level: u32,
        context: Guid,
    },
    /// 51: ISimpleAudioVolume::SetMute, with its event context.
    SetMute {
        session: SessionNo,
        mute: u8,
        context: Guid,
    },
    /// 52: IChannelAudioVolume::SetChannelVolume, with its event context. The level is 0 to 65536.
    SetChannel {
        session: SessionNo,
        channel: u32,
        level: u32,
        context: Guid,
    },
    /// 53: IAudioSessionControl::SetDisplayName, with its event context.
    SetDisplayName {
        session: SessionNo,
        context: Guid,
        text: Text,
    },
    /// 54: IAudioSessionControl::SetIconPath, with its event context.
    SetIconPath {
        session: SessionNo,
        context: Guid,
        text: Text,
    },
    /// 55: IAudioSessionControl::SetGroupingParam, with its event context.
    SetGrouping {
        session: SessionNo,
        grouping: Guid,
        context: Guid,
    },
    /// A code that isn't listed.
    Other {
        code: u8,
        rest: Bytes,
    },
}

/// A device event, by its code.
#[derive(Drop)]
pub enum DeviceEvent {
    /// 1: an endpoint is added. The flow is 0 for render and 1 for capture, the format is WAVEFORMATEX bytes.
    Add {
        endpoint: EndpointNo,
        flow: u8,
        format: Bytes,
        name: Text,
    },
    /// 2: an endpoint's state (IMMDevice::GetState): 1 active, 2 disabled, 4 not present or 8 unplugged.
    SetState {
        endpoint: EndpointNo,
        state: u32,
    },
    /// 3: an endpoint is gone for good (IMMNotificationClient::OnDeviceRemoved).
    Remove {
        endpoint: EndpointNo,
    },
    /// 4: an endpoint's format (PKEY_AudioEngine_DeviceFormat), WAVEFORMATEX bytes.
    SetFormat {
        endpoint: EndpointNo,
        format: Bytes,
    },
    /// 5: the default endpoint of a flow, 0 or 1 (EDataFlow), in a role, 0, 1 or 2 (ERole).
    SetDefault {
        flow: u8,
        role: u8,
        endpoint: EndpointNo,
    },
    /// 6: whether an endpoint may be used by one stream alone, and whether that takes precedence over shared streams:
    /// 0 or 1 each (the boxes 'exclusive mode' of an endpoint's properties).
    SetExclusive {
        endpoint: EndpointNo,
        allow: u8,
        priority: u8,
    },
    /// 8: an endpoint's name (PKEY_Device_FriendlyName).
    SetName {
        endpoint: EndpointNo,
        name: Text,
    },
    /// A code that isn't listed.
    Other {
        code: u8,
        rest: Bytes,
    },
}
