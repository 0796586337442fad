//! Result codes. Names and values are those of the Core Audio reference (winerror.h, audioclient.h), but for
//! those marked as this project's own.

ghost use Rattle.ca_base.specs.Codes.{CodesAreTabled};

/// The result of a call: an HRESULT. The top bit is set in a refusal.
#[derive(Clone, Copy, Debug, PartialEq, Eq)]
pub struct Hr(pub u32);

impl Hr {
    pub const S_OK: Hr = Hr(0);

    pub const S_FALSE: Hr = Hr(1);
    /// AUDCLNT_S_BUFFER_EMPTY: no packet is there.
    pub const S_BUFFER_EMPTY: Hr = Hr(0x08890001);

    pub const E_NOTIMPL: Hr = Hr(0x80004001);

    pub const E_NOINTERFACE: Hr = Hr(0x80004002);

    pub const E_HANDLE: Hr = Hr(0x80070006);

    pub const E_OUTOFMEMORY: Hr = Hr(0x8007000E);

    pub const E_INVALIDARG: Hr = Hr(0x80070057);

    pub const E_NOTFOUND: Hr = Hr(0x80070490);

    /// AUDCLNT_E_NOT_INITIALIZED, and so on for the codes below.
    pub const NOT_INITIALIZED: Hr = Hr(0x88890001);

    pub const ALREADY_INITIALIZED: Hr = Hr(0x88890002);

    pub const WRONG_ENDPOINT_TYPE: Hr = Hr(0x88890003);

    pub const DEVICE_INVALIDATED: Hr = Hr(0x88890004);

    pub const NOT_STOPPED: Hr = Hr(0x88890005);

    pub const BUFFER_TOO_LARGE: Hr = Hr(0x88890006);

    pub const OUT_OF_ORDER: Hr = Hr(0x88890007);

    pub const UNSUPPORTED_FORMAT: Hr = Hr(0x88890008);

    pub const INVALID_SIZE: Hr = Hr(0x88890009);

    pub const DEVICE_IN_USE: Hr = Hr(0x8889000A);

    pub const BUFFER_OPERATION_PENDING: Hr = Hr(0x8889000B);

    pub const EXCLUSIVE_MODE_NOT_ALLOWED: Hr = Hr(0x8889000E);

    pub const SERVICE_NOT_RUNNING: Hr = Hr(0x88890010);

    pub const EVENTHANDLE_NOT_EXPECTED: Hr = Hr(0x88890011);

    pub const BUFDURATION_PERIOD_NOT_EQUAL: Hr = Hr(0x88890013);

    pub const EVENTHANDLE_NOT_SET: Hr = Hr(0x88890014);

    pub const BUFFER_SIZE_ERROR: Hr = Hr(0x88890016);

    pub const INVALID_DEVICE_PERIOD: Hr = Hr(0x88890020);

    /// The keeper of volumes failed (own).
    pub const KEEPER_FAULT: Hr = Hr(0xA0040001);
    /// 64 clients are live (own).
    pub const CLIENTS_FULL: Hr = Hr(0xA0040002);
    /// 48 sessions are live (own).
    pub const SESSIONS_FULL: Hr = Hr(0xA0040003);
    /// 8 endpoints are there (own).
    pub const ENDPOINTS_FULL: Hr = Hr(0xA0040004);
    /// A count would pass 2^62 (own).
    pub const WORN: Hr = Hr(0xA0040005);
}

/// Each code has its number in the table of the definitions.
pub fn codes_are_tabled()
    ensures { CodesAreTabled }
{}
