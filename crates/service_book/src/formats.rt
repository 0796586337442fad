//! What a format is to an endpoint's (IAudioClient::Initialize, IAudioClient::IsFormatSupported).

ghost use Rattle.std.specs.Prelude.{◌≡◌};
ghost use Rattle.ca_machine.specs.Formats.{admits, matches};
ghost use Rattle.service_book.specs.Formats.{Admitted, TellsSupport};

use ca_base::Hr;
use ca_base::values::SHARE_EXCLUSIVE;
use device_registry::Endpoint;
use reply_payload::Payload;
use wave_format::{Format, read_format};

/// Whether formats have the same channels and rate.
pub fn matches(a: &Format, b: &Format) -> bool
    ensures { result ≡ matches a.now b.now }
{
    a.channels == b.channels && a.rate == b.rate
}

/// Whether a stream of this format may be opened where an endpoint mixes in that one: it matches if the use is shared,
/// and has as many channels if it is exclusive.
fn admits(share: u32, mix: &Format, format: &Format) -> bool
    ensures { result ≡ admits share mix.now format.now }
{
    if share == SHARE_EXCLUSIVE {
        mix.channels == format.channels
    } else {
        matches(mix, format)
    }
}

/// The format of these bytes, if an endpoint that mixes in `mix` admits it. E_INVALIDARG if they are no format at all.
pub fn admitted(share: u32, mix: &Format, bytes: &[u8]) -> Result<Option<Format>, Hr>
    ensures { Admitted result share mix.now bytes.now }
{
    match read_format(bytes) {
        Ok(format) => {
            if admits(share, mix, &format) {
                return Ok(Some(format));
            }
            Ok(None)
        }
        Err(fault) => {
            if fault.0 <= 2 {
                return Err(Hr::E_INVALIDARG);
            }
            Ok(None)
        }
    }
}

/// What a stream of these bytes' format gets on an endpoint: nothing more if the endpoint takes it. If it doesn't, a
/// shared stream gets the closest format, which is the endpoint's.
///
/// Errors: E_INVALIDARG if the bytes are no format at all, or there is no such share mode; UNSUPPORTED_FORMAT if
/// exclusive use can't be had in it.
pub fn support(share: u32, endpoint: &Endpoint, bytes: &[u8]) -> Result<Payload, Hr>
    ensures { TellsSupport result share endpoint.now bytes.now }
{
    if share > SHARE_EXCLUSIVE {
        return Err(Hr::E_INVALIDARG);
    }
    match admitted(share, &endpoint.format, bytes)? {
        Some(_) => Ok(Payload::Nothing),
        None => {
            if share == SHARE_EXCLUSIVE {
                return Err(Hr::UNSUPPORTED_FORMAT);
            }
            Ok(Payload::Closest(endpoint.format))
        }
    }
}
