//! What is noted of a number.

ghost use Rattle.std.specs.Prelude.{◌≡◌};
ghost use Rattle.step_notices.specs.Changes.{endpoint_in, note, session_in, stream_in};

use crate::{NotedEndpoint, NotedSession, NotedStream};
use ca_base::{ClientNo, EndpointNo, Guid, SessionNo, Text};
use event_notices::Notice;

/// A notice that no call caused, and that has no text.
pub fn note(kind: u8, subject: u64, value: u64) -> Notice
    ensures { result ≡ note kind subject value }
{
    Notice {
        kind,
        subject,
        context: Guid(0),
        value,
        text: Text::new(&[]),
    }
}

/// The endpoint of this number.
pub fn endpoint_in(no: EndpointNo, list: &[NotedEndpoint]) -> Option<NotedEndpoint>
    ensures { result ≡ endpoint_in no.0 list.now }
{
    list.iter().copied().find(|e| e.no == no)
}

/// The session of this number.
pub fn session_in(no: SessionNo, list: &[NotedSession]) -> Option<NotedSession>
    ensures { result ≡ session_in no.0 list.now }
{
    list.iter().copied().find(|s| s.no == no)
}

/// The stream of this client.
pub fn stream_in(no: ClientNo, list: &[NotedStream]) -> Option<NotedStream>
    ensures { result ≡ stream_in no.0 list.now }
{
    list.iter().copied().find(|s| s.client == no)
}
