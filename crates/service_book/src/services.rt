//! The services that a stream has (IAudioClient::GetService).

ghost use Rattle.std.specs.Prelude.{◌≡◌, ◌==◌, ◌&&◌, ◌||◌, not};
ghost use Rattle.ca_machine.specs.Streams.{is_service};
ghost use Rattle.ca_stage.specs.Stage.{is_render};

use ca_base::StreamKind;

/// Whether there is a service of this number.
pub fn is_service(service: u32) -> bool
    ensures { result ≡ is_service service }
{
    1 <= service && service <= 7
}

/// Whether a service is one of streams of another kind: 1 renders, 2 captures.
pub fn is_of_other_kind(service: u32, kind: StreamKind) -> bool
    ensures { result ≡ (service == 1 && not (is_render kind) || service == 2 && is_render kind) }
{
    let renders = match kind {
        StreamKind::Render => true,
        StreamKind::Capture | StreamKind::Loopback => false,
    };
    service == 1 && !renders || service == 2 && renders
}
