//! The gains of a stream, by its levels and its session.

ghost use Rattle.std.specs.Prelude.{◌≡◌, ◌<◌, ◌≤◌, IfSome, Some};
ghost use Rattle.std.specs.List.{All};
ghost use Rattle.std.specs.Option.{option_copied};
ghost use Rattle.volume_stack.specs.Scaling.{unit_gain};
ghost use Rattle.session_manager.specs.Book.{IsSession};
ghost use Rattle.ca_machine.specs.Periods.{gain_in};
ghost use Rattle.service_book.specs.Gains.{gains_if};

use ca_base::limits::MAX_LEVEL;
use session_manager::Session;
use volume_stack::{Gains, stream_gain};

/// The gain of a channel of a stream with these levels, in a session.
fn gain_in(levels: &[u32; 4], session: &Session, channel: usize) -> u32
    requires channel { channel < 4 }
    requires levels { All (λ level. level ≤ unit_gain) levels.now }
    requires session { IsSession session.now }
    ensures gain { result ≡ gain_in levels.now (Some session.now) channel }
    ensures within { result ≤ unit_gain }
{
    stream_gain(&Gains {
        stream: levels[channel],
        session: session.channels[channel],
        master: session.level,
        duck: MAX_LEVEL,
        mute: session.mute,
    })
}

/// The gains of the channels of a stream: those of its levels and its session, 0 if the session isn't there; an
/// exclusive stream sounds as it is.
pub fn gains_if(exclusive: bool, levels: &[u32; 4], session: Option<&Session>) -> [u32; 4]
    requires levels { All (λ level. level ≤ unit_gain) levels.now }
    requires session { IfSome session (λ s. IsSession s.now) }
    ensures gains { result ≡ gains_if exclusive levels.now (option_copied session.entry) }
    ensures within { All (λ gain. gain ≤ unit_gain) result }
{
    if exclusive {
        return [MAX_LEVEL; 4];
    }
    match session {
        Some(session) => [
            gain_in(levels, session, 0),
            gain_in(levels, session, 1),
            gain_in(levels, session, 2),
            gain_in(levels, session, 3),
        ],
        None => [0; 4],
    }
}
