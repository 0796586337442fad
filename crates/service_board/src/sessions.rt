//! Calls that set a session (IAudioSessionControl2, ISimpleAudioVolume, IChannelAudioVolume).

ghost use Rattle.std.specs.Prelude.{◌≡◌, None};
ghost use Rattle.ca_machine.specs.Sessions.{set_session_plan};
ghost use Rattle.reply_payload.specs.Answers.{code_of, payload_of};
ghost use Rattle.service_board.specs.Does.{AnyData, Does};
ghost use Rattle.service_board.specs.Gains.{changes_gains};
ghost use Rattle.service_board.specs.InOrder.{InOrder};

use crate::Board;
use buffer_ring::EngineSide;
use ca_base::{ConnNo, Hr, SessionNo};
use device_io::Devices;
use reply_payload::Payload;
use session_manager::Change;

/// Whether a change of a session changes what the gains of its streams are made from.
fn changes_gains(change: &Change) -> bool
    ensures { result ≡ changes_gains change.now }
{
    match change {
        Change::Level(_) | Change::Mute(_) | Change::Channel(_, _) => true,
        Change::Display(_) | Change::Icon(_) | Change::Grouping(_) => false,
    }
}

impl<D: Devices, E: EngineSide> Board<D, E> {
    /// Changes a session.
    pub fn set_session(
        &mut self,
        conn: ConnNo,
        session: SessionNo,
        change: &Change,
    ) -> Result<Payload, Hr>
        requires order { InOrder E.state self.old }
        ensures does { Does D.faults D.told E.moves None AnyData self.old self.new
            (λ st. set_session_plan st conn.0 session.0 change.now) (code_of result) (payload_of result) }
        ensures order { InOrder E.state self.new }
    {
        self.connected(conn)?;
        self.book.sessions.set(session, change)?;
        self.book.levels_changed |= changes_gains(change);
        Ok(Payload::Nothing)
    }
}
