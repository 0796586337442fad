//! How events are told, and what is told of them.

ghost use Rattle.std.specs.Prelude.{◌≡◌, true};
ghost use Rattle.ca_machine.specs.Notices.{noted};
ghost use Rattle.service_book.specs.Telling.{setting_notices_by, step_notices};
ghost use Rattle.service_board.specs.Telling.{has_failed};
ghost use Rattle.service_core.specs.Service.{IsCore, core_view};
ghost use Rattle.service_core.specs.Telling.{after_telling, call_telling, telling_of};
ghost use Rattle.service_core.specs.declared.tally.Tally.{Tally as Counts};

use crate::{BothEnds, Core};
use buffer_ring::FrameStore;
use ca_base::{EndpointNo, Hr, SessionNo};
use ca_model::{Call, Event};
use device_io::Devices;
use reply_payload::Payload;
use service_board::Board;
use step_notices::Noted;

/// How an event is told.
#[derive(Clone, Copy, Debug, PartialEq, Eq)]
pub enum Telling {
    /// It changes nothing that notices tell of.
    Nothing,
    /// What is noted before it is compared with what is noted after it.
    Compared,
    /// It sets this session.
    Setting(SessionNo),
    /// A period of this endpoint: it is told if the device failed.
    Period(EndpointNo),
}

/// How a call is told.
fn call_telling(call: &Call) -> Telling
    ensures { result ≡ call_telling call.now }
{
    match call {
        Call::Release { .. } | Call::Initialize { .. } | Call::Start { .. } | Call::Stop { .. } =>
            Telling::Compared,
        Call::SetMaster { session, .. }
        | Call::SetMute { session, .. }
        | Call::SetChannel { session, .. }
        | Call::SetDisplayName { session, .. }
        | Call::SetIconPath { session, .. }
        | Call::SetGrouping { session, .. } => Telling::Setting(*session),
        _ => Telling::Nothing,
    }
}

/// How an event is told.
pub fn telling_of(ev: &Event) -> Telling
    ensures { result ≡ telling_of ev.now }
{
    match ev {
        Event::Open { .. } => Telling::Nothing,
        Event::Call { call, .. } => call_telling(call),
        Event::Period { endpoint } => Telling::Period(*endpoint),
        Event::Hangup { .. } | Event::Device { .. } | Event::Shutdown => Telling::Compared,
    }
}

/// Whether a period's answer says that its device failed.
pub fn has_failed(answer: &Result<Payload, Hr>) -> bool
    ensures { result ≡ has_failed answer.now }
{
    match answer {
        Ok(payload) => payload.is_failure(),
        Err(_) => false,
    }
}

/// Tells a period whose device failed, by what the board has noted before it. What is noted after it stands on this
/// function's stack alone.
#[cold]
#[inline(never)]
fn tell_failed<D: Devices, F: FrameStore>(board: &mut Board<D, BothEnds<F>>, ev: &Event)
    requires { IsCore F.state F.kept board.old }
    ensures core { IsCore F.state F.kept board.new }
    ensures told { (counts : Counts) → core_view F.kept board.new counts
        ≡ after_telling true
        (step_notices board.old.failed ev.now (noted (core_view F.kept board.old counts).state))
        (core_view F.kept board.old counts) }
{
    board.tell_failed(ev);
}

/// Tells a period, if its device failed.
pub fn tell_failure<D: Devices, F: FrameStore>(
    board: &mut Board<D, BothEnds<F>>,
    failed: bool,
    ev: &Event,
)
    requires { IsCore F.state F.kept board.old }
    ensures core { IsCore F.state F.kept board.new }
    ensures told { (counts : Counts) → core_view F.kept board.new counts
        ≡ after_telling failed
        (step_notices board.old.failed ev.now (noted (core_view F.kept board.old counts).state))
        (core_view F.kept board.old counts) }
{
    if failed {
        tell_failed(board, ev);
    }
}

impl<D: Devices, F: FrameStore> Core<D, F> {
    /// What is noted of the service.
    pub(crate) fn noted(&self) -> Noted
        ensures { result ≡ noted self.now.state }
    {
        self.board.noted()
    }

    /// Tells an event, if it was granted, by what was noted before it.
    pub(crate) fn tell(&mut self, granted: bool, before: &Noted, ev: &Event)
        ensures { self.new
            ≡ after_telling granted (step_notices before.now ev.now (noted self.old.state)) self.old }
    {
        if granted {
            self.board.tell(before, ev);
        }
    }

    /// Tells a call that set a session, if it was granted, by the volume that the session had before it.
    pub(crate) fn tell_setting(&mut self, granted: bool, call: &Call, was: u64)
        ensures { self.new ≡ after_telling granted (setting_notices_by call.now was self.old.state) self.old }
    {
        if granted {
            self.board.tell_setting(call, was);
        }
    }
}
