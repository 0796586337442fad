//! An event as the step of the machine: it is answered, and then it is told.

ghost use Rattle.std.specs.Prelude.{◌≡◌, ◌≤◌, ◌==◌, [], length};
ghost use Rattle.ca_base.specs.declared.codes.TheConstants.Hr as hr;
ghost use Rattle.reply_payload.specs.declared.payload.TheConstants.{REPLY_ROOM};
ghost use Rattle.service_core.specs.Service.{AnswersStep};
ghost use Rattle.service_core.specs.Telling.{telling_of};
ghost use Rattle.service_core.specs.declared.telling.Telling.TheVariants as telling;

use crate::Core;
use crate::counting::counted_period;
use crate::desk::put;
use crate::telling::{Telling, has_failed, tell_failure, telling_of};
use buffer_ring::FrameStore;
use ca_base::{Bytes, EndpointNo, Hr, SessionNo};
use ca_model::Event;
use device_io::Devices;
use step_notices::laws::{same_devices_are_quiet, same_sessions_are_quiet};

/// Whether an event with this code was granted.
fn is_granted(code: Hr) -> bool
    ensures { result ≡ (code.0 == hr.S_OK.0) }
{
    code.0 == Hr::S_OK.0
}

impl<D: Devices, F: FrameStore> Core<D, F> {
    /// Answers an event that is told by what is noted before it and after it, and tells it if it was granted.
    #[inline(never)]
    fn step_compared(&mut self, ev: &Event, payload: &mut Bytes) -> Hr
        requires compared { telling_of ev.now ≡ telling.Compared }
        requires empty { payload.old.list ≡ [] }
        requires room { REPLY_ROOM ≤ payload.old.capacity }
        ensures answers { AnswersStep D.faults D.told ev.now result payload.new.list self.old self.new }
        ensures within { length payload.new.list ≤ REPLY_ROOM }
        ensures keeps { payload.old.capacity ≤ payload.new.capacity }
    {
        let before = self.noted();
        let code = self.answer(ev, payload);
        self.tell(is_granted(code), &before, ev);
        code
    }

    /// Answers a call that sets a session, and tells it if it was granted: nothing else that is noted changes.
    #[inline(never)]
    fn step_setting(&mut self, ev: &Event, session: SessionNo, payload: &mut Bytes) -> Hr
        requires sets { telling_of ev.now ≡ telling.Setting session }
        requires empty { payload.old.list ≡ [] }
        requires room { REPLY_ROOM ≤ payload.old.capacity }
        ensures answers { AnswersStep D.faults D.told ev.now result payload.new.list self.old self.new }
        ensures within { length payload.new.list ≤ REPLY_ROOM }
        ensures keeps { payload.old.capacity ≤ payload.new.capacity }
    {
        same_devices_are_quiet();
        same_sessions_are_quiet();
        let Event::Call { conn, call, .. } = ev else {
            unreachable!();
        };
        let was = self.board.book.volume_of(session);
        let code = self.answer_call(*conn, call, payload);
        self.tell_setting(is_granted(code), call, was);
        code
    }

    /// Answers a period of an endpoint, and tells it if the device failed.
    fn step_period(&mut self, ev: &Event, e: EndpointNo, payload: &mut Bytes) -> Hr
        requires period { telling_of ev.now ≡ telling.Period e }
        requires empty { payload.old.list ≡ [] }
        requires room { REPLY_ROOM ≤ payload.old.capacity }
        ensures answers { AnswersStep D.faults D.told ev.now result payload.new.list self.old self.new }
        ensures within { length payload.new.list ≤ REPLY_ROOM }
        ensures keeps { payload.old.capacity ≤ payload.new.capacity }
    {
        let (answer, taken) = counted_period(&mut self.board, e);
        self.tally.take(&answer, taken);
        tell_failure(&mut self.board, has_failed(&answer), ev);
        put(answer, payload)
    }

    /// Answers an event: its code, and its payload; and tells it to the connections that registered for its notices.
    pub(crate) fn answer_and_tell(&mut self, ev: &Event, payload: &mut Bytes) -> Hr
        requires empty { payload.old.list ≡ [] }
        requires room { REPLY_ROOM ≤ payload.old.capacity }
        ensures answers { AnswersStep D.faults D.told ev.now result payload.new.list self.old self.new }
        ensures within { length payload.new.list ≤ REPLY_ROOM }
        ensures keeps { payload.old.capacity ≤ payload.new.capacity }
    {
        match telling_of(ev) {
            Telling::Nothing => self.answer(ev, payload),
            Telling::Compared => self.step_compared(ev, payload),
            Telling::Setting(session) => self.step_setting(ev, session, payload),
            Telling::Period(e) => self.step_period(ev, e, payload),
        }
    }
}
