//! The service as a desk: it answers each event as the machine does.

ghost use Rattle.std.specs.Prelude.{◌≡◌, ◌≤◌, [], length, IsOk, OnErr, OnOk};
ghost use Rattle.ca_machine.specs.Data.{capture_get_buffer_plan};
ghost use Rattle.ca_machine.specs.Registrations.{take_notices_plan};
ghost use Rattle.ca_machine.specs.Step.{call_plan, plan};
ghost use Rattle.ca_machine.specs.View.{AnswersEvent};
ghost use Rattle.ca_model.specs.Replies.{FitsFrame, IsSameReply};
ghost use Rattle.reply_payload.specs.Answers.{code_of, payload_of, told_code};
ghost use Rattle.reply_payload.specs.declared.payload.TheConstants.{REPLY_ROOM};
ghost use Rattle.service_core.specs.Service.{AnswersPlan, HasHead};
ghost use Rattle.service_core.specs.Telling.{IsNoPeriod};

use crate::Core;
use crate::data::capture_get_buffer;
use buffer_ring::FrameStore;
use ca_base::values::{KIND_CALL, KIND_DEVICE, KIND_HANGUP, KIND_OPEN, KIND_PERIOD, KIND_SHUTDOWN};
use ca_base::{Bytes, ClientNo, ConnNo, Hr, NoMemory};
use ca_model::{Call, Event, Reply};
use call_wire::Desk;
use device_io::Devices;
use reply_payload::{Payload, REPLY_ROOM};

/// Begins the reply to an event: its kind, its connection and its tag.
fn begin(ev: &Event, out: &mut Reply)
    ensures head { HasHead ev.now out.new }
    ensures payload { out.new.payload ≡ out.old.payload }
{
    out.conn = 0;
    out.tag = 0;
    match ev {
        Event::Open { conn, .. } => {
            out.kind = KIND_OPEN;
            out.conn = conn.0;
        }
        Event::Hangup { conn } => {
            out.kind = KIND_HANGUP;
            out.conn = conn.0;
        }
        Event::Call { conn, tag, .. } => {
            out.kind = KIND_CALL;
            out.conn = conn.0;
            out.tag = *tag;
        }
        Event::Period { .. } => out.kind = KIND_PERIOD,
        Event::Device { .. } => out.kind = KIND_DEVICE,
        Event::Shutdown => out.kind = KIND_SHUTDOWN,
    }
}

/// Puts what an event is answered into a payload, and answers its code.
#[inline(always)]
pub fn put(answer: Result<Payload, Hr>, payload: &mut Bytes) -> Hr
    requires empty { payload.old.list ≡ [] }
    requires room { REPLY_ROOM ≤ payload.old.capacity }
    ensures code { result ≡ code_of answer }
    ensures payload { payload.new.list ≡ payload_of answer }
    ensures within { length payload.new.list ≤ REPLY_ROOM }
    ensures keeps { payload.old.capacity ≤ payload.new.capacity }
{
    match answer {
        Ok(answer) => {
            answer.put(payload);
            answer.code()
        }
        Err(code) => code,
    }
}

/// The code of a call that puts its payload itself.
fn told_code(answer: Result<(), Hr>) -> Hr
    ensures { result ≡ told_code answer }
{
    match answer {
        Ok(()) => Hr::S_OK,
        Err(code) => code,
    }
}

impl<D: Devices, F: FrameStore> Core<D, F> {
    /// The notices that a connection takes, at most `max`: a call that waits for one is answered what there is.
    fn take_notices(&mut self, conn: ConnNo, max: u32, payload: &mut Bytes) -> Hr
        requires empty { payload.old.list ≡ [] }
        requires room { REPLY_ROOM ≤ payload.old.capacity }
        ensures answers { AnswersPlan D.faults D.told (λ st. take_notices_plan st conn.0 max) result payload.new.list
            self.old self.new }
        ensures within { length payload.new.list ≤ REPLY_ROOM }
        ensures keeps { payload.old.capacity ≤ payload.new.capacity }
    {
        told_code(self.board.take_notices(conn, max, payload))
    }

    /// The first packet of a client's stream, which is leased (IAudioCaptureClient::GetBuffer).
    fn capture_get_buffer(&mut self, conn: ConnNo, client: ClientNo, payload: &mut Bytes) -> Hr
        requires empty { payload.old.list ≡ [] }
        requires room { REPLY_ROOM ≤ payload.old.capacity }
        ensures answers { AnswersPlan D.faults D.told (λ st. capture_get_buffer_plan st conn.0 client.0) result
            payload.new.list self.old self.new }
        ensures within { length payload.new.list ≤ REPLY_ROOM }
        ensures keeps { payload.old.capacity ≤ payload.new.capacity }
    {
        told_code(capture_get_buffer(&mut self.board, conn, client, payload))
    }

    /// Answers a call: its code, and its payload.
    #[inline(always)]
    pub(crate) fn answer_call(&mut self, conn: ConnNo, call: &Call, payload: &mut Bytes) -> Hr
        requires empty { payload.old.list ≡ [] }
        requires room { REPLY_ROOM ≤ payload.old.capacity }
        ensures answers { AnswersPlan D.faults D.told (λ st. call_plan st conn.0 call.now) result payload.new.list
            self.old self.new }
        ensures within { length payload.new.list ≤ REPLY_ROOM }
        ensures keeps { payload.old.capacity ≤ payload.new.capacity }
    {
        match call {
            Call::EnumSessions { endpoint } => {
                told_code(self.board.enum_sessions(conn, *endpoint, payload))
            }
            Call::EnumEndpoints { flow, mask } => {
                told_code(self.board.enum_endpoints(conn, *flow, *mask, payload))
            }
            Call::DeviceInfo { endpoint } => {
                told_code(self.board.device_info(conn, *endpoint, payload))
            }
            Call::TakeNotices { max } | Call::AwaitNotices { max } => {
                self.take_notices(conn, *max, payload)
            }
            Call::CaptureGetBuffer { client } => self.capture_get_buffer(conn, *client, payload),
            Call::GetSession { session } => {
                told_code(self.board.get_session(conn, *session, payload))
            }
            _ => put(self.call(conn, call), payload),
        }
    }

    /// Answers an event that is no period: its code, and its payload.
    #[inline(always)]
    pub(crate) fn answer(&mut self, ev: &Event, payload: &mut Bytes) -> Hr
        requires other { IsNoPeriod ev.now }
        requires empty { payload.old.list ≡ [] }
        requires room { REPLY_ROOM ≤ payload.old.capacity }
        ensures answers { AnswersPlan D.faults D.told (λ st. plan st ev.now) result payload.new.list
            self.old self.new }
        ensures within { length payload.new.list ≤ REPLY_ROOM }
        ensures keeps { payload.old.capacity ≤ payload.new.capacity }
    {
        match ev {
            Event::Open { conn, pid, name } => put(self.open(*conn, *pid, name), payload),
            Event::Hangup { conn } => put(self.hangup(*conn), payload),
            Event::Call { conn, call, .. } => self.answer_call(*conn, call, payload),
            Event::Device { event } => put(self.device(event), payload),
            Event::Shutdown => put(self.shutdown(), payload),
            Event::Period { .. } => unreachable!(),
        }
    }
}

impl<D: Devices, F: FrameStore> Core<D, F> {
    /// How many bytes the payload of the reply to an event has at most: as many whatever the event is.
    #[inline(always)]
    pub fn reply_room(&self, _ev: &Event) -> usize
        ensures { result ≡ REPLY_ROOM }
    {
        REPLY_ROOM
    }

    /// Answers one event into `out`, whose payload is empty before, by the step of the machine. It answers Ok if the
    /// payload's capacity is at least `reply_room`. After `NoMemory` the event wasn't taken, and the reply is as
    /// before.
    #[inline(always)]
    pub fn step(&mut self, ev: &Event, out: &mut Reply) -> Result<(), NoMemory>
        requires { out.old.payload.list ≡ [] }
        ensures step { OnOk result (AnswersEvent D.faults D.told self.old ev.now out.new self.new) }
        ensures within { OnOk result (length out.new.payload.list ≤ REPLY_ROOM) }
        ensures frame { OnOk result (FitsFrame out.new) }
        ensures keeps { out.old.payload.capacity ≤ out.new.payload.capacity }
        ensures fits { REPLY_ROOM ≤ out.old.payload.capacity → IsOk result }
        ensures stays { OnErr result (self.new ≡ self.old) }
        ensures err { OnErr result (IsSameReply out.old out.new) }
    {
        out.payload.reserve(REPLY_ROOM)?;
        begin(ev, out);
        out.result = self.answer_and_tell(ev, &mut out.payload);
        Ok(())
    }
}

impl<D: Devices, F: FrameStore> Desk for Core<D, F> {
    ghost answers = { λ old event reply new. AnswersEvent D.faults D.told old event reply new };

    ghost stays = { λ old new. new ≡ old };

    ghost reply_room = { λ _ _. REPLY_ROOM };

    fn ask(&mut self, ev: &Event, out: &mut Reply) -> Result<(), NoMemory> {
        self.step(ev, out)
    }
}
