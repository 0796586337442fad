//! Control calls by their codes.

ghost use Rattle.std.specs.Prelude.{None};
ghost use Rattle.ca_machine.specs.Step.{call_plan, unlisted_call_plan, unlisted_device_plan};
ghost use Rattle.reply_payload.specs.Answers.{code_of, payload_of};
ghost use Rattle.service_board.specs.Calls.{IsPlainCall, IsSessionCall};
ghost use Rattle.service_board.specs.Does.{AnyData, Does};
ghost use Rattle.service_board.specs.InOrder.{InOrder};

use crate::Board;
use buffer_ring::EngineSide;
use ca_base::{ConnNo, Hr};
use ca_model::Call;
use device_io::Devices;
use reply_payload::Payload;
use session_manager::Change;

impl<D: Devices, E: EngineSide> Board<D, E> {
    /// A call whose code isn't listed.
    fn unlisted_call(&self, conn: ConnNo) -> Result<Payload, Hr>
        ensures { Does D.faults D.told E.moves None AnyData self.now self.now (λ st. unlisted_call_plan st conn.0)
            (code_of result) (payload_of result) }
    {
        self.connected(conn)?;
        Err(Hr::E_NOTIMPL)
    }

    /// A device event whose code isn't listed.
    pub fn unlisted_event(&self) -> Result<Payload, Hr>
        ensures { Does D.faults D.told E.moves None AnyData self.now self.now (λ st. unlisted_device_plan st)
            (code_of result) (payload_of result) }
    {
        self.runs()?;
        Err(Hr::E_NOTIMPL)
    }

    /// A call that changes a session.
    fn session_call(&mut self, conn: ConnNo, call: &Call) -> Result<Payload, Hr>
        requires changes { IsSessionCall call.now }
        requires order { InOrder E.state self.old }
        ensures does { Does D.faults D.told E.moves None AnyData self.old self.new
            (λ st. call_plan st conn.0 call.now) (code_of result) (payload_of result) }
        ensures order { InOrder E.state self.new }
    {
        match call {
            Call::SetMaster { session, level, .. } => {
                self.set_session(conn, *session, &Change::Level(*level))
            }
            Call::SetMute { session, mute, .. } => {
                self.set_session(conn, *session, &Change::Mute(*mute))
            }
            Call::SetChannel {
                session,
                channel,
                level,
                ..
            } => self.set_session(conn, *session, &Change::Channel(*channel, *level)),
            Call::SetDisplayName { session, text, .. } => {
                self.set_session(conn, *session, &Change::Display(*text))
            }
            Call::SetIconPath { session, text, .. } => {
                self.set_session(conn, *session, &Change::Icon(*text))
            }
            Call::SetGrouping {
                session,
                grouping,
                ..
            } => self.set_session(conn, *session, &Change::Grouping(*grouping)),
            _ => unreachable!(),
        }
    }

    /// A call that opens no stream, needs nothing of the client's side, and gives no frame a fate.
    pub fn plain_call(&mut self, conn: ConnNo, call: &Call) -> Result<Payload, Hr>
        requires plain { IsPlainCall call.now }
        requires order { InOrder E.state self.old }
        ensures does { Does D.faults D.told E.moves None AnyData self.old self.new
            (λ st. call_plan st conn.0 call.now) (code_of result) (payload_of result) }
        ensures order { InOrder E.state self.new }
    {
        match call {
            Call::GetDefault { flow, role } => self.get_default(conn, *flow, *role),
            Call::GetDevice { id } => self.get_device(conn, id),
            Call::Activate { endpoint, role } => self.activate(conn, *endpoint, *role),
            Call::GetBufferSize { client } => self.get_buffer_size(conn, *client),
            Call::GetStreamLatency { client } => self.get_stream_latency(conn, *client),
            Call::IsFormatSupported {
                client,
                share,
                format,
            } => self.is_format_supported(conn, *client, *share, format.as_slice()),
            Call::GetMixFormat { client } => self.get_mix_format(conn, *client),
            Call::GetDevicePeriod { client } => self.get_device_period(conn, *client),
            Call::Start { client } => self.start(conn, *client),
            Call::Stop { client } => self.stop(conn, *client),
            Call::SetEventHandle { client, handle } => {
                self.set_event_handle(conn, *client, *handle)
            }
            Call::GetService { client, service } => self.get_service(conn, *client, *service),
            Call::GetPosition { client } => self.get_position(conn, *client),
            Call::GetStreamLevel { client, channel } => {
                self.get_stream_level(conn, *client, *channel)
            }
            Call::SetStreamLevel {
                client,
                channel,
                level,
            } => self.set_stream_level(conn, *client, *channel, *level),
            Call::SetMaster { .. }
            | Call::SetMute { .. }
            | Call::SetChannel { .. }
            | Call::SetDisplayName { .. }
            | Call::SetIconPath { .. }
            | Call::SetGrouping { .. } => self.session_call(conn, call),
            Call::Register { class, subject } => self.register(conn, *class, *subject),
            Call::Unregister { registration } => self.unregister(conn, *registration),
            Call::Other { .. } => self.unlisted_call(conn),
            _ => unreachable!(),
        }
    }
}
