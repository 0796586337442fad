//! Events on a service.

ghost use Rattle.ca_machine.specs.Clients.{hangup_plan, open_plan, release_plan};
ghost use Rattle.ca_machine.specs.Data.{capture_release_buffer_plan, get_buffer_plan, get_current_padding_plan};
ghost use Rattle.ca_machine.specs.Data.{get_next_packet_size_plan, release_buffer_plan};
ghost use Rattle.ca_machine.specs.Devices.{shutdown_plan};
ghost use Rattle.ca_machine.specs.Step.{call_plan, device_plan};
ghost use Rattle.ca_machine.specs.Streams.{reset_plan};
ghost use Rattle.reply_payload.specs.Answers.{code_of, payload_of};
ghost use Rattle.service_book.specs.Openings.{opening_plan};
ghost use Rattle.service_board.specs.Calls.{IsPlainCall, IsSmallCall};
ghost use Rattle.service_core.specs.Service.{AnswersPlan};

use crate::Core;
use crate::counting::{
    counted_device, counted_hangup, counted_initialize, counted_release, counted_reset,
    counted_shutdown,
};
use crate::data::{
    capture_release_buffer, get_buffer, get_current_padding, get_next_packet_size, release_buffer,
};
use buffer_ring::FrameStore;
use ca_base::{ClientNo, ConnNo, Hr, Text};
use ca_model::{Call, DeviceEvent};
use device_io::Devices;
use reply_payload::Payload;
use service_book::Opening;

impl<D: Devices, F: FrameStore> Core<D, F> {
    /// A connection opens.
    pub(crate) fn open(&mut self, conn: ConnNo, process: u32, name: &Text) -> Result<Payload, Hr>
        ensures { AnswersPlan D.faults D.told (λ st. open_plan st conn.0 process name.now)
            (code_of result) (payload_of result) self.old self.new }
    {
        self.board.open(conn, process, name)
    }

    /// A connection hangs up: its clients are released.
    pub(crate) fn hangup(&mut self, conn: ConnNo) -> Result<Payload, Hr>
        ensures { AnswersPlan D.faults D.told (λ st. hangup_plan st conn.0)
            (code_of result) (payload_of result) self.old self.new }
    {
        let (answer, dropped) = counted_hangup(&mut self.board, conn);
        self.tally.add_dropped(dropped);
        answer
    }

    /// A client is released.
    fn release(&mut self, conn: ConnNo, client: ClientNo) -> Result<Payload, Hr>
        ensures { AnswersPlan D.faults D.told (λ st. release_plan st conn.0 client.0)
            (code_of result) (payload_of result) self.old self.new }
    {
        let (answer, dropped) = counted_release(&mut self.board, conn, client);
        self.tally.add_dropped(dropped);
        answer
    }

    /// IAudioClient::Reset.
    fn reset(&mut self, conn: ConnNo, client: ClientNo) -> Result<Payload, Hr>
        ensures { AnswersPlan D.faults D.told (λ st. reset_plan st conn.0 client.0)
            (code_of result) (payload_of result) self.old self.new }
    {
        let (answer, reset) = counted_reset(&mut self.board, conn, client);
        self.tally.add_reset(reset);
        answer
    }

    /// IAudioClient::Initialize.
    fn initialize(&mut self, x: &Opening) -> Result<Payload, Hr>
        ensures { AnswersPlan D.faults D.told (opening_plan x.now) (code_of result) (payload_of result)
            self.old self.new }
    {
        let (answer, dropped) = counted_initialize(&mut self.board, self.alloc, x);
        self.tally.add_dropped(dropped);
        answer
    }

    /// IAudioClient::GetCurrentPadding.
    fn get_current_padding(&mut self, conn: ConnNo, client: ClientNo) -> Result<Payload, Hr>
        ensures { AnswersPlan D.faults D.told (λ st. get_current_padding_plan st conn.0 client.0)
            (code_of result) (payload_of result) self.old self.new }
    {
        get_current_padding(&mut self.board, conn, client)
    }

    /// IAudioRenderClient::GetBuffer.
    fn get_buffer(&mut self, conn: ConnNo, client: ClientNo, frames: u32) -> Result<Payload, Hr>
        ensures { AnswersPlan D.faults D.told (λ st. get_buffer_plan st conn.0 client.0 frames)
            (code_of result) (payload_of result) self.old self.new }
    {
        get_buffer(&mut self.board, conn, client, frames)
    }

    /// IAudioRenderClient::ReleaseBuffer.
    fn release_buffer(
        &mut self,
        conn: ConnNo,
        client: ClientNo,
        frames: u32,
        flags: u32,
        bytes: &[u8],
    ) -> Result<Payload, Hr>
        ensures { AnswersPlan D.faults D.told
            (λ st. release_buffer_plan st conn.0 client.0 frames flags bytes.now)
            (code_of result) (payload_of result) self.old self.new }
    {
        release_buffer(&mut self.board, conn, client, frames, flags, bytes)
    }

    /// IAudioCaptureClient::GetNextPacketSize.
    fn get_next_packet_size(&mut self, conn: ConnNo, client: ClientNo) -> Result<Payload, Hr>
        ensures { AnswersPlan D.faults D.told (λ st. get_next_packet_size_plan st conn.0 client.0)
            (code_of result) (payload_of result) self.old self.new }
    {
        get_next_packet_size(&mut self.board, conn, client)
    }

    /// IAudioCaptureClient::ReleaseBuffer.
    fn capture_release_buffer(
        &mut self,
        conn: ConnNo,
        client: ClientNo,
        frames: u32,
    ) -> Result<Payload, Hr>
        ensures { AnswersPlan D.faults D.told (λ st. capture_release_buffer_plan st conn.0 client.0 frames)
            (code_of result) (payload_of result) self.old self.new }
    {
        capture_release_buffer(&mut self.board, conn, client, frames)
    }

    /// A call that opens no stream, needs nothing of the client's side, gives no frame a fate, and answers a few
    /// bytes.
    fn plain_call(&mut self, conn: ConnNo, call: &Call) -> Result<Payload, Hr>
        requires { IsPlainCall call.now }
        ensures { AnswersPlan D.faults D.told (λ st. call_plan st conn.0 call.now)
            (code_of result) (payload_of result) self.old self.new }
    {
        self.board.plain_call(conn, call)
    }

    /// A call of a connection that answers a few bytes.
    pub(crate) fn call(&mut self, conn: ConnNo, call: &Call) -> Result<Payload, Hr>
        requires { IsSmallCall call.now }
        ensures { AnswersPlan D.faults D.told (λ st. call_plan st conn.0 call.now)
            (code_of result) (payload_of result) self.old self.new }
    {
        match call {
            Call::Release { client } => self.release(conn, *client),
            Call::Reset { client } => self.reset(conn, *client),
            Call::GetCurrentPadding { client } => self.get_current_padding(conn, *client),
            Call::GetBuffer { client, frames } => self.get_buffer(conn, *client, *frames),
            Call::ReleaseBuffer {
                client,
                frames,
                flags,
                bytes,
            } => self.release_buffer(conn, *client, *frames, *flags, bytes.as_slice()),
            Call::GetNextPacketSize { client } => self.get_next_packet_size(conn, *client),
            Call::CaptureReleaseBuffer { client, frames } => {
                self.capture_release_buffer(conn, *client, *frames)
            }
            Call::Initialize {
                client,
                share,
                flags,
                duration,
                period,
                format,
                session,
            } => self.initialize(&Opening {
                conn,
                client: *client,
                share: *share,
                flags: *flags,
                duration: *duration,
                period: *period,
                format: format.as_slice(),
                session: *session,
            }),
            _ => self.plain_call(conn, call),
        }
    }

    /// A device event: streams that lose their device are closed.
    pub(crate) fn device(&mut self, event: &DeviceEvent) -> Result<Payload, Hr>
        ensures { AnswersPlan D.faults D.told (λ st. device_plan st event.now)
            (code_of result) (payload_of result) self.old self.new }
    {
        let (answer, dropped) = counted_device(&mut self.board, self.alloc, event);
        self.tally.add_dropped(dropped);
        answer
    }

    /// The service is shut down: all streams are closed.
    pub(crate) fn shutdown(&mut self) -> Result<Payload, Hr>
        ensures { AnswersPlan D.faults D.told (λ st. shutdown_plan st)
            (code_of result) (payload_of result) self.old self.new }
    {
        let (answer, dropped) = counted_shutdown(&mut self.board);
        self.tally.add_dropped(dropped);
        answer
    }
}
