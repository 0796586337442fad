//! Control calls of a client's open stream (IAudioClient, IAudioClock).

ghost use Rattle.std.specs.Prelude.{◌≡◌, ◌+◌, ◌==◌, ◌&&◌, ◌≤◌, if◌then◌else◌, None};
ghost use Rattle.ca_base.specs.declared.ids.Gate.TheVariants as gate;
ghost use Rattle.ca_machine.specs.Streams.{get_buffer_size_plan, get_stream_latency_plan, get_position_plan};
ghost use Rattle.ca_machine.specs.Streams.{get_service_plan, position_of, reset_plan, start_plan, stop_plan};
ghost use Rattle.ca_base.specs.declared.limits.TheConstants.{MAX_STORE_WORDS};
ghost use Rattle.ca_stage.specs.Stage.{BufferData, is_render};
ghost use Rattle.period_engine.specs.Entries.{IsRested, stream_with};
ghost use Rattle.reply_payload.specs.Answers.{code_of, payload_of};
ghost use Rattle.service_board.specs.Does.{AnyData, Does};
ghost use Rattle.service_board.specs.InOrder.{InOrder};
ghost use Rattle.service_board.specs.StreamCalls.{Empties, IsKnown};

use crate::Board;
use buffer_ring::EngineSide;
use ca_base::{ClientNo, ConnNo, Hr, StreamKind};
use ca_machine::Client;
use device_io::Devices;
use period_engine::StreamEntry;
use reply_payload::Payload;
use service_book::{is_of_other_kind, is_service};

/// How many words of a stream's store come and go at once: that of a frame, or those of a packet.
fn word_unit<E>(entry: &StreamEntry<E>) -> u32
    requires { entry.now.period + 1 ≤ MAX_STORE_WORDS }
    ensures { result ≡ (if is_render entry.now.kind then 1 else entry.now.period + 1) }
{
    match entry.kind {
        StreamKind::Render => 1,
        StreamKind::Capture | StreamKind::Loopback => entry.period + 1,
    }
}

/// The position of a stream: the frames rendered since the last Reset, or those offered since then to one that records.
fn position_of<E>(entry: &StreamEntry<E>) -> u64
    ensures { (d : BufferData) → result ≡ position_of (stream_with d entry.now) }
{
    match entry.kind {
        StreamKind::Render => entry.position,
        StreamKind::Capture | StreamKind::Loopback => entry.offered,
    }
}

/// Throws away what is pending in a stream's store, and its position. Whether there was something to throw away.
fn empty<E: EngineSide>(entry: &mut StreamEntry<E>) -> bool
    requires rested { IsRested E.state entry.old }
    requires open { entry.old.gate ≡ gate.Open }
    requires some { 1 ≤ entry.old.period }
    requires most { entry.old.period + 1 ≤ MAX_STORE_WORDS }
    ensures empties { Empties E.moves result entry.old entry.new }
    ensures rested { IsRested E.state entry.new }
    ensures back { entry.new.position ≤ entry.old.position }
    ensures ever { entry.new.ever ≡ entry.old.ever }
{
    let unit = word_unit(entry);
    let whole = entry.store.held() / unit;
    if whole == 0 && position_of(entry) == 0 {
        return false;
    }
    entry.store.retire(whole * unit);
    entry.position = 0;
    entry.offered = 0;
    entry.after_gap = false;
    true
}

/// Whether a stream is driven by events, and its client has set no handle.
fn lacks_handle<E>(entry: &StreamEntry<E>, client: &Client) -> bool
    ensures { result ≡ (entry.now.event && client.now.handle == 0) }
{
    entry.event && client.handle == 0
}

impl<D: Devices, E: EngineSide> Board<D, E> {
    /// IAudioClient::GetBufferSize: the frames of the buffer.
    pub fn get_buffer_size(&self, conn: ConnNo, client: ClientNo) -> Result<Payload, Hr>
        requires order { InOrder E.state self.now }
        ensures does { Does D.faults D.told E.moves None AnyData self.now self.now
            (λ st. get_buffer_size_plan st conn.0 client.0) (code_of result) (payload_of result) }
    {
        let at = self.open_stream(conn, client)?;
        Ok(Payload::Number(self.entries[at].buffer))
    }

    /// IAudioClient::GetStreamLatency: the latency, in units of 100 ns.
    pub fn get_stream_latency(&self, conn: ConnNo, client: ClientNo) -> Result<Payload, Hr>
        requires order { InOrder E.state self.now }
        ensures does { Does D.faults D.told E.moves None AnyData self.now self.now
            (λ st. get_stream_latency_plan st conn.0 client.0) (code_of result) (payload_of result) }
    {
        let at = self.open_stream(conn, client)?;
        Ok(Payload::Long(self.entries[at].latency))
    }

    /// IAudioClock::GetPosition: the frames rendered since the last Reset, or those offered since then to a stream that
    /// records; and the frames a second.
    pub fn get_position(&self, conn: ConnNo, client: ClientNo) -> Result<Payload, Hr>
        requires order { InOrder E.state self.now }
        ensures does { Does D.faults D.told E.moves None AnyData self.now self.now
            (λ st. get_position_plan st conn.0 client.0) (code_of result) (payload_of result) }
    {
        let at = self.open_stream(conn, client)?;
        let entry = &self.entries[at];
        Ok(Payload::Longs(position_of(entry), entry.rate as u64))
    }

    /// IAudioClient::GetService: E_NOINTERFACE for a service that isn't listed, AUDCLNT_E_WRONG_ENDPOINT_TYPE for one
    /// of a stream of another kind.
    pub fn get_service(&self, conn: ConnNo, client: ClientNo, service: u32) -> Result<Payload, Hr>
        requires order { InOrder E.state self.now }
        ensures does { Does D.faults D.told E.moves None AnyData self.now self.now
            (λ st. get_service_plan st conn.0 client.0 service) (code_of result) (payload_of result) }
    {
        let at = self.open_stream(conn, client)?;
        if !is_service(service) {
            return Err(Hr::E_NOINTERFACE);
        }
        if is_of_other_kind(service, self.entries[at].kind) {
            return Err(Hr::WRONG_ENDPOINT_TYPE);
        }
        Ok(Payload::Nothing)
    }

    /// IAudioClient::Start.
    ///
    /// Errors: AUDCLNT_E_NOT_STOPPED if the stream runs, AUDCLNT_E_EVENTHANDLE_NOT_SET if it is driven by events and its
    /// client set no handle.
    pub fn start(&mut self, conn: ConnNo, client: ClientNo) -> Result<Payload, Hr>
        requires order { InOrder E.state self.old }
        ensures does { Does D.faults D.told E.moves None AnyData self.old self.new
            (λ st. start_plan st conn.0 client.0) (code_of result) (payload_of result) }
        ensures order { InOrder E.state self.new }
    {
        let place = self.control_client(conn, client)?;
        let at = self.open_stream(conn, client)?;
        if self.entries[at].running {
            return Err(Hr::NOT_STOPPED);
        }
        if lacks_handle(&self.entries[at], &self.book.clients[place]) {
            return Err(Hr::EVENTHANDLE_NOT_SET);
        }
        self.entries[at].running = true;
        Ok(Payload::Nothing)
    }

    /// IAudioClient::Stop: S_FALSE for a stream that doesn't run.
    pub fn stop(&mut self, conn: ConnNo, client: ClientNo) -> Result<Payload, Hr>
        requires order { InOrder E.state self.old }
        ensures does { Does D.faults D.told E.moves None AnyData self.old self.new
            (λ st. stop_plan st conn.0 client.0) (code_of result) (payload_of result) }
        ensures order { InOrder E.state self.new }
    {
        let at = self.open_stream(conn, client)?;
        if !self.entries[at].running {
            return Err(Hr::S_FALSE);
        }
        self.entries[at].running = false;
        Ok(Payload::Nothing)
    }

    /// IAudioClient::Reset of a stream that the caller says is leased or not: what is pending is thrown away, and the
    /// position is 0. S_FALSE if there is nothing to throw away.
    pub fn reset(&mut self, conn: ConnNo, client: ClientNo, has_lease: bool) -> Result<Payload, Hr>
        requires order { InOrder E.state self.old }
        ensures does { Does D.faults D.told E.moves None (IsKnown client.0 has_lease self.old.entries.items)
            self.old self.new (λ st. reset_plan st conn.0 client.0) (code_of result) (payload_of result) }
        ensures order { InOrder E.state self.new }
    {
        let at = self.open_stream(conn, client)?;
        if self.entries[at].running {
            return Err(Hr::NOT_STOPPED);
        }
        if has_lease {
            return Err(Hr::BUFFER_OPERATION_PENDING);
        }
        if !empty(&mut self.entries[at]) {
            return Err(Hr::S_FALSE);
        }
        Ok(Payload::Nothing)
    }
}
