//! IAudioClient::Initialize: what it is refused for, and what it opens.

ghost use Rattle.std.specs.Prelude.{◌≡◌, ◌<◌, [], IfErr, IfOk, IfSome, None, Some, if◌then◌else◌, is_ok, is_some};
ghost use Rattle.std.specs.Prelude.{length, nat_le, slice_get, slice_set};
ghost use Rattle.std.specs.Option.{option_map};
ghost use Rattle.std.specs.List.{position, position_or_len};
ghost use Rattle.wave_format.specs.Format.{IsValid};
ghost use Rattle.reply_payload.specs.Answers.{code_of, payload_of};
ghost use Rattle.service_book.specs.Openings.{opening_plan};
ghost use Rattle.service_board.specs.Does.{AnyData, Does};
ghost use Rattle.service_board.specs.InOrder.{InOrder};
ghost use Rattle.service_board.specs.Openings.{Enters, IsFresh, IsNewStream, Plans, is_above, new_entry};
ghost use Rattle.service_board.specs.Openings.{with_scratch};
ghost use Rattle.service_board.specs.declared.board.Seat.{Seat};

use crate::{Board, NewStream, Seat};
use buffer_ring::EngineSide;
use ca_base::limits::MAX_LEVEL;
use ca_base::{ClientNo, EndpointNo, Gate, Hr, Reason, SessionNo};
use device_io::Devices;
use period_engine::{Block, StreamEntry};
use reply_payload::Payload;
use service_book::{Opening, OpeningPlan};
use stream_entries::{claim_endpoint, disconnect};

/// The entry of the stream that is opened, in a session, with its store.
fn entry_of<E>(x: &Opening, plan: &OpeningPlan, session: SessionNo, store: E) -> StreamEntry<E>
    requires { IsValid plan.now.format }
    ensures { result ≡ new_entry x.now plan.now session store }
{
    StreamEntry {
        client: x.client,
        endpoint: plan.endpoint,
        kind: plan.kind,
        exclusive: plan.exclusive,
        event: plan.event,
        channels: plan.format.channels,
        rate: plan.format.rate,
        buffer: plan.sizes.buffer,
        period: plan.sizes.period,
        store,
        room: plan.sizes.words,
        latency: plan.sizes.latency,
        session,
        gate: Gate::Open,
        running: false,
        picked: 0,
        position: 0,
        offered: 0,
        ever: 0,
        after_gap: false,
        gains: [MAX_LEVEL; 4],
    }
}

/// Gives the seat at this place other scratch, if there is some.
fn put_block(seats: &mut [Seat], at: usize, block: Option<Block>)
    requires { at < length seats.old }
    ensures { (seat : Seat) → slice_get seats.old at ≡ Some seat →
        seats.new ≡ slice_set seats.old at (with_scratch block seat) }
{
    if let Some(block) = block {
        seats[at].block = block;
    }
}

impl<D: Devices, E: EngineSide> Board<D, E> {
    /// The place of the first entry of a greater client number.
    fn first_above(&self, client: ClientNo) -> Option<usize>
        ensures { result ≡ position (is_above client.0) self.now.entries.items }
    {
        self.entries
            .iter()
            .position(|entry| client.0 < entry.client.0)
    }

    /// The place in the entries for a new client: that of the first one of a greater number, or their end.
    fn new_place(&self, client: ClientNo) -> usize
        ensures { result ≡ position_or_len (is_above client.0) self.now.entries.items }
    {
        match self.first_above(client) {
            Some(at) => at,
            None => self.entries.len(),
        }
    }

    /// What an Initialize opens, and the store that it needs: one of `words` words for streams of its kind. All rows
    /// are looked at but that of memory, and a refusal is the call's.
    pub fn plan_initialize(&self, x: &Opening) -> Result<OpeningPlan, Hr>
        requires order { InOrder E.state self.now }
        ensures refused { IfErr result (λ code.
            Does D.faults D.told E.moves None AnyData self.now self.now (opening_plan x.now) code []) }
        ensures planned { IfOk result (Plans x.now self.now) }
    {
        let Some(from) = self.book.connection_place(x.conn) else {
            return Err(Hr::E_HANDLE);
        };
        self.runs()?;
        let place = self.valid_endpoint(x.conn, x.client)?;
        if self.entry_place(x.client).is_some() {
            return Err(Hr::ALREADY_INITIALIZED);
        }
        let endpoint = self.book.endpoint(place);
        let format = x.check(endpoint)?;
        let claim = claim_endpoint(&self.entries, endpoint, x.is_exclusive());
        if let Some(code) = claim.refusal() {
            return Err(code);
        }
        let key = x.session_key(&self.book.connections[from], endpoint.no);
        self.book.sessions.check_join(&key)?;
        let kind = x.kind_on(endpoint.flow);
        let sizes = x.sizes(kind, format.rate);
        Ok(OpeningPlan {
            endpoint: endpoint.no,
            format,
            kind,
            exclusive: x.is_exclusive(),
            takes_over: claim.is_takeover(),
            event: x.is_event_driven(),
            sizes,
            scratch: self.scratch_for(place, sizes.period),
            key,
        })
    }

    /// The frames that the scratch of the endpoint at this place is to have for periods of `frames` frames, if it has
    /// fewer.
    fn scratch_for(&self, place: usize, frames: u32) -> Option<u32>
        requires { place < length self.now.seats.items }
        ensures { (seat : Seat) → slice_get self.now.seats.items place ≡ Some seat →
            result ≡ (if nat_le frames seat.block.frames then None else Some frames) }
    {
        if frames <= self.seats[place].block.frames() {
            None
        } else {
            Some(frames)
        }
    }

    /// Opens the stream that was planned, in its store, and answers its session's number (IAudioClient::Initialize,
    /// IAudioSessionControl2). The streams that it takes the endpoint from are closed before it. Nothing was made if
    /// memory ran out.
    ///
    /// Errors: E_OUTOFMEMORY without a store, and the board is as before.
    pub fn initialize(
        &mut self,
        x: &Opening,
        plan: &OpeningPlan,
        made: Option<NewStream<E>>,
    ) -> Result<Payload, Hr>
        requires order { InOrder E.state self.old }
        requires planned { Plans x.now self.old plan.now }
        requires made { IfSome made (IsNewStream E.state plan.now) }
        ensures opens { is_ok result ≡ is_some made }
        ensures does { Does D.faults D.told E.moves (option_map (λ m. m.store) made) (IsFresh x.now.client.0)
            self.old self.new (opening_plan x.now) (code_of result) (payload_of result) }
        ensures order { InOrder E.state self.new }
        ensures enters { IfOk result (λ p. Enters E.moves x.now plan.now (option_map (λ m. m.store) made)
            self.old.entries.items self.new.entries.items) }
        ensures stays { IfErr result (λ code. self.new ≡ self.old) }
    {
        let Some(NewStream { store, block }) = made else {
            return Err(Hr::E_OUTOFMEMORY);
        };
        let Some(seat) = self.book.endpoint_place(plan.endpoint) else {
            unreachable!();
        };
        put_block(&mut self.seats, seat, block);
        disconnect(
            &mut self.entries,
            plan.takes_over,
            Some(plan.endpoint),
            Reason::Override,
        );
        let session = self.book.join(x, plan);
        let at = self.new_place(x.client);
        let entry = entry_of(x, plan, session, store);
        match self.entries.insert(at, entry) {
            Ok(()) => Ok(Payload::Long(session.0)),
            Err(_) => unreachable!(),
        }
    }
}
