//! A period of an endpoint: what is due is played, or what its device gives is recorded; or the device fails, and the
//! endpoint with it.

ghost use Rattle.std.specs.Prelude.{◌≡◌, ◌&&◌, IfErr, IfOk, None, Some, false};
ghost use Rattle.std.specs.List.{list_any};
ghost use Rattle.ca_base.specs.declared.ids.Flow.TheVariants as flow;
ghost use Rattle.ca_machine.specs.Periods.{period_plan};
ghost use Rattle.reply_payload.specs.Answers.{IsPeriod, code_of, payload_of};
ghost use Rattle.service_board.specs.Does.{AnyData, Does};
ghost use Rattle.period_engine.specs.Entries.{is_recorded};
ghost use Rattle.service_board.specs.Due.{FindsDue, HasFlow, is_capture_flow, is_worn_entry};
ghost use Rattle.service_board.specs.InOrder.{InOrder};
ghost use Rattle.service_board.specs.Lookups.{Says};
ghost use Rattle.service_board.specs.Telling.{NotesFailure};

use crate::Board;
use crate::plays::{close_failed, play};
use buffer_ring::EngineSide;
use ca_base::limits::{MAX_COUNT, MAX_LEVEL};
use ca_base::values::{STATE_ACTIVE, STATE_NOTPRESENT};
use ca_base::{EndpointNo, Failed, Flow, Hr};
use ca_machine::Client;
use device_io::Devices;
use device_registry::Endpoint;
use period_engine::{StreamEntry, feed_capture, feed_loopback, retire};
use reply_payload::Payload;
use stream_entries::{period_frames, set_events, set_recorded_events};

/// The gain of each channel of an endpoint: none changes anything.
const END_GAINS: [u32; 4] = [MAX_LEVEL; 4];

/// Whether a stream records the endpoint: it is open, and it runs.
fn is_recorded<E: EngineSide>(all: &[StreamEntry<E>], e: EndpointNo) -> bool
    ensures { result ≡ list_any (is_recorded e.0) all.now }
{
    all.iter().any(|x| x.is_recorded(e))
}

/// Whether a stream records the endpoint and can't count `frames` frames more.
fn is_worn_entry<E: EngineSide>(entry: &StreamEntry<E>, e: EndpointNo, frames: u32) -> bool
    ensures { result ≡ is_worn_entry e.0 frames entry.now }
{
    entry.is_recorded(e) && entry.ever > MAX_COUNT - frames as u64
}

/// Whether one of them does.
fn any_worn<E: EngineSide>(all: &[StreamEntry<E>], e: EndpointNo, frames: u32) -> bool
    ensures { result ≡ list_any (is_worn_entry e.0 frames) all.now }
{
    all.iter().any(|x| is_worn_entry(x, e, frames))
}

impl<D: Devices, E: EngineSide> Board<D, E> {
    /// The place of the endpoint whose period is due, and of its seat. The endpoint is ACTIVE, and the count of its
    /// frames has room for the period.
    pub fn due(&self, e: EndpointNo) -> Result<usize, Hr>
        requires order { InOrder E.state self.now }
        ensures refused { IfErr result (λ code. Says self.now (λ st. (period_plan st e.0).rows) (Some code)) }
        ensures found { IfOk result (FindsDue e.0 self.now) }
    {
        self.runs()?;
        let Some(at) = self.book.endpoint_place(e) else {
            return Err(Hr::E_NOTFOUND);
        };
        let endpoint = self.book.endpoint(at);
        if endpoint.state != STATE_ACTIVE {
            return Err(Hr::DEVICE_INVALIDATED);
        }
        let frames = period_frames(&self.entries, endpoint);
        let next = self.seats[at].next;
        if next + frames as u64 > MAX_COUNT || self.is_worn(endpoint, frames) {
            return Err(Hr::WORN);
        }
        Ok(at)
    }

    /// Whether a stream that records an endpoint can't count `frames` frames more. One that hears what an endpoint
    /// plays was offered no more than the endpoint played, whose count is looked at already.
    fn is_worn(&self, endpoint: &Endpoint, frames: u32) -> bool
        ensures { result ≡ (is_capture_flow endpoint.now.flow
            && list_any (is_worn_entry endpoint.now.no.0 frames) self.now.entries.items) }
    {
        endpoint.flow == Flow::Capture && any_worn(&self.entries, endpoint.no, frames)
    }

    /// A period of an endpoint: what is due of its streams is played, with the gains of their levels, and offered to
    /// those that hear it; or what its device gives is offered to those that record it. If the device fails, its
    /// streams are closed, and the endpoint is NOTPRESENT; then, and only then, it is noted what there was of the
    /// service before the period.
    pub fn period(&mut self, e: EndpointNo) -> Result<Payload, Hr>
        requires order { InOrder E.state self.old }
        ensures does { Does D.faults D.told E.moves None AnyData self.old self.new
            (λ st. period_plan st e.0) (code_of result) (payload_of result) }
        ensures order { InOrder E.state self.new }
        ensures plays { IfOk result IsPeriod }
        ensures notes { NotesFailure result self.old.failed self.new.failed self.old }
    {
        self.refresh_gains();
        let at = self.due(e)?;
        match self.book.endpoint(at).flow {
            Flow::Render => self.play_due(e, at),
            Flow::Capture => self.record_due(e, at),
        }
    }

    /// A period of an endpoint that plays, which stands at this place, with gains that are those of the levels.
    fn play_due(&mut self, e: EndpointNo, at: usize) -> Result<Payload, Hr>
        requires order { InOrder E.state self.old }
        requires fresh { self.old.book.levels_changed ≡ false }
        requires found { FindsDue e.0 self.old at }
        requires plays { HasFlow flow.Render self.old.book at }
        ensures does { Does D.faults D.told E.moves None AnyData self.old self.new
            (λ st. period_plan st e.0) (code_of result) (payload_of result) }
        ensures order { InOrder E.state self.new }
        ensures plays { IfOk result IsPeriod }
        ensures notes { NotesFailure result self.old.failed self.new.failed self.old }
    {
        let endpoint = self.book.endpoint(at);
        let frames = period_frames(&self.entries, endpoint);
        let ends = &END_GAINS[..endpoint.format.channels as usize];
        let seat = &mut self.seats[at];
        let entries: &mut [StreamEntry<E>] = &mut self.entries;
        match play(entries, e, frames, ends, &mut seat.block, &mut self.devices) {
            Ok(()) => {
                retire(entries, e);
                feed_loopback(entries, e, frames, &mut seat.block);
                seat.next += frames as u64;
                let clients: &mut [Client] = &mut self.book.clients;
                set_events(clients, entries, e);
                Ok(Payload::Period {
                    frames,
                    failed: false,
                })
            }
            Err(Failed) => {
                close_failed(entries, e, &self.book, &mut self.failed);
                let Ok(()) = self.book.registry.set_state(e, STATE_NOTPRESENT) else {
                    unreachable!();
                };
                Ok(Payload::Period {
                    frames: 0,
                    failed: true,
                })
            }
        }
    }

    /// A period of an endpoint that records, which stands at this place. Its device is not asked if no stream records
    /// it.
    fn record_due(&mut self, e: EndpointNo, at: usize) -> Result<Payload, Hr>
        requires order { InOrder E.state self.old }
        requires found { FindsDue e.0 self.old at }
        requires records { HasFlow flow.Capture self.old.book at }
        ensures does { Does D.faults D.told E.moves None AnyData self.old self.new
            (λ st. period_plan st e.0) (code_of result) (payload_of result) }
        ensures order { InOrder E.state self.new }
        ensures plays { IfOk result IsPeriod }
        ensures notes { NotesFailure result self.old.failed self.new.failed self.old }
    {
        if !is_recorded(&self.entries, e) {
            return Ok(Payload::Period {
                frames: 0,
                failed: false,
            });
        }
        let endpoint = self.book.endpoint(at);
        let frames = period_frames(&self.entries, endpoint);
        let channels = endpoint.format.channels;
        let seat = &mut self.seats[at];
        let entries: &mut [StreamEntry<E>] = &mut self.entries;
        match feed_capture(
            entries,
            e,
            frames,
            channels,
            &mut seat.block,
            &mut self.devices,
        ) {
            Ok(frames) => {
                let clients: &mut [Client] = &mut self.book.clients;
                set_recorded_events(clients, entries, e, frames);
                Ok(Payload::Period {
                    frames,
                    failed: false,
                })
            }
            Err(Failed) => {
                close_failed(entries, e, &self.book, &mut self.failed);
                let Ok(()) = self.book.registry.set_state(e, STATE_NOTPRESENT) else {
                    unreachable!();
                };
                Ok(Payload::Period {
                    frames: 0,
                    failed: true,
                })
            }
        }
    }
}
