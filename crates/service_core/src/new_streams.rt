//! A stream that is opened, with both ends.

ghost use Rattle.std.specs.Prelude.{◌≡◌, ◌*◌, ◌≤◌, None, IfSome};
ghost use Rattle.ca_base.specs.declared.limits.TheConstants.{MAX_STORE_WORDS};
ghost use Rattle.wave_format.specs.Format.{IsValid};
ghost use Rattle.ca_machine.specs.Data.{dir_of};
ghost use Rattle.ca_stage.specs.Tally.{Tally};
ghost use Rattle.reply_payload.specs.Answers.{code_of, payload_of};
ghost use Rattle.service_book.specs.Openings.{opening_plan};
ghost use Rattle.service_core.specs.Core.{Goes, IsMadeFor, new_side};
ghost use Rattle.service_core.specs.Service.{IsCore};

use crate::BothEnds;
use buffer_ring::FrameStore;
use ca_base::{Dir, Hr, StreamKind};
use client_state::ClientSide;
use device_io::Devices;
use period_engine::Block;
use reply_payload::Payload;
use service_board::{Board, NewStream};
use service_book::{Opening, OpeningPlan};
use std::alloc::Global;

/// Which way the frames of a stream go.
fn dir_of(kind: StreamKind) -> Dir
    ensures { result ≡ dir_of kind }
{
    match kind {
        StreamKind::Render => Dir::Render,
        StreamKind::Capture | StreamKind::Loopback => Dir::Capture,
    }
}

/// The client's side of a stream that is opened: nothing was leased or released.
fn new_side(plan: &OpeningPlan) -> ClientSide
    requires { IsValid plan.now.format }
    ensures { result ≡ new_side plan.now }
{
    ClientSide {
        dir: dir_of(plan.kind),
        exclusive: plan.exclusive,
        event: plan.event,
        buffer: plan.sizes.buffer,
        period: plan.sizes.period,
        store_frames: plan.sizes.words,
        block: plan.format.channels as u32 * 2,
        lease: None,
        released: 0,
    }
}

/// Both ends of a stream that is opened, with an empty store of the size that was planned, and scratch for its
/// endpoint's periods if that was planned; none if memory ran out.
fn new_stream<F: FrameStore>(alloc: Global, plan: &OpeningPlan) -> Option<NewStream<BothEnds<F>>>
    requires format { IsValid plan.now.format }
    requires some { 1 ≤ plan.now.sizes.words }
    requires most { plan.now.sizes.words ≤ MAX_STORE_WORDS }
    ensures { IfSome result (IsMadeFor F.kept plan.now) }
{
    let Ok(store) = F::new(alloc, plan.sizes.words, dir_of(plan.kind)) else {
        return None;
    };
    let block = match plan.scratch {
        Some(frames) => match Block::new(alloc, frames, plan.format.channels) {
            Ok(block) => Some(block),
            Err(_) => return None,
        },
        None => None,
    };
    let store = BothEnds {
        side: new_side(plan),
        store,
    };
    Some(NewStream { store, block })
}

/// IAudioClient::Initialize. What the stream needs is made last, so that no refusal takes memory, and before a stream
/// is closed.
pub fn initialize<D: Devices, F: FrameStore>(
    board: &mut Board<D, BothEnds<F>>,
    alloc: Global,
    x: &Opening,
) -> Result<Payload, Hr>
    requires { IsCore F.state F.kept board.old }
    ensures goes { (tally : Tally) → Goes D.faults D.told F.kept (opening_plan x.now)
        (code_of result) (payload_of result) tally board.old board.new }
    ensures core { IsCore F.state F.kept board.new }
{
    let plan = board.plan_initialize(x)?;
    let made = new_stream(alloc, &plan);
    board.initialize(x, &plan, made)
}
