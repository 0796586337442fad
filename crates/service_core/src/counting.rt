//! Events that give frames a fate, on a board with both ends: how many frames they took from open streams.

ghost use Rattle.std.specs.Prelude.{◌≡◌, ◌-◌, IfOk, is_some};
ghost use Rattle.std.specs.List.{sum_by};
ghost use Rattle.ca_machine.specs.Clients.{hangup_plan, release_plan};
ghost use Rattle.ca_machine.specs.Devices.{shutdown_plan};
ghost use Rattle.ca_machine.specs.Periods.{period_plan};
ghost use Rattle.ca_machine.specs.Step.{device_plan};
ghost use Rattle.ca_machine.specs.Streams.{reset_plan};
ghost use Rattle.ca_stage.specs.Tally.{Tally};
ghost use Rattle.reply_payload.specs.Answers.{IsPeriod, code_of, payload_of};
ghost use Rattle.service_board.specs.InOrder.{InOrder};
ghost use Rattle.service_board.specs.Telling.{NotesFailure};
ghost use Rattle.service_core.specs.Counting.{HasCounts, after_taking, more_dropped, more_reset};
ghost use Rattle.service_book.specs.Openings.{opening_plan};
ghost use Rattle.service_core.specs.Core.{GoesTo, LooksAround, core_datas, words_in};
ghost use Rattle.service_core.specs.Service.{IsCore};
ghost use Rattle.service_core.specs.declared.pending.Streams.TheVariants as streams;

use crate::BothEnds;
use crate::new_streams::initialize;
use crate::pending::{Streams, pending};
use buffer_ring::FrameStore;
use ca_base::{ClientNo, ConnNo, EndpointNo, Hr};
use ca_model::DeviceEvent;
use device_io::Devices;
use reply_payload::Payload;
use service_board::Board;
use service_book::Opening;
use std::alloc::Global;

/// Whether a client has leased frames.
fn has_lease<D, F: FrameStore>(board: &Board<D, BothEnds<F>>, client: ClientNo) -> bool
    requires { InOrder (λ ends. F.state ends.store) board.now }
    ensures { result ≡ is_some (core_datas F.kept board.now.entries.items client.0).lease }
{
    match board.entry_place(client) {
        Some(at) => board.entries[at].store.side.lease.is_some(),
        None => false,
    }
}

/// By how much fewer frames than `before` are pending in open streams.
fn fewer_than<D, F: FrameStore>(before: u64, board: &mut Board<D, BothEnds<F>>) -> u64
    requires { InOrder (λ ends. F.state ends.store) board.old }
    ensures fewer { result ≡ before - sum_by (words_in F.kept streams.Open) board.old.entries.items }
    ensures looked { LooksAround F.kept board.old board.new }
{
    before.saturating_sub(pending(board, Streams::Open))
}

/// IAudioClient::Reset, and how many frames were reset.
pub fn counted_reset<D: Devices, F: FrameStore>(
    board: &mut Board<D, BothEnds<F>>,
    conn: ConnNo,
    client: ClientNo,
) -> (Result<Payload, Hr>, u64)
    requires { IsCore F.state F.kept board.old }
    ensures goes { (tally : Tally) → HasCounts tally → GoesTo D.faults D.told F.kept
        (λ st. reset_plan st conn.0 client.0) (code_of result.0) (payload_of result.0) tally
        (more_reset result.1 tally) board.old board.new }
    ensures core { IsCore F.state F.kept board.new }
{
    let before = pending(board, Streams::Open);
    let leased = has_lease(board, client);
    let answer = board.reset(conn, client, leased);
    (answer, fewer_than(before, board))
}

/// A client is released; and how many frames were dropped.
pub fn counted_release<D: Devices, F: FrameStore>(
    board: &mut Board<D, BothEnds<F>>,
    conn: ConnNo,
    client: ClientNo,
) -> (Result<Payload, Hr>, u64)
    requires { IsCore F.state F.kept board.old }
    ensures goes { (tally : Tally) → HasCounts tally → GoesTo D.faults D.told F.kept
        (λ st. release_plan st conn.0 client.0) (code_of result.0) (payload_of result.0) tally
        (more_dropped result.1 tally) board.old board.new }
    ensures core { IsCore F.state F.kept board.new }
{
    let before = pending(board, Streams::Open);
    let answer = board.release(conn, client);
    (answer, fewer_than(before, board))
}

/// A connection hangs up; and how many frames were dropped.
pub fn counted_hangup<D: Devices, F: FrameStore>(
    board: &mut Board<D, BothEnds<F>>,
    conn: ConnNo,
) -> (Result<Payload, Hr>, u64)
    requires { IsCore F.state F.kept board.old }
    ensures goes { (tally : Tally) → HasCounts tally → GoesTo D.faults D.told F.kept
        (λ st. hangup_plan st conn.0) (code_of result.0) (payload_of result.0) tally
        (more_dropped result.1 tally) board.old board.new }
    ensures core { IsCore F.state F.kept board.new }
{
    let before = pending(board, Streams::Open);
    let answer = board.hangup(conn);
    (answer, fewer_than(before, board))
}

/// IAudioClient::Initialize; and how many frames were dropped, of streams that it takes the endpoint from.
pub fn counted_initialize<D: Devices, F: FrameStore>(
    board: &mut Board<D, BothEnds<F>>,
    alloc: Global,
    x: &Opening,
) -> (Result<Payload, Hr>, u64)
    requires { IsCore F.state F.kept board.old }
    ensures goes { (tally : Tally) → HasCounts tally → GoesTo D.faults D.told F.kept
        (opening_plan x.now) (code_of result.0) (payload_of result.0) tally
        (more_dropped result.1 tally) board.old board.new }
    ensures core { IsCore F.state F.kept board.new }
{
    let before = pending(board, Streams::Open);
    let answer = initialize(board, alloc, x);
    (answer, fewer_than(before, board))
}

/// A device event; and how many frames were dropped.
pub fn counted_device<D: Devices, F: FrameStore>(
    board: &mut Board<D, BothEnds<F>>,
    alloc: Global,
    event: &DeviceEvent,
) -> (Result<Payload, Hr>, u64)
    requires { IsCore F.state F.kept board.old }
    ensures goes { (tally : Tally) → HasCounts tally → GoesTo D.faults D.told F.kept
        (λ st. device_plan st event.now) (code_of result.0) (payload_of result.0) tally
        (more_dropped result.1 tally) board.old board.new }
    ensures core { IsCore F.state F.kept board.new }
{
    let before = pending(board, Streams::Open);
    let answer = board.device(alloc, event);
    (answer, fewer_than(before, board))
}

/// A shutdown; and how many frames were dropped.
pub fn counted_shutdown<D: Devices, F: FrameStore>(
    board: &mut Board<D, BothEnds<F>>,
) -> (Result<Payload, Hr>, u64)
    requires { IsCore F.state F.kept board.old }
    ensures goes { (tally : Tally) → HasCounts tally → GoesTo D.faults D.told F.kept
        (λ st. shutdown_plan st) (code_of result.0) (payload_of result.0) tally
        (more_dropped result.1 tally) board.old board.new }
    ensures core { IsCore F.state F.kept board.new }
{
    let before = pending(board, Streams::Open);
    let answer = board.shutdown();
    (answer, fewer_than(before, board))
}

/// A period of an endpoint; and how many frames it took: they were rendered, or dropped if the device failed. Then, and
/// only then, it is noted what there was of the service before it.
pub fn counted_period<D: Devices, F: FrameStore>(
    board: &mut Board<D, BothEnds<F>>,
    e: EndpointNo,
) -> (Result<Payload, Hr>, u64)
    requires { IsCore F.state F.kept board.old }
    ensures goes { (tally : Tally) → HasCounts tally → GoesTo D.faults D.told F.kept
        (λ st. period_plan st e.0) (code_of result.0) (payload_of result.0) tally
        (after_taking result.0 result.1 tally) board.old board.new }
    ensures plays { IfOk result.0 IsPeriod }
    ensures notes { NotesFailure result.0 board.old.failed board.new.failed board.old }
    ensures core { IsCore F.state F.kept board.new }
{
    let before = pending(board, Streams::Open);
    let answer = board.period(e);
    (answer, fewer_than(before, board))
}
