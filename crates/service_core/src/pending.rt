//! How many frames wait in the stores of a service that holds both ends of each stream.

ghost use Rattle.std.specs.Prelude.{◌≡◌, ◌≤◌, length};
ghost use Rattle.std.specs.List.{AllZip, sum_by};
ghost use Rattle.ca_base.specs.declared.limits.TheConstants.{CLIENTS};
ghost use Rattle.service_board.specs.InOrder.{InOrder};
ghost use Rattle.service_core.specs.Core.{IsLooked, LooksAround, words_in};

use crate::BothEnds;
use buffer_ring::FrameStore;
use ca_base::{Gate, StreamKind};
use period_engine::StreamEntry;
use service_board::Board;

/// Streams whose frames are counted.
#[derive(Clone, Copy, Debug, PartialEq, Eq)]
pub enum Streams {
    All,
    Open,
}

/// How many frames that are to be played an entry's store has; 0 if its stream is none of these.
fn words_in<F: FrameStore>(entry: &mut StreamEntry<BothEnds<F>>, streams: Streams) -> u32
    ensures count { result ≡ words_in F.kept streams entry.old }
    ensures looked { IsLooked F.kept entry.old entry.new }
{
    if entry.kind != StreamKind::Render {
        return 0;
    }
    match (streams, entry.gate) {
        (Streams::Open, Gate::Closed(_)) => 0,
        _ => entry.store.store.look().words,
    }
}

/// How many frames that are to be played the stores of these streams have.
fn words_in_all<F: FrameStore>(all: &mut [StreamEntry<BothEnds<F>>], streams: Streams) -> u64
    requires { length all.old ≤ CLIENTS }
    ensures count { result ≡ sum_by (words_in F.kept streams) all.old }
    ensures looked { AllZip (IsLooked F.kept) all.old all.new }
{
    let mut sum = 0;
    for entry in all.iter_mut() {
        sum += words_in(entry, streams) as u64;
    }
    sum
}

/// How many frames are pending in these streams of a board.
pub fn pending<D, F: FrameStore>(board: &mut Board<D, BothEnds<F>>, streams: Streams) -> u64
    requires { InOrder (λ ends. F.state ends.store) board.old }
    ensures count { result ≡ sum_by (words_in F.kept streams) board.old.entries.items }
    ensures looked { LooksAround F.kept board.old board.new }
{
    words_in_all(&mut board.entries, streams)
}
