//! The check of data calls: the first row that holds.

ghost use Rattle.std.specs.Prelude.{◌≡◌};
ghost use Rattle.ca_base.specs.Rows.{first};
ghost use Rattle.client_state.specs.Rows.{call_rows, gate_rows, has_wrong_size, side_rows};
ghost use Rattle.client_state.specs.Verdicts.{verdict_of};
ghost use Rattle.client_state.specs.declared.check.DataCall.TheVariants as call;

use crate::ClientSide;
use ca_base::limits::MAX_COUNT;
use ca_base::values::BUFFER_SILENT;
use ca_base::{Gate, Hr, Reason, Seen};

/// A data call, with its numbers.
#[derive(Clone, Copy, Debug, PartialEq, Eq)]
pub enum DataCall {
    /// IAudioClient::GetCurrentPadding.
    Padding,
    /// IAudioRenderClient::GetBuffer of `n` frames.
    Get { n: u32 },
    /// IAudioRenderClient::ReleaseBuffer of `m` frames, with data of `len` bytes.
    Release { m: u32, flags: u32, len: u32 },
    /// IAudioCaptureClient::GetNextPacketSize.
    NextSize,
    /// IAudioCaptureClient::GetBuffer.
    CaptureGet,
    /// IAudioCaptureClient::ReleaseBuffer of `m` frames.
    CaptureRelease { m: u32 },
}

/// What the check of a data call says: the answer of the first row that holds, or that none does and the call goes on.
#[derive(Clone, Copy, Debug, PartialEq, Eq)]
pub enum Verdict {
    Answer(Hr),
    Go,
}

/// The answer of each call of a stream whose gate is closed.
pub fn gate_refusal(gate: Gate) -> Option<Hr>
    ensures { result ≡ first (gate_rows gate) }
{
    match gate {
        Gate::Open => None,
        Gate::Closed(Reason::Shutdown) => Some(Hr::SERVICE_NOT_RUNNING),
        Gate::Closed(_) => Some(Hr::DEVICE_INVALIDATED),
    }
}

impl ClientSide {
    /// Whether the size of data is neither that of the frames nor, if they are silent, 0.
    fn has_wrong_size(&self, frames: u32, flags: u32, size: u32) -> bool
        ensures { result ≡ has_wrong_size self.now frames flags size }
    {
        let silent = flags == BUFFER_SILENT;
        if flags != 0 && !silent {
            return true;
        }
        size as u64 != frames as u64 * self.block as u64 && !(silent && size == 0)
    }

    fn get_row(&self, n: u32, words: u32) -> Option<Hr>
        ensures { result ≡ first (call_rows self.now (call.Get n) words) }
    {
        if !self.is_render() {
            return Some(Hr::WRONG_ENDPOINT_TYPE);
        }
        if self.lease.is_some() {
            return Some(Hr::OUT_OF_ORDER);
        }
        if self.exclusive && self.event && n != self.buffer {
            return Some(Hr::BUFFER_SIZE_ERROR);
        }
        if self.store_frames.saturating_sub(self.padding(words)) < n {
            return Some(Hr::BUFFER_TOO_LARGE);
        }
        None
    }

    fn release_row(&self, m: u32, flags: u32, size: u32) -> Option<Hr>
        ensures { result ≡ first (call_rows self.now (call.Release m flags size) 0) }
    {
        if !self.is_render() {
            return Some(Hr::WRONG_ENDPOINT_TYPE);
        }
        let Some(lease) = self.lease else {
            return Some(Hr::OUT_OF_ORDER);
        };
        if lease < m {
            return Some(Hr::INVALID_SIZE);
        }
        if self.has_wrong_size(m, flags, size) {
            return Some(Hr::E_INVALIDARG);
        }
        if MAX_COUNT - (m as u64) < self.released {
            return Some(Hr::WORN);
        }
        None
    }

    fn next_size_row(&self) -> Option<Hr>
        ensures { result ≡ first (call_rows self.now call.NextSize 0) }
    {
        if self.is_render() {
            return Some(Hr::WRONG_ENDPOINT_TYPE);
        }
        None
    }

    fn capture_get_row(&self, words: u32) -> Option<Hr>
        ensures { result ≡ first (call_rows self.now call.CaptureGet words) }
    {
        if self.is_render() {
            return Some(Hr::WRONG_ENDPOINT_TYPE);
        }
        if self.lease.is_some() {
            return Some(Hr::OUT_OF_ORDER);
        }
        if self.padding(words) == 0 {
            return Some(Hr::S_BUFFER_EMPTY);
        }
        None
    }

    fn capture_release_row(&self, m: u32) -> Option<Hr>
        ensures { result ≡ first (call_rows self.now (call.CaptureRelease m) 0) }
    {
        if self.is_render() {
            return Some(Hr::WRONG_ENDPOINT_TYPE);
        }
        if self.lease.is_none() {
            return Some(Hr::OUT_OF_ORDER);
        }
        if m != 0 && m != self.period {
            return Some(Hr::INVALID_SIZE);
        }
        None
    }

    /// The first row of a call's own that holds.
    fn call_row(&self, call: &DataCall, words: u32) -> Option<Hr>
        ensures { result ≡ first (call_rows self.now call.now words) }
    {
        match *call {
            DataCall::Padding => None,
            DataCall::Get { n } => self.get_row(n, words),
            DataCall::Release { m, flags, len } => self.release_row(m, flags, len),
            DataCall::NextSize => self.next_size_row(),
            DataCall::CaptureGet => self.capture_get_row(words),
            DataCall::CaptureRelease { m } => self.capture_release_row(m),
        }
    }
}

/// Checks a data call against a client's side of its stream and what a look at the store finds: the first row that
/// holds is the answer, and AUDCLNT_S_BUFFER_EMPTY, without a packet, is one of the answers.
pub fn data_check(side: &ClientSide, call: &DataCall, seen: Seen) -> Verdict
    ensures { result ≡ verdict_of (first (side_rows side.now call.now seen)) }
{
    if side.buffer == 0 {
        return Verdict::Answer(Hr::NOT_INITIALIZED);
    }
    if let Some(code) = gate_refusal(seen.gate) {
        return Verdict::Answer(code);
    }
    match side.call_row(call, seen.words) {
        Some(code) => Verdict::Answer(code),
        None => Verdict::Go,
    }
}
