//! Packets for the streams that record an endpoint's device, or hear what it gets.

ghost use Rattle.std.specs.Prelude.{◌≡◌, ℕ, ◌+◌, ◌-◌, ◌*◌, ◌≤◌, length, drop, true, false, IfNone, IfSome};
ghost use Rattle.std.specs.List.{All, AllZip, Any};
ghost use Rattle.ca_base.specs.declared.ids.Gate.TheVariants as gate;
ghost use Rattle.ca_base.specs.declared.limits.TheConstants.{MAX_COUNT};
ghost use Rattle.wave_format.specs.Frame.{frames_from};
ghost use Rattle.ca_stage.specs.Stage.{is_render, no_data};
ghost use Rattle.ca_stage.specs.Moves.{fed, moved};
ghost use Rattle.ca_stage.specs.Periods.{fed_if, is_hearing};
ghost use Rattle.client_state.specs.Frames.{frames_in};
ghost use Rattle.period_engine.specs.Entries.{IsFeedable, IsRested, is_heard, is_recorded, stream_with};
ghost use Rattle.period_engine.specs.Feeds.{Captures, PutsIfRoom, TurnedBy, is_fed};
ghost use Rattle.period_engine.specs.Sounds.{HasFeedRoom, IsSameSize};
ghost use Rattle.period_engine.specs.SubSteps.{Turned};

use crate::device_read::read_frames;
use crate::{Block, StreamEntry};
use buffer_ring::EngineSide;
use ca_base::{EndpointNo, Failed, Gate, StreamKind};
use device_io::Devices;
use wave_format::words_of;

/// Puts words into a store that holds `room` of them, if there is room for all, and answers whether there was.
fn put_if_room<E: EngineSide>(store: &mut E, room: u32, words: &[u64]) -> bool
    requires open { (E.state store.old).gate ≡ gate.Open }
    requires size { (E.state store.old).cap ≡ room }
    ensures puts { PutsIfRoom E.moves room words.now result store.old store.new }
    ensures open { (E.state store.new).gate ≡ gate.Open }
    ensures size { (E.state store.new).cap ≡ room }
{
    let held = store.held();
    if held as usize + words.len() > room as usize {
        return false;
    }
    store.put(words);
    true
}

impl<E: EngineSide> StreamEntry<E> {
    /// Whether a period of endpoint `e`, which captures, offers the stream what its device gave: it is open, it runs,
    /// and it records.
    pub fn is_recorded(&self, e: EndpointNo) -> bool
        ensures { result ≡ is_recorded e.0 self.now }
    {
        self.endpoint == e
            && self.gate == Gate::Open
            && self.running
            && self.kind == StreamKind::Capture
    }

    /// Whether a period of endpoint `e` offers the stream what its device got: it is open, it runs, and it is a
    /// loopback stream.
    pub fn is_heard(&self, e: EndpointNo) -> bool
        ensures { result ≡ is_heard e.0 self.now }
    {
        self.endpoint == e
            && self.gate == Gate::Open
            && self.running
            && self.kind == StreamKind::Loopback
    }

    /// Offers the stream a packet: `words` has a word for its head, which is written here, and those of its frames. If
    /// the store has no room for it, it is lost.
    fn feed(&mut self, words: &mut [u64])
        requires rested { IsRested E.state self.old }
        requires open { self.old.gate ≡ gate.Open }
        requires stores { is_render self.old.kind ≡ false }
        requires packet { length words.old ≡ self.old.period + 1 }
        requires counts { self.old.ever + self.old.period ≤ MAX_COUNT }
        ensures turned { Turned E.moves (moved (fed (frames_in self.old.channels (drop 1 words.old))))
            self.old self.new }
        ensures rested { IsRested E.state self.new }
        ensures words { drop 1 words.new ≡ drop 1 words.old }
    {
        let frames = words.len() as u64 - 1;
        words[0] = 2 * self.offered + self.after_gap as u64;
        let kept = put_if_room(&mut self.store, self.room, words);
        self.after_gap = !kept;
        self.offered += frames;
        self.ever += frames;
    }

    /// Whether a period of endpoint `e` offers the stream packets, if it is of this kind.
    fn is_fed(&self, e: EndpointNo, kind: StreamKind) -> bool
        ensures { result ≡ is_fed kind e.0 (stream_with no_data self.now) }
    {
        match kind {
            StreamKind::Render => false,
            StreamKind::Capture => self.is_recorded(e),
            StreamKind::Loopback => self.is_heard(e),
        }
    }

    /// Offers the stream a packet, if a period of endpoint `e` offers packets to it as one of this kind.
    fn feed_if(&mut self, e: EndpointNo, kind: StreamKind, words: &mut [u64])
        requires rested { IsRested E.state self.old }
        requires head { 1 ≤ length words.old }
        requires feedable { is_fed kind e.0 (stream_with no_data self.old) ≡ true →
            IsFeedable self.old.channels (length words.old - 1) self.old }
        ensures turned { TurnedBy E.moves (is_fed kind e.0) (drop 1 words.old) self.old self.new }
        ensures rested { IsRested E.state self.new }
        ensures words { drop 1 words.new ≡ drop 1 words.old }
    {
        if self.is_fed(e, kind) {
            self.feed(words);
        }
    }
}

/// Writes the words of `p` frames of `channels` channels behind the head of a packet.
fn write_frames(p: u32, channels: u16, bytes: &[u8], words: &mut [u64])
    requires some { 1 ≤ channels }
    requires few { channels ≤ 4 }
    requires bytes { length bytes.now ≡ p * channels * 2 }
    requires words { length words.old ≡ p + 1 }
    ensures { frames_in channels (drop 1 words.new) ≡ frames_from p channels bytes.now }
{
    let (_, frames) = words.split_at_mut(1);
    match channels {
        1 => words_of::<2>(bytes, frames),
        2 => words_of::<4>(bytes, frames),
        3 => words_of::<6>(bytes, frames),
        _ => words_of::<8>(bytes, frames),
    }
}

/// The channels of a stream that a period of endpoint `e` offers what its device got, if there is one.
fn heard_channels<E: EngineSide>(all: &[StreamEntry<E>], e: EndpointNo) -> Option<u16>
    ensures none { IfNone result (All (λ entry. is_heard e.0 entry ≡ false) all.now) }
    ensures some { IfSome result (λ channels.
        Any (λ entry. (is_heard e.0 entry ≡ true) × (entry.channels ≡ channels)) all.now) }
{
    for entry in all {
        if entry.is_heard(e) {
            return Some(entry.channels);
        }
    }
    None
}

/// Offers a packet to each stream of this kind that a period of endpoint `e` offers packets to.
fn feed_all<E: EngineSide>(
    all: &mut [StreamEntry<E>],
    e: EndpointNo,
    kind: StreamKind,
    words: &mut [u64],
)
    requires rested { All (IsRested E.state) all.old }
    requires head { 1 ≤ length words.old }
    requires feedable { All (λ entry. is_fed kind e.0 (stream_with no_data entry) ≡ true →
        IsFeedable entry.channels (length words.old - 1) entry) all.old }
    ensures turned { AllZip (TurnedBy E.moves (is_fed kind e.0) (drop 1 words.old)) all.old all.new }
    ensures rested { All (IsRested E.state) all.new }
{
    for entry in all.iter_mut() {
        entry.feed_if(e, kind, words);
    }
}

/// Offers the first `p` frames in the bytes, as a packet, to each stream of this kind that a period of endpoint `e`
/// offers packets to. `words` is room for the packet.
fn feed_frames<E: EngineSide>(
    all: &mut [StreamEntry<E>],
    e: EndpointNo,
    kind: StreamKind,
    p: u32,
    channels: u16,
    bytes: &[u8],
    words: &mut [u64],
)
    requires rested { All (IsRested E.state) all.old }
    requires some { 1 ≤ channels }
    requires few { channels ≤ 4 }
    requires bytes { p * channels * 2 ≤ length bytes.now }
    requires words { p + 1 ≤ length words.old }
    requires feedable { All (λ entry. is_fed kind e.0 (stream_with no_data entry) ≡ true →
        IsFeedable channels p entry) all.old }
    ensures turned { AllZip (Turned E.moves (fed_if (is_fed kind e.0) (frames_from p channels bytes.now)))
        all.old all.new }
    ensures rested { All (IsRested E.state) all.new }
{
    let bytes = &bytes[..p as usize * channels as usize * 2];
    let words = &mut words[..p as usize + 1];
    write_frames(p, channels, bytes, words);
    feed_all(all, e, kind, words);
}

/// Offers the `p` frames that a Sound left in the block to each loopback stream that a period of endpoint `e` plays to,
/// as a packet.
pub fn feed_loopback<E: EngineSide>(
    all: &mut [StreamEntry<E>],
    e: EndpointNo,
    p: u32,
    block: &mut Block,
)
    requires rested { All (IsRested E.state) all.old }
    requires feedable { (channels : ℕ) × HasFeedRoom channels p block.old
        × All (λ entry. is_heard e.0 entry ≡ true → IsFeedable channels p entry) all.old }
    ensures turned { (channels : ℕ) → All (λ entry. is_heard e.0 entry ≡ true → IsFeedable channels p entry) all.old →
        AllZip (Turned E.moves (fed_if (is_hearing e.0) (frames_from p channels block.old.bytes))) all.old all.new }
    ensures rested { All (IsRested E.state) all.new }
    ensures block { IsSameSize block.old block.new }
{
    if let Some(channels) = heard_channels(all, e) {
        feed_frames(
            all,
            e,
            StreamKind::Loopback,
            p,
            channels,
            &block.bytes,
            &mut block.words,
        );
    }
}

/// Reads what the device of endpoint `e` gives for a period of `p` frames of `channels` channels, and offers it to
/// each stream that records the endpoint, as a packet: with silence behind it if the device has no more. Answers
/// `p`, or 0 if not one whole frame came, and no packet.
pub fn feed_capture<E: EngineSide, D: Devices>(
    all: &mut [StreamEntry<E>],
    e: EndpointNo,
    p: u32,
    channels: u16,
    block: &mut Block,
    devices: &mut D,
) -> Result<u32, Failed>
    requires rested { All (IsRested E.state) all.old }
    requires some { 1 ≤ p }
    requires room { HasFeedRoom channels p block.old }
    requires feedable { All (λ entry. is_recorded e.0 entry ≡ true → IsFeedable channels p entry) all.old }
    ensures captures { Captures E.moves e.0 p channels result all.old all.new
        (D.faults devices.old) (D.told devices.old) (D.faults devices.new) (D.told devices.new) }
    ensures rested { All (IsRested E.state) all.new }
    ensures block { IsSameSize block.old block.new }
{
    let whole = read_frames(devices, e, p, channels, &mut block.bytes)?;
    if whole == 0 {
        return Ok(0);
    }
    feed_frames(
        all,
        e,
        StreamKind::Capture,
        p,
        channels,
        &block.bytes,
        &mut block.words,
    );
    Ok(p)
}
