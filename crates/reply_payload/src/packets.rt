//! What is told of a packet (IAudioCaptureClient::GetBuffer).

ghost use Rattle.std.specs.Prelude.{◌≡◌, ℕ, ◌+◌, ◌*◌, ◌/◌, ◌%◌, ◌<◌, ◌≤◌, ◌++◌, length};
ghost use Rattle.ca_base.specs.declared.limits.TheConstants.{LONGEST_BODY};
ghost use Rattle.reply_payload.specs.Packets.{frames_bytes, packet_head};
ghost use Rattle.reply_payload.specs.declared.packets.TheConstants.{LONGEST_PACKET, MOST_FRAMES, PACKET_HEAD};
ghost use Rattle.reply_payload.specs.declared.payload.TheConstants.{LONGEST_NOTICES, REPLY_ROOM};

use ca_base::Bytes;
use ca_base::values::BUFFER_DATA_DISCONTINUITY;
use wave_format::bytes_of_word;

/// What a packet has ahead of its frames, in bytes: how many frames it has, its flags and its position.
pub const PACKET_HEAD: usize = 4 + 4 + 8;

/// The most frames of a packet: those of the longest period of an exclusive stream, five seconds, at the highest rate,
/// 96,000 Hz (IAudioClient::Initialize; the limit of the period is this project's own).
pub const MOST_FRAMES: usize = 480_000;

/// The most bytes of a frame: two for each of four channels.
const MOST_FRAME_BYTES: usize = 8;

/// The longest payload with a packet, in bytes.
pub const LONGEST_PACKET: usize = PACKET_HEAD + MOST_FRAMES * MOST_FRAME_BYTES;

/// How many frames become bytes at a time, on the stack.
const BATCH: usize = 64;

/// There is room for a packet in a reply, and for all events and notices of a connection; and a reply of that length is
/// within a frame's body. This does nothing: its contract is the law.
pub fn packet_fits()
    ensures longest { (frames channels : ℕ) → frames ≤ MOST_FRAMES → channels ≤ 4 →
        PACKET_HEAD + frames * (channels * 2) ≤ LONGEST_PACKET }
    ensures room { LONGEST_PACKET ≤ REPLY_ROOM }
    ensures notices { LONGEST_NOTICES ≤ REPLY_ROOM }
    ensures body { 10 + REPLY_ROOM ≤ LONGEST_BODY }
{}

/// Puts what a packet has ahead of its frames: how many they are, whether packets before it were lost
/// (AUDCLNT_BUFFERFLAGS_DATA_DISCONTINUITY), and its position in frames.
pub fn put_packet_head(frames: u32, follows_gap: bool, position: u64, out: &mut Bytes)
    requires room { length out.old.list + PACKET_HEAD ≤ out.old.capacity }
    ensures list { out.new.list ≡ out.old.list ++ packet_head frames follows_gap position }
    ensures length { length out.new.list ≡ length out.old.list + PACKET_HEAD }
    ensures keeps { out.old.capacity ≤ out.new.capacity }
{
    let flags = if follows_gap {
        BUFFER_DATA_DISCONTINUITY
    } else {
        0
    };
    let [a, b, c, d] = frames.to_le_bytes();
    let [e, f, g, h] = flags.to_le_bytes();
    let [i, j, k, l, m, n, o, p] = position.to_le_bytes();
    out.append_reserved(&[a, b, c, d, e, f, g, h, i, j, k, l, m, n, o, p]);
}

/// Writes the frames of these words as bytes, `N` of them a frame.
fn write_frames<const N: usize>(words: &[u64], bytes: &mut [u8])
    requires some { 0 < N }
    requires few { N ≤ 8 }
    requires whole { N % 2 ≡ 0 }
    requires size { length bytes.old ≡ length words.now * N }
    ensures bytes { bytes.new ≡ frames_bytes (N / 2) words.now }
    ensures length { length bytes.new ≡ length words.now * N }
{
    for i in 0..words.len() {
        bytes_of_word(words[i], &mut bytes[i * N..(i + 1) * N]);
    }
}

/// Adds the frames of these words as bytes that fit, `N` of them a frame.
fn add_batches<const N: usize>(words: &[u64], out: &mut Bytes)
    requires some { 0 < N }
    requires few { N ≤ 8 }
    requires whole { N % 2 ≡ 0 }
    requires room { length out.old.list + length words.now * N ≤ out.old.capacity }
    ensures list { out.new.list ≡ out.old.list ++ frames_bytes (N / 2) words.now }
    ensures length { length out.new.list ≡ length out.old.list + length words.now * N }
    ensures keeps { out.old.capacity ≤ out.new.capacity }
{
    let mut batch = [0; BATCH * MOST_FRAME_BYTES];
    let mut rest = words;
    while !rest.is_empty() {
        let (front, after) = rest.split_at(rest.len().min(BATCH));
        let bytes = &mut batch[..front.len() * N];
        write_frames::<N>(front, bytes);
        out.append_reserved(bytes);
        rest = after;
    }
}

/// Adds the frames of these words, of 1 to 4 channels, as bytes that fit: two bytes a sample, little-endian.
pub fn add_frames(words: &[u64], channels: u16, out: &mut Bytes)
    requires some { 1 ≤ channels }
    requires few { channels ≤ 4 }
    requires room { length out.old.list + length words.now * (channels * 2) ≤ out.old.capacity }
    ensures list { out.new.list ≡ out.old.list ++ frames_bytes channels words.now }
    ensures length { length out.new.list ≡ length out.old.list + length words.now * (channels * 2) }
    ensures keeps { out.old.capacity ≤ out.new.capacity }
{
    match channels {
        1 => add_batches::<2>(words, out),
        2 => add_batches::<4>(words, out),
        3 => add_batches::<6>(words, out),
        _ => add_batches::<8>(words, out),
    }
}
