//! Frames into a store: from bytes, or silent ones.

ghost use Rattle.std.specs.Prelude.{◌≡◌, ◌≢◌, ℕ, ◌-◌, ◌*◌, ◌≤◌, ◌++◌, length, replicate};
ghost use Rattle.ca_base.specs.declared.ids.Gate.TheVariants as gate;
ghost use Rattle.wave_format.specs.Frame.{IsBlock, frames_from};
ghost use Rattle.client_state.specs.Frames.{frames_in};
ghost use Rattle.ca_machine.specs.Data.{frames_released};
ghost use Rattle.service_core.specs.Putting.{TookMore};

use buffer_ring::FrameStore;
use ca_base::values::BUFFER_SILENT;
use wave_format::words_of;

/// How many frames are turned into words at a time, on the stack.
const BATCH: u32 = 64;

/// Puts `frames` frames of `N` bytes into a store.
fn put_frames_of<F: FrameStore, const N: usize>(store: &mut F, frames: u32, bytes: &[u8])
    requires opens { (F.kept store.old).gate ≡ gate.Open }
    requires room { frames ≤ (F.kept store.old).cap - length (F.kept store.old).words }
    requires size { length bytes.now ≡ frames * N }
    requires frame_size { IsBlock N }
    ensures frames { (channels : ℕ) → N ≡ channels * 2 → frames_in channels (F.kept store.new).words
        ≡ frames_in channels (F.kept store.old).words ++ frames_from frames channels bytes.now }
    ensures took { TookMore frames (F.kept store.old) (F.kept store.new) }
{
    let mut rest = bytes;
    let mut left = frames;
    while left > 0 {
        let count = left.min(BATCH);
        let (front, after) = rest.split_at(count as usize * N);
        let mut batch = [0; BATCH as usize];
        let words = &mut batch[..count as usize];
        words_of::<N>(front, words);
        store.client_put(words);
        rest = after;
        left -= count;
    }
}

/// Puts `frames` frames into a store: their bytes, little-endian, `frame_size` of them a frame.
pub fn put_frames<F: FrameStore>(store: &mut F, frames: u32, frame_size: u32, bytes: &[u8])
    requires opens { (F.kept store.old).gate ≡ gate.Open }
    requires room { frames ≤ (F.kept store.old).cap - length (F.kept store.old).words }
    requires size { length bytes.now ≡ frames * frame_size }
    requires frame_size { IsBlock frame_size }
    ensures frames { (channels : ℕ) → frame_size ≡ channels * 2 → frames_in channels (F.kept store.new).words
        ≡ frames_in channels (F.kept store.old).words ++ frames_from frames channels bytes.now }
    ensures took { TookMore frames (F.kept store.old) (F.kept store.new) }
{
    match frame_size {
        2 => put_frames_of::<F, 2>(store, frames, bytes),
        4 => put_frames_of::<F, 4>(store, frames, bytes),
        6 => put_frames_of::<F, 6>(store, frames, bytes),
        8 => put_frames_of::<F, 8>(store, frames, bytes),
        _ => unreachable!(),
    }
}

/// Puts `frames` silent frames into a store.
pub fn put_silence<F: FrameStore>(store: &mut F, frames: u32)
    requires opens { (F.kept store.old).gate ≡ gate.Open }
    requires room { frames ≤ (F.kept store.old).cap - length (F.kept store.old).words }
    ensures words { (F.kept store.new).words ≡ (F.kept store.old).words ++ replicate frames 0 }
    ensures took { TookMore frames (F.kept store.old) (F.kept store.new) }
{
    let silence = [0; BATCH as usize];
    let mut left = frames;
    while left > 0 {
        let count = left.min(BATCH);
        store.client_put(&silence[..count as usize]);
        left -= count;
    }
}

/// Puts the frames of a ReleaseBuffer into a store: silent ones by AUDCLNT_BUFFERFLAGS_SILENT, else those of the bytes,
/// `frame_size` of them a frame.
pub fn put_released<F: FrameStore>(
    store: &mut F,
    frames: u32,
    flags: u32,
    frame_size: u32,
    bytes: &[u8],
)
    requires opens { (F.kept store.old).gate ≡ gate.Open }
    requires room { frames ≤ (F.kept store.old).cap - length (F.kept store.old).words }
    requires size { flags ≢ BUFFER_SILENT → length bytes.now ≡ frames * frame_size }
    requires frame_size { IsBlock frame_size }
    ensures frames { (channels : ℕ) → frame_size ≡ channels * 2 → frames_in channels (F.kept store.new).words
        ≡ frames_in channels (F.kept store.old).words ++ frames_released frames flags bytes.now channels }
    ensures took { TookMore frames (F.kept store.old) (F.kept store.new) }
{
    if flags == BUFFER_SILENT {
        put_silence(store, frames);
    } else {
        put_frames(store, frames, frame_size, bytes);
    }
}
