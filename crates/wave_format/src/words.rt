//! Frames one after another, from their bytes into the words of a store.

ghost use Rattle.std.specs.Prelude.{◌≡◌, ℕ, ◌*◌, length, map};
ghost use Rattle.wave_format.specs.Frame.{IsBlock, frame_of, frames_from};

use crate::{frames_of_bytes_are_written, word_from_bytes, word_holds_the_frame};

/// Writes the words of frames of `N` bytes: as many as there are words.
pub fn words_of<const N: usize>(bytes: &[u8], words: &mut [u64])
    requires size { length bytes.now ≡ length words.old * N }
    requires block { IsBlock N }
    ensures frames { (channels : ℕ) → N ≡ channels * 2 →
        map (frame_of channels) words.new ≡ frames_from (length words.old) channels bytes.now }
{
    word_holds_the_frame();
    frames_of_bytes_are_written();
    let mut rest = bytes;
    for i in 0..words.len() {
        let (frame, after) = rest.split_at(N);
        words[i] = word_from_bytes(frame);
        rest = after;
    }
}
