//! Frames of streams, added to the sums of a period. Nothing here takes memory, and no frame is read twice.

ghost use Rattle.std.specs.Prelude.{ℕ, pos, ◌+◌, ◌*◌, ◌≤◌, length, replicate, unsigned_abs};
ghost use Rattle.std.specs.List.{All};
ghost use Rattle.volume_stack.specs.Scaling.{unit_gain};
ghost use Rattle.volume_stack.specs.Sums.{AreWithin, sum_limit};
ghost use Rattle.ca_base.specs.declared.limits.TheConstants.{CLIENTS};
ghost use Rattle.period_engine.specs.Added.{AddsEntry, AddsStore, AddsWord, AddsWords, IsAddable, Threads};
ghost use Rattle.period_engine.specs.Added.{most_sum, sum_at};

use crate::StreamEntry;
use buffer_ring::EngineSide;
use volume_stack::scaled_sample;
use wave_format::unpack;

/// How many words are read of a store at a time, onto the stack.
const BLOCK: u32 = 64;

/// Adds the samples of a frame's word, each times its channel's gain and toward zero, to the sums from `at` on.
#[inline(always)]
fn add_word(word: u64, channels: usize, gains: &[u32; 4], at: usize, sums: &mut [i32])
    requires few { channels ≤ 4 }
    requires gains { All (λ gain. gain ≤ unit_gain) gains.now }
    requires room { at + channels ≤ length sums.old }
    requires sums { (k : ℕ) → at ≤ k → unsigned_abs (sum_at sums.old k) ≤ most_sum }
    ensures { AddsWord gains.now channels word at sums.old sums.new }
{
    for channel in 0..channels {
        sums[at + channel] += scaled_sample(unpack(word, channel as u16), gains[channel]);
    }
}

/// Adds the frames of these words to the sums from the first on.
#[inline(always)]
fn add_block(words: &[u64], channels: usize, gains: &[u32; 4], sums: &mut [i32])
    requires few { channels ≤ 4 }
    requires gains { All (λ gain. gain ≤ unit_gain) gains.now }
    requires room { channels * length words.now ≤ length sums.old }
    requires sums { AreWithin most_sum sums.old }
    ensures { AddsWords gains.now channels words.now sums.old sums.new }
{
    let mut at = 0;
    for place in 0..words.len() {
        add_word(words[place], channels, gains, at, sums);
        at += channels;
    }
}

/// Adds the first `count` frames of a store to the sums: their places in the store are their places in the period.
#[inline(always)]
fn add_words<E: EngineSide>(
    store: &mut E,
    count: u32,
    channels: usize,
    gains: &[u32; 4],
    sums: &mut [i32],
)
    requires few { channels ≤ 4 }
    requires gains { All (λ gain. gain ≤ unit_gain) gains.now }
    requires seen { count ≤ (E.state store.old).seen }
    requires room { channels * count ≤ length sums.old }
    requires sums { AreWithin most_sum sums.old }
    ensures { AddsStore E.moves E.state gains.now channels count store.old store.new sums.old sums.new }
{
    let mut block = [0; BLOCK as usize];
    let mut place = 0;
    while place < count {
        let size = (count - place).min(BLOCK);
        let words = &mut block[..size as usize];
        store.read(place, words);
        let (_, rest) = sums.split_at_mut(channels * place as usize);
        add_block(words, channels, gains, rest);
        place += size;
    }
}

impl<E: EngineSide> StreamEntry<E> {
    /// Adds the frames that were picked to the sums of a period of `channels` channels.
    fn add_picked(&mut self, channels: usize, sums: &mut [i32])
        requires some { 1 ≤ channels }
        requires few { channels ≤ 4 }
        requires addable { IsAddable E.state channels (length sums.old) self.old }
        requires sums { AreWithin most_sum sums.old }
        ensures { AddsEntry E.moves E.state channels self.old self.new sums.old sums.new }
    {
        let (picked, gains) = (self.picked, self.gains);
        match channels {
            1 => add_words(&mut self.store, picked, 1, &gains, sums),
            2 => add_words(&mut self.store, picked, 2, &gains, sums),
            3 => add_words(&mut self.store, picked, 3, &gains, sums),
            _ => add_words(&mut self.store, picked, 4, &gains, sums),
        }
    }
}

/// Makes the sums those of all frames that were picked, for a period of `channels` channels.
pub fn add_all<E: EngineSide>(all: &mut [StreamEntry<E>], channels: usize, sums: &mut [i32])
    requires some { 1 ≤ channels }
    requires few { channels ≤ 4 }
    requires count { length all.old ≤ CLIENTS }
    requires addable { All (IsAddable E.state channels (length sums.old)) all.old }
    ensures adds { Threads (AddsEntry E.moves E.state channels) all.old all.new
        (replicate (length sums.old) (pos 0)) sums.new }
    ensures within { AreWithin sum_limit sums.new }
{
    sums.fill(0);
    for entry in all.iter_mut() {
        entry.add_picked(channels, sums);
    }
}
