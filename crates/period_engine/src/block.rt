//! Scratch for the periods of an endpoint.

ghost use Rattle.std.specs.Prelude.{◌≡◌, ◌*◌, IfOk};
ghost use Rattle.period_engine.specs.Sounds.{IsBlockFor};

use ca_base::NoMemory;
use std::alloc::Global;
use std::marker::Model;

/// Scratch for a period: its sums, the bytes that its device gets or gave, and the words of a packet, the first of
/// which is its head. Its memory is taken when it is made.
#[derive(Drop)]
pub struct Block {
    pub(crate) sums: Vec<i32>,
    pub(crate) bytes: Vec<u8>,
    pub(crate) words: Vec<u64>,
}

impl Model for Block {
    ghost use Rattle.std.specs.Prelude.{◌≡◌, ◌+◌, ◌-◌, ◌*◌, vec_len};
    ghost use Rattle.period_engine.specs.Sounds.{BlockState, IsWholeBlock};

    ghost Value = { BlockState };

    ghost view = { λ b. record {
      samples = vec_len b.sums;
      frames = vec_len b.words - 1;
      bytes = b.bytes.items;
    } };

    ghost invariant = { λ b. IsWholeBlock (vec_len b.sums) (vec_len b.bytes) (vec_len b.words) };
}

impl Block {
    /// A block for `frames` frames of `channels` samples.
    pub fn new(alloc: Global, frames: u32, channels: u16) -> Result<Block, NoMemory>
        ensures { IfOk result (IsBlockFor frames channels) }
    {
        let samples = frames as usize * channels as usize;
        let mut sums = Vec::new(alloc);
        sums.resize(samples, 0)?;
        let mut bytes = Vec::new(alloc);
        bytes.resize(2 * samples, 0)?;
        let mut words = Vec::new(alloc);
        words.resize(frames as usize + 1, 0)?;
        Ok(Block { sums, bytes, words })
    }

    /// The frames of the longest period that fits in it.
    pub fn frames(&self) -> u32
        ensures { result ≡ self.now.frames }
    {
        (self.words.len() - 1) as u32
    }
}
