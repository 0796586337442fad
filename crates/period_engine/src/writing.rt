//! The sums of a period as samples.

ghost use Rattle.std.specs.Prelude.{◌≡◌, ◌*◌, length};
ghost use Rattle.volume_stack.specs.Sums.{AreWithin, sum_limit};
ghost use Rattle.period_engine.specs.Sounds.{AreEnds};
ghost use Rattle.period_engine.specs.Written.{HoldSamples};

use volume_stack::sample_of;

/// Writes each sum, times its channel's gain, as a sample of two bytes, little-endian.
pub fn write_samples(sums: &[i32], ends: &[u32], bytes: &mut [u8])
    requires ends { AreEnds ends.now }
    requires sums { AreWithin sum_limit sums.now }
    requires size { length bytes.old ≡ 2 * length sums.now }
    ensures { HoldSamples ends.now sums.now bytes.new }
{
    let mut channel = 0;
    for place in 0..sums.len() {
        let sample = sample_of(sums[place] as i64, ends[channel]);
        let [low, high] = sample.cast_unsigned().to_le_bytes();
        bytes[2 * place] = low;
        bytes[2 * place + 1] = high;
        channel += 1;
        if channel == ends.len() {
            channel = 0;
        }
    }
}
