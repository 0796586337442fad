//! Samples added to sums, and sums as samples. An inner loop multiplies, shifts and adds, and takes no memory.

ghost use Rattle.std.specs.Prelude.{◌≡◌, ◌+◌, ◌^◌, ◌≤◌, ℕ, ◌+ℤ◌, length, unsigned_abs};
ghost use Rattle.volume_stack.specs.Scaling.{clamp16, scaled, unit_gain};
ghost use Rattle.volume_stack.specs.Sums.{sum_limit, sample_limit, AreWithin, samples_of, sums_with};

use ca_base::limits::MAX_LEVEL;

/// A sample times a gain, toward zero.
#[inline]
pub fn scaled_sample(sample: i16, gain: u32) -> i32
    requires { gain ≤ unit_gain }
    ensures exact { result ≡ scaled sample gain }
    ensures within { unsigned_abs result ≤ sample_limit }
{
    sample as i32 * gain as i32 / MAX_LEVEL as i32
}

/// A sum and a sample times a gain, toward zero.
#[inline]
fn sum_with(sum: i64, sample: i16, gain: u32) -> i64
    requires gain { gain ≤ unit_gain }
    requires sum { unsigned_abs sum ≤ sum_limit }
    ensures exact { result ≡ sum +ℤ scaled sample gain }
    ensures within { unsigned_abs result ≤ unsigned_abs sum + sample_limit }
{
    sum + scaled_sample(sample, gain) as i64
}

/// A sum times a gain, toward zero, in the range of a sample.
#[inline]
pub fn sample_of(sum: i64, gain: u32) -> i16
    requires gain { gain ≤ unit_gain }
    requires sum { unsigned_abs sum ≤ sum_limit }
    ensures { result ≡ clamp16 (scaled sum gain) }
{
    let scaled = sum * gain as i64 / MAX_LEVEL as i64;
    if scaled < -0x8000 {
        -0x8000
    } else if 0x7fff < scaled {
        0x7fff
    } else {
        scaled as i16
    }
}

/// Adds each sample, times the gain and toward zero, to its sum.
pub fn add_plain(samples: &[i16], gain: u32, sums: &mut [i64])
    requires gain { gain ≤ unit_gain }
    requires count { length samples.now ≡ length sums.old }
    requires sums { AreWithin sum_limit sums.old }
    ensures sums { sums.new ≡ sums_with gain samples.now sums.old }
    ensures within { (bound : ℕ) → AreWithin bound sums.old → AreWithin (bound + sample_limit) sums.new }
{
    for i in 0..samples.len() {
        sums[i] = sum_with(sums[i], samples[i], gain);
    }
}

/// Writes each sum, times the gain, toward zero and in the range of a sample.
pub fn out_plain(sums: &[i64], gain: u32, out: &mut [i16])
    requires gain { gain ≤ unit_gain }
    requires count { length sums.now ≡ length out.old }
    requires sums { AreWithin sum_limit sums.now }
    ensures { out.new ≡ samples_of gain sums.now }
{
    for i in 0..sums.len() {
        out[i] = sample_of(sums[i], gain);
    }
}
