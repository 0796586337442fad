//! Frames: a word of 64 bits in a store, bytes in a call and at a device.

ghost use Rattle.std.specs.Prelude.{◌≡◌, ℕ, ◌+◌, ◌*◌, ◌/◌, ◌%◌, ◌<◌, ◌≤◌, length};
ghost use Rattle.std.specs.Int.{cast_unsigned, w16};
ghost use Rattle.wave_format.specs.Frame.{frame_bytes, frame_from, frame_of, sample_at, word_of};

/// A sample in the low bits of a word.
fn lane(sample: i16) -> u64
    ensures { result ≡ cast_unsigned w16 sample }
{
    sample.cast_unsigned() as u64
}

/// The word of a frame of 1 to 4 samples.
pub fn pack(samples: &[i16]) -> u64
    requires some { 0 < length samples.now }
    requires few { length samples.now ≤ 4 }
    ensures { result ≡ word_of samples.now }
{
    match samples {
        [a] => lane(*a),
        [a, b] => lane(*a) + 0x1_0000 * lane(*b),
        [a, b, c] => lane(*a) + 0x1_0000 * (lane(*b) + 0x1_0000 * lane(*c)),
        [a, b, c, d] => {
            lane(*a) + 0x1_0000 * (lane(*b) + 0x1_0000 * (lane(*c) + 0x1_0000 * lane(*d)))
        }
        _ => unreachable!(),
    }
}

/// The sample of a channel, 0 to 3, of a frame's word.
pub fn unpack(word: u64, channel: u16) -> i16
    requires { channel < 4 }
    ensures { result ≡ sample_at word channel }
{
    ((word >> (16 * channel) & 0xffff) as u16).cast_signed()
}

/// The word of a frame's bytes: 1 to 4 samples of two bytes, little-endian.
pub fn word_from_bytes(frame: &[u8]) -> u64
    requires some { 0 < length frame.now }
    requires few { length frame.now ≤ 8 }
    requires whole { length frame.now % 2 ≡ 0 }
    ensures { result ≡ word_of (frame_from frame.now) }
{
    match frame {
        [a, b] => u16::from_le_bytes([*a, *b]) as u64,
        [a, b, c, d] => u32::from_le_bytes([*a, *b, *c, *d]) as u64,
        [a, b, c, d, e, f] => {
            u32::from_le_bytes([*a, *b, *c, *d]) as u64
                + 0x1_0000_0000 * u16::from_le_bytes([*e, *f]) as u64
        }
        [a, b, c, d, e, f, g, h] => u64::from_le_bytes([*a, *b, *c, *d, *e, *f, *g, *h]),
        _ => unreachable!(),
    }
}

/// Writes the first samples of a frame's word as bytes, little-endian: 1 to 4 of two bytes, which fill `out`.
pub fn bytes_of_word(word: u64, out: &mut [u8])
    requires some { 0 < length out.old }
    requires few { length out.old ≤ 8 }
    requires whole { length out.old % 2 ≡ 0 }
    ensures { out.new ≡ frame_bytes (frame_of (length out.old / 2) word) }
{
    let [a, b, c, d, e, f, g, h] = word.to_le_bytes();
    match out.len() {
        2 => out.copy_from_slice(&[a, b]),
        4 => out.copy_from_slice(&[a, b, c, d]),
        6 => out.copy_from_slice(&[a, b, c, d, e, f]),
        _ => out.copy_from_slice(&[a, b, c, d, e, f, g, h]),
    }
}
