//! Laws of the definitions. Each function here does nothing: its contract is the law.

ghost use Rattle.std.specs.Prelude.{◌≡◌, ℕ, ℤ, ◌+◌, ◌*◌, ◌%◌, ◌^◌, ◌<◌, ◌≤◌, true, false, List, Ok};
ghost use Rattle.std.specs.Prelude.{length, slice_index_or};
ghost use Rattle.std.specs.List.{AllByRecursion, flat_map};
ghost use Rattle.wave_format.specs.declared.format.Format.{Format};
ghost use Rattle.wave_format.specs.Fields.{fields_of};
ghost use Rattle.wave_format.specs.Format.{IsValid, format_at, plain_spelling, spelling};
ghost use Rattle.wave_format.specs.Frame.{AreBytes, IsFrame, frame_bytes, frame_from, frame_of, frames_from};
ghost use Rattle.wave_format.specs.Frame.{sample_at, word_of};

/// The bytes of a valid format are read as that format, with tag 1 also if cbSize is another. So no two formats have
/// the same bytes.
pub fn written_format_is_read()
    ensures written { (format : Format) → IsValid format → format.mask < 2 ^ 32 →
        format_at (spelling format) ≡ Ok format }
    ensures any_extra_size { (format : Format) (extra : ℕ) → IsValid format → format.extensible ≡ false →
        extra < 2 ^ 16 → format_at (plain_spelling extra format) ≡ Ok format }
    ensures apart { (a b : Format) → IsValid a → IsValid b → a.mask < 2 ^ 32 → b.mask < 2 ^ 32 →
        spelling a ≡ spelling b → a ≡ b }
{}

/// What is read is a valid format, and the bytes are its own but for cbSize with tag 1. Its own bytes are read as the
/// same format.
pub fn read_format_is_written()
    ensures valid { (bytes : List ℕ) (format : Format) → format_at bytes ≡ Ok format → IsValid format }
    ensures plain { (bytes : List ℕ) (format : Format) → AreBytes bytes → format_at bytes ≡ Ok format →
        format.extensible ≡ false → bytes ≡ plain_spelling (fields_of bytes).extra format }
    ensures extensible { (bytes : List ℕ) (format : Format) → AreBytes bytes → format_at bytes ≡ Ok format →
        format.extensible ≡ true → bytes ≡ spelling format }
    ensures again { (bytes : List ℕ) (format : Format) → AreBytes bytes → format_at bytes ≡ Ok format →
        format_at (spelling format) ≡ Ok format }
{}

/// The word of a frame holds the frame: each channel's sample in its place, and nothing above.
pub fn word_holds_the_frame()
    ensures frame { (channels : ℕ) (samples : List ℤ) → IsFrame channels samples →
        frame_of channels (word_of samples) ≡ samples }
    ensures sample { (channels channel : ℕ) (samples : List ℤ) (other : ℤ) → IsFrame channels samples →
        channel < channels → sample_at (word_of samples) channel ≡ slice_index_or samples channel other }
    ensures fits { (channels : ℕ) (samples : List ℤ) → IsFrame channels samples →
        word_of samples < 2 ^ (16 * channels) }
{}

/// The first samples of any word are a frame: each channel's sample in its place. Its word is the low part of that
/// word.
pub fn word_is_its_frame()
    ensures frame { (channels word : ℕ) → IsFrame channels (frame_of channels word) }
    ensures sample { (channels channel word : ℕ) (other : ℤ) → channel < channels →
        slice_index_or (frame_of channels word) channel other ≡ sample_at word channel }
    ensures word { (channels word : ℕ) → word_of (frame_of channels word) ≡ word % 2 ^ (16 * channels) }
{}

/// A frame's bytes are read as the frame, and so are those of frames one after another.
pub fn bytes_of_frames_are_read()
    ensures one { (channels : ℕ) (samples : List ℤ) → IsFrame channels samples →
        frame_from (frame_bytes samples) ≡ samples }
    ensures size { (channels : ℕ) (samples : List ℤ) → IsFrame channels samples →
        length (frame_bytes samples) ≡ channels * 2 }
    ensures many { (channels : ℕ) (frames : List (List ℤ)) → AllByRecursion (IsFrame channels) frames →
        frames_from (length frames) channels (flat_map frame_bytes frames) ≡ frames }
{}

/// Whole frames that are read from bytes have these bytes.
pub fn frames_of_bytes_are_written()
    ensures one { (channels : ℕ) (bytes : List ℕ) → AreBytes bytes → length bytes ≡ channels * 2 →
        IsFrame channels (frame_from bytes) × (frame_bytes (frame_from bytes) ≡ bytes) }
    ensures count { (count channels : ℕ) (bytes : List ℕ) → length (frames_from count channels bytes) ≡ count }
    ensures many { (count channels : ℕ) (bytes : List ℕ) → AreBytes bytes → length bytes ≡ count * (channels * 2) →
        AllByRecursion (IsFrame channels) (frames_from count channels bytes)
        × (flat_map frame_bytes (frames_from count channels bytes) ≡ bytes) }
{}
