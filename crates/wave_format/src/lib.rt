//! Formats of sound, and frames as words and as bytes.
#![tactic(auto)]

mod fields;
mod format;
mod frame;
mod laws;
pub mod layout;
#[cfg(test)]
mod tests;
mod words;

pub use format::{
    Format, FormatFault, format_length, format_tag, frames_of, read_format, write_format,
};
pub use frame::{bytes_of_word, pack, unpack, word_from_bytes};
pub use laws::{
    bytes_of_frames_are_read, frames_of_bytes_are_written, read_format_is_written,
    word_holds_the_frame, word_is_its_frame, written_format_is_read,
};
pub use words::words_of;
