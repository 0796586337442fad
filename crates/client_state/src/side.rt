//! A client's side of its stream.

ghost use Rattle.std.specs.Prelude.{◌≡◌};
ghost use Rattle.client_state.specs.Rows.{padding_of, is_render};

use ca_base::Dir;

/// What a client knows of its stream (IAudioClient). A client that isn't initialised has a buffer of 0 frames.
#[derive(Clone, Copy, Debug, PartialEq, Eq)]
pub struct ClientSide {
    pub dir: Dir,
    pub exclusive: bool,
    /// Whether the stream is event-driven.
    pub event: bool,
    /// The frames of the buffer (IAudioClient::GetBufferSize).
    pub buffer: u32,
    /// The frames of a period.
    pub period: u32,
    /// The frames that the store holds.
    pub store_frames: u32,
    /// The bytes of a frame (WAVEFORMATEX, nBlockAlign).
    pub block: u32,
    /// The frames leased by a GetBuffer that isn't released yet.
    pub lease: Option<u32>,
    /// How many frames were ever released.
    pub released: u64,
}

impl ClientSide {
    /// Whether the stream plays.
    pub fn is_render(&self) -> bool
        ensures { result ≡ is_render self.now.dir }
    {
        match self.dir {
            Dir::Render => true,
            Dir::Capture => false,
        }
    }

    /// The frames of `words` words of the store, without the header words of packets.
    pub fn padding(&self, words: u32) -> u32
        ensures { result ≡ padding_of self.now words }
    {
        match self.dir {
            Dir::Render => words,
            Dir::Capture => {
                let packets = words as u64 / (self.period as u64 + 1);
                (packets * self.period as u64) as u32
            }
        }
    }
}
