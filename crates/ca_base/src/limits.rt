//! Every limit of the service, each with its reason.

/// The longest text, in bytes. Names of the field fit, and a text is copied by value.
pub const MAX_TEXT: usize = 256;

/// The longest format, in bytes: its count in a frame has two bytes.
pub const MAX_FORMAT: usize = 65_535;

/// The longest name of a connection, in bytes: it becomes a part of a session's identifier, which is a text.
pub const MAX_CONNECTION_NAME: usize = 64;

/// Connections, numbered from 1: a number fits in a byte, and a table of all of them is small.
pub const CONNECTIONS: u8 = 32;

/// Clients that are live at once: their tables are taken when the service begins.
pub const CLIENTS: usize = 64;

/// Sessions that are live at once: their tables are taken when the service begins.
pub const SESSIONS: usize = 48;

/// Endpoints that are there at once: their tables are taken when the service begins.
pub const ENDPOINTS: usize = 8;

/// Notices that a connection keeps: older ones are counted as lost.
pub const NOTICES: usize = 256;

/// The longest body of a frame, in bytes (4 MiB): what is read ahead of an event is bounded by it.
pub const LONGEST_BODY: usize = 4_194_304;

/// The bytes of a frame's length.
pub const LENGTH_SIZE: usize = 4;

/// How many bytes a read asks for at most (64 KiB): a call of the system costs little beside them.
pub const READ_SIZE: usize = 65_536;

/// How many bytes of output wait for one write of the system (64 KiB): its call costs little beside them.
pub const WRITE_SIZE: usize = 65_536;

/// How many bytes of an input are read at most (1 TiB): counts of bytes stay far below 64 bits.
pub const LONGEST_INPUT: u64 = 1 << 40;

/// Where counts of things ever made and of frames ever moved end: sums of two of them fit in 64 bits.
pub const MAX_COUNT: u64 = 1 << 62;

/// The highest level, which changes nothing: products of four levels fit in 64 bits.
pub const MAX_LEVEL: u32 = 65_536;

/// The shared period in units of 100 ns (10 ms, as on the systems of the field).
pub const SHARED_PERIOD: u64 = 100_000;

/// The shortest period of an exclusive stream in units of 100 ns (3 ms, as on the systems of the field).
pub const MIN_EXCLUSIVE_PERIOD: u64 = 30_000;

/// The longest period of an exclusive stream in units of 100 ns (5 s, IAudioClient::Initialize).
pub const MAX_EXCLUSIVE_PERIOD: u64 = 50_000_000;

/// The longest buffer of an exclusive stream in units of 100 ns (2 s, IAudioClient::Initialize).
pub const MAX_EXCLUSIVE_BUFFER: u64 = 20_000_000;

/// The longest time in units of 100 ns: a REFERENCE_TIME is signed.
pub const MAX_TIME: u64 = (1 << 63) - 1;

/// The largest store of a stream in words of 64 bits (8 MiB): two seconds of any format fit.
pub const MAX_STORE_WORDS: u32 = 1_048_576;

/// Seconds of sound that a shared buffer holds at most: a larger one is cut to it.
pub const MAX_SHARED_BUFFER_SECONDS: u32 = 2;

/// Where the tally's counts of frames saturate: a lower bound would have to be proved from what clients that are gone
/// had released.
pub const MAX_TALLY: u128 = u128::MAX;
