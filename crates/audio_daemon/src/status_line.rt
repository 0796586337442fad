//! The line that says how the program ended.

ghost use Rattle.std.specs.Prelude.{Some};
ghost use Rattle.audio_daemon.specs.StatusLine.{line_of};

use crate::run::Status;
use std::fmt::{self, Display, Formatter, Write};

/// What the words of the command line are.
pub const USAGE: &str = "usage: audio_daemon replay FOLDER

Reads events from standard input, answers each in order, and writes the replies to standard output.
What the endpoints play is added to FOLDER/endpoint-N.pcm: frames of signed 16-bit samples, little-endian.";

/// The line of a status: that of `Done` is empty.
impl Display for Status {
    ghost output = { λ status. Some (line_of status) };

    fn fmt<W: Write>(&self, f: &mut Formatter<W>) -> fmt::Result {
        match self {
            Status::Done => Ok(()),
            Status::Usage => f.write_str(USAGE),
            Status::Malformed { place } => write!(f, "malformed at {place}"),
            Status::ReadFault => f.write_str("read fault"),
            Status::WriteFault => f.write_str("write fault"),
            Status::NoMemory => f.write_str("no memory"),
            Status::TooLong => f.write_str("input too long"),
        }
    }
}
