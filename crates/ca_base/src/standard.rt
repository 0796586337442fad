//! A source and a sink over a reader and a writer of the system, as standard input and standard output.

ghost use Rattle.std.specs.Prelude.{◌≡◌, ◌<◌, ◌≤◌, [], length, take, None, IfOk, IfSome, IfNone, OnOk, OnErr};
ghost use Rattle.std.specs.Io.KnownBytes.{Appends, Consumes, IsAtEnd, Keeps};
ghost use Rattle.ca_base.specs.Faults.{Counts};

use crate::limits::WRITE_SIZE;
use crate::{Failed, Faults, NoMemory, Sink, Source};
use std::alloc::Global;
use std::io::{BufWriter, ErrorKind, Read, Write};
use std::marker::Model;

/// A source over a reader. It has no buffer of its own: each read is one of the reader's.
#[derive(Drop)]
pub struct StdSource<R: Read + Drop> {
    reader: R,
    faults: Faults,
}

impl<R: Read + Drop> Model for StdSource<R> {
    ghost use Rattle.ca_base.specs.Standard.{ReaderState};

    ghost Value = { ReaderState };

    ghost view = { λ s. record { bytes = R.remaining s.reader; faults = s.faults } };
}

impl<R: Read + Drop> StdSource<R> {
    /// A source over this reader.
    pub fn new(reader: R) -> StdSource<R>
        ensures { result ≡ record { bytes = R.remaining reader; faults = 0 } }
    {
        StdSource {
            reader,
            faults: Faults::new(),
        }
    }

    /// How many calls have failed. The count saturates at 2^64 - 1.
    pub fn faults(&self) -> u64
        ensures { result ≡ self.now.faults }
    {
        self.faults.count()
    }
}

impl<R: Read + Drop> Source for StdSource<R> {
    ghost faults = { λ s. s.faults };

    ghost left = { λ _. None };

    /// Reads once. A read that a signal interrupts is tried again, and any other error is a fault.
    fn read(&mut self, buf: &mut [u8]) -> Result<usize, Failed>
        requires { 0 < length buf.old }
        ensures count { IfOk result (λ n. n ≤ length buf.new) }
        ensures cause { Counts result self.old.faults self.new.faults }
        ensures gives { IfOk result (λ n. Consumes self.old.bytes self.new.bytes (take n buf.new)) }
        ensures end { IfOk result (λ n. n ≡ 0 → IsAtEnd self.new.bytes) }
        ensures err { OnErr result (Keeps self.old.bytes self.new.bytes) }
    {
        match read_once(&mut self.reader, buf) {
            Some(count) => Ok(count),
            None => Err(self.faults.raise()),
        }
    }
}

/// A sink over a writer, with a buffer of 64 KiB: the writer is called if a piece doesn't fit into the buffer, and by
/// `flush`. A sink that is dropped hands on what waits there, and its failure is lost: flush it before.
#[derive(Drop)]
pub struct StdSink<W: Write + Drop> {
    out: BufWriter<W>,
    faults: Faults,
}

impl<W: Write + Drop> Model for StdSink<W> {
    ghost use Rattle.std.specs.Io.Buffered.{writer_buffer, writer_contents};
    ghost use Rattle.ca_base.specs.Standard.{WriterState};

    ghost Value = { WriterState };

    ghost view = { λ s. record {
      bytes = writer_contents W.contents s.out;
      waiting = writer_buffer s.out;
      faults = s.faults;
    } };
}

impl<W: Write + Drop> StdSink<W> {
    /// The buffer's size in bytes.
    pub const CAPACITY: usize = WRITE_SIZE;

    /// A sink over this writer. The memory of the buffer is taken now.
    pub fn new(alloc: Global, out: W) -> Result<StdSink<W>, NoMemory>
        ensures bytes { IfOk result (λ s. Keeps (W.contents out) s.bytes) }
        ensures waiting { IfOk result (λ s. s.waiting ≡ []) }
        ensures faults { IfOk result (λ s. s.faults ≡ 0) }
    {
        match BufWriter::with_capacity(alloc, Self::CAPACITY, out) {
            Ok(out) => Ok(StdSink {
                out,
                faults: Faults::new(),
            }),
            Err(_) => Err(NoMemory),
        }
    }

    /// Hands all that was written to the writer, and flushes that.
    pub fn flush(&mut self) -> Result<(), Failed>
        ensures cause { Counts result self.old.faults self.new.faults }
        ensures ok { OnOk result (self.new.waiting ≡ []) }
        ensures keeps { Keeps self.old.bytes self.new.bytes }
    {
        match self.out.flush() {
            Ok(()) => Ok(()),
            Err(_) => Err(self.faults.raise()),
        }
    }

    /// How many calls have failed. The count saturates at 2^64 - 1.
    pub fn faults(&self) -> u64
        ensures { result ≡ self.now.faults }
    {
        self.faults.count()
    }
}

impl<W: Write + Drop> Sink for StdSink<W> {
    ghost faults = { λ s. s.faults };

    ghost written = { λ _. None };

    /// Puts the piece into the buffer, or a part of it. A write that a signal interrupts is tried again; any other
    /// error, and a writer that takes nothing, is a fault.
    fn write(&mut self, piece: &[u8]) -> Result<usize, Failed>
        requires { 0 < length piece.now }
        ensures some { IfOk result (λ n. 0 < n) }
        ensures count { IfOk result (λ n. n ≤ length piece.now) }
        ensures cause { Counts result self.old.faults self.new.faults }
        ensures takes { IfOk result (λ n. Appends self.old.bytes self.new.bytes (take n piece.now)) }
        ensures err { OnErr result (Keeps self.old.bytes self.new.bytes) }
    {
        match write_once(&mut self.out, piece) {
            Some(count) => Ok(count),
            None => Err(self.faults.raise()),
        }
    }
}

/// One read, tried again if a signal interrupts it. `None` if it fails.
#[tactic(auto, using(crate::proofs::KnownBytes::after_tries))]
pub fn read_once<R: Read>(reader: &mut R, buf: &mut [u8]) -> Option<usize>
    requires { 0 < length buf.old }
    ensures count { IfSome result (λ n. n ≤ length buf.new) }
    ensures gives { IfSome result (λ n. Consumes (R.remaining reader.old) (R.remaining reader.new) (take n buf.new)) }
    ensures end { IfSome result (λ n. n ≡ 0 → IsAtEnd (R.remaining reader.new)) }
    ensures none { IfNone result (Keeps (R.remaining reader.old) (R.remaining reader.new)) }
{
    for _ in 0..u64::MAX {
        match reader.read(buf) {
            Ok(count) => return Some(count),
            Err(error) if error.kind() == ErrorKind::Interrupted => {}
            Err(_) => return None,
        }
    }
    None
}

/// One write of at least one byte, tried again if a signal interrupts it. `None` if it fails or takes nothing.
#[tactic(auto, using(crate::proofs::KnownBytes::after_tries))]
pub fn write_once<W: Write>(out: &mut W, piece: &[u8]) -> Option<usize>
    ensures some { IfSome result (λ n. 0 < n) }
    ensures count { IfSome result (λ n. n ≤ length piece.now) }
    ensures takes { IfSome result (λ n. Appends (W.contents out.old) (W.contents out.new) (take n piece.now)) }
    ensures none { IfNone result (Keeps (W.contents out.old) (W.contents out.new)) }
{
    for _ in 0..u64::MAX {
        match out.write(piece) {
            Ok(0) => return None,
            Ok(count) => return Some(count),
            Err(error) if error.kind() == ErrorKind::Interrupted => {}
            Err(_) => return None,
        }
    }
    None
}
