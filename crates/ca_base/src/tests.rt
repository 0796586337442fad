//! Each object once with ample memory, and readers and writers that fail in mid-stream.

use crate::{
    Bytes, Failed, MemSink, MemSource, Sink, Source, StdSink, StdSource, Text, Words, read_once,
    write_once,
};
use std::io::{self, Error, ErrorKind, Read, Write};
use std::test::Fail;

#[test]
fn a_source_in_memory(rt: HostRuntime) -> Result<(), Fail> {
    let bytes = Bytes::from_slice(rt.alloc(), &[1, 2, 3])?;
    let mut source = MemSource::new(bytes, [2].to_vec(rt.alloc())?);
    let mut buf = [0u8; 2];
    assert_eq!(rt; source.read(&mut buf), Ok(2));
    assert_eq!(rt; buf, [1, 2]);
    assert_eq!(rt; source.read(&mut buf), Err(Failed));
    assert_eq!(rt; source.read(&mut buf), Ok(1));
    assert_eq!(rt; buf, [3, 2]);
    assert_eq!(rt; source.read(&mut buf), Ok(0));
    assert_eq!(rt; source.faults(), 1);
    Ok(())
}

#[test]
fn a_sink_in_memory(rt: HostRuntime) -> Result<(), Fail> {
    let mut sink = MemSink::new(rt.alloc(), 3, [1].to_vec(rt.alloc())?)?;
    assert_eq!(rt; sink.write(&[1, 2]), Err(Failed));
    assert_eq!(rt; sink.write(&[1, 2]), Ok(2));
    assert_eq!(rt; sink.write(&[3, 4]), Ok(1));
    assert_eq!(rt; sink.write(&[4]), Err(Failed));
    assert_eq!(rt; sink.written(), [1, 2, 3].as_slice());
    assert_eq!(rt; sink.faults(), 2);
    Ok(())
}

#[test]
fn bytes_and_their_capacity(rt: HostRuntime) -> Result<(), Fail> {
    let mut bytes = Bytes::with_capacity(rt.alloc(), 2)?;
    bytes.append_reserved(&[1]);
    bytes.append(&[2])?;
    bytes.reserve(2)?;
    bytes.append(&[3, 4])?;
    assert_eq!(rt; bytes.as_slice(), [1, 2, 3, 4].as_slice());
    bytes.clear();
    assert_eq!(rt; bytes.len(), 0);
    Ok(())
}

#[test]
fn a_text_has_its_bytes(rt: HostRuntime) {
    assert_eq!(rt; Text::new(b"Speakers").as_bytes(), b"Speakers".as_slice());
    assert_eq!(rt; Text::new(b"").as_bytes(), b"".as_slice());
}

#[test]
fn the_words_of_a_line(rt: HostRuntime) -> Result<(), Fail> {
    let mut words = Words::new(rt.alloc());
    words.push("replay")?;
    words.push("")?;
    assert_eq!(rt; words.len(), 2);
    assert_eq!(rt; words.get(0), Some("replay"));
    assert_eq!(rt; words.get(1), Some(""));
    assert_eq!(rt; words.get(2), None);
    Ok(())
}

/// Gives a 7, after one interruption, and then fails.
#[derive(Drop)]
struct Faulty {
    calls: u8,
}

impl Read for Faulty {
    fn read(&mut self, buf: &mut [u8]) -> io::Result<usize> {
        self.calls = self.calls.saturating_add(1);
        match (self.calls, buf) {
            (1, _) => Err(Error::from(ErrorKind::Interrupted)),
            (2, [first, ..]) => {
                *first = 7;
                Ok(1)
            }
            _ => Err(Error::from(ErrorKind::BrokenPipe)),
        }
    }
}

impl Write for Faulty {
    fn write(&mut self, buf: &[u8]) -> io::Result<usize> {
        self.calls = self.calls.saturating_add(1);
        match self.calls {
            1 => Err(Error::from(ErrorKind::Interrupted)),
            2 => Ok(buf.len()),
            _ => Err(Error::from(ErrorKind::BrokenPipe)),
        }
    }

    fn flush(&mut self) -> io::Result<()> {
        Ok(())
    }
}

#[test]
fn one_read_and_one_write(rt: HostRuntime) {
    let mut reader = Faulty { calls: 0 };
    let mut buf = [0u8; 2];
    assert_eq!(rt; read_once(&mut reader, &mut buf), Some(1));
    assert_eq!(rt; buf, [7, 0]);
    assert_eq!(rt; read_once(&mut reader, &mut buf), None);
    let mut writer = Faulty { calls: 0 };
    assert_eq!(rt; write_once(&mut writer, &[1, 2]), Some(2));
    assert_eq!(rt; write_once(&mut writer, &[3]), None);
}

#[test]
fn a_reader_that_fails_in_mid_stream(rt: HostRuntime) {
    let mut source = StdSource::new(Faulty { calls: 0 });
    let mut buf = [0u8; 2];
    assert_eq!(rt; source.read(&mut buf), Ok(1));
    assert_eq!(rt; buf, [7, 0]);
    assert_eq!(rt; source.faults(), 0);
    assert_eq!(rt; source.read(&mut buf), Err(Failed));
    assert_eq!(rt; source.read(&mut buf), Err(Failed));
    assert_eq!(rt; source.faults(), 2);
}

#[test]
fn a_writer_that_fails_in_mid_stream(rt: HostRuntime) -> Result<(), Fail> {
    let mut sink = StdSink::new(rt.alloc(), Faulty { calls: 0 })?;
    assert_eq!(rt; sink.write(&[1, 2]), Ok(2));
    assert_eq!(rt; sink.flush(), Ok(()));
    assert_eq!(rt; sink.write(&[3]), Ok(1));
    assert_eq!(rt; sink.faults(), 0);
    assert_eq!(rt; sink.flush(), Err(Failed));
    assert_eq!(rt; sink.faults(), 1);
    Ok(())
}

#[test]
fn a_writer_gets_what_is_flushed(rt: HostRuntime) -> Result<(), Fail> {
    let mut out = Vec::new(rt.alloc());
    let piece = vec![in rt.alloc(); 5u8; 40000]?;
    let mut sink = StdSink::new(rt.alloc(), &mut out)?;
    assert_eq!(rt; sink.write(&piece), Ok(40000));
    assert_eq!(rt; sink.write(&piece), Ok(40000));
    assert_eq!(rt; sink.flush(), Ok(()));
    drop(sink);
    assert_eq!(rt; out.len(), 80000);
    Ok(())
}

fn is_send<T: Send>(_value: &T) {}

#[test]
fn objects_pass_to_threads(rt: HostRuntime) -> Result<(), Fail> {
    is_send(&MemSource::new(Bytes::new(rt.alloc()), Vec::new(rt.alloc())));
    is_send(&MemSink::new(rt.alloc(), 1, Vec::new(rt.alloc()))?);
    is_send(&StdSource::new(rt.stdin()));
    is_send(&StdSink::new(rt.alloc(), rt.stdout())?);
    Ok(())
}
