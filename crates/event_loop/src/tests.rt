use super::*;
use ca_base::{Bytes, Failed, Hr, MemSink, MemSource, NoMemory, Source};
use call_wire::{Desk, Event, Reply};
use std::alloc::Global;
use std::process::Abort;
use std::test::Fail;

/// Answers each event with one byte.
#[derive(Drop)]
struct Toy;

impl Desk for Toy {
    ghost answers = { λ old e r new. Unit {0} };

    ghost stays = { λ old new. Unit {0} };

    ghost reply_room = { λ _ _. 1 };

    fn ask(&mut self, ev: &Event, out: &mut Reply) -> Result<(), NoMemory> {
        let _ = ev;
        out.payload.append(&[7])?;
        out.kind = 4;
        out.conn = 2;
        out.tag = 3;
        out.result = Hr::S_FALSE;
        Ok(())
    }
}

/// Gives at most `size` bytes at a time.
#[derive(Drop)]
struct Drip {
    source: MemSource,
    size: usize,
}

impl Source for Drip {
    ghost faults = { λ s. ⟦<MemSource as Source>⟧.faults s.source };

    ghost left = { λ s. ⟦<MemSource as Source>⟧.left s.source };

    fn read(&mut self, buf: &mut [u8]) -> Result<usize, Failed> {
        let size = self.size.max(1).min(buf.len());
        self.source.read(&mut buf[..size])
    }
}

/// A period of endpoint 1: five bytes, the kind 4, and the number.
const PERIOD: [u8; 9] = [5, 0, 0, 0, 4, 1, 0, 0, 0];

/// The toy's reply: eleven bytes, kind, connection, tag, result, and the payload.
const REPLY: [u8; 15] = [11, 0, 0, 0, 4, 2, 3, 0, 0, 0, 1, 0, 0, 0, 7];

/// A ReleaseBuffer of connection 1 and client 2, up to its 200,000 bytes of data.
const RELEASE: [u8; 27] = [
    0x57, 0x0d, 3, 0, 3, 1, 0, 0, 0, 0, 33, 2, 0, 0, 0, 0, 0, 0, 0, 80, 195, 0, 0, 0, 0, 0, 0,
];

/// `periods` periods and then the rest, in pieces of `size` bytes at most, of which one read fails, and one write.
#[derive(Drop)]
struct Run<'a> {
    periods: usize,
    rest: &'a [u8],
    size: usize,
    read: u64,
    write: u64,
}

/// These bytes, `count` times.
fn repeated(alloc: Global, bytes: &[u8], count: usize) -> Result<Bytes, NoMemory> {
    let mut all = Bytes::new(alloc);
    for _ in 0..count {
        all.append(bytes)?;
    }
    Ok(all)
}

/// Runs the loop over the toy, and tests how it ends and that `replies` replies were written.
fn expect(
    rt: &impl Abort,
    alloc: Global,
    run: &Run,
    end: LoopEnd,
    replies: usize,
) -> Result<(), Fail> {
    let mut bytes = repeated(alloc, &PERIOD, run.periods)?;
    bytes.append(run.rest)?;
    let mut input = Drip {
        source: MemSource::new(bytes, vec![in alloc; run.read]?),
        size: run.size,
    };
    let mut output = MemSink::new(alloc, 200_000, vec![in alloc; run.write]?)?;
    let found = answer_events(alloc, &mut input, &mut output, &mut Toy, 1);
    assert_eq!(rt; found, end);
    let wanted = repeated(alloc, &REPLY, replies)?;
    assert_eq!(rt; output.written(), wanted.as_slice());
    Ok(())
}

#[test]
fn ends_as_its_input_says(rt: HostRuntime) -> Result<(), Fail> {
    // what the rows of whole events end with is a law over any desk
    whole_input_completes::<Toy>();
    let alloc = rt.alloc();
    let cut = LoopEnd::Malformed { place: 18 };
    let rows: [(usize, &[u8], LoopEnd); 4] = [
        (0, &[], LoopEnd::Done),
        (9000, &[], LoopEnd::Done),
        (2, &[0, 0, 0, 0], cut),
        (2, &[5, 0, 0], cut),
    ];
    for (periods, rest, end) in &rows {
        for size in [1, 7, 100_000] {
            let run = Run {
                periods: *periods,
                rest,
                size,
                read: 0,
                write: 0,
            };
            expect(&rt, alloc, &run, *end, *periods)?;
        }
    }
    Ok(())
}

#[test]
fn ends_at_a_fault(rt: HostRuntime) -> Result<(), Fail> {
    let alloc = rt.alloc();
    let rows = [
        (100_000, 2, 0, LoopEnd::ReadFault, 3),
        (1, 10, 0, LoopEnd::ReadFault, 1),
        (100_000, 0, 2, LoopEnd::WriteFault, 1),
        (1, 0, 3, LoopEnd::WriteFault, 2),
    ];
    for (size, read, write, end, replies) in &rows {
        let run = Run {
            periods: 3,
            rest: &[5],
            size: *size,
            read: *read,
            write: *write,
        };
        expect(&rt, alloc, &run, *end, *replies)?;
    }
    Ok(())
}

#[test]
fn answers_a_frame_of_many_pieces(rt: HostRuntime) -> Result<(), Fail> {
    let alloc = rt.alloc();
    let mut rest = RELEASE.to_vec(alloc)?;
    rest.extend_from_slice(&vec![in alloc; 5u8; 200_000]?)?;
    rest.extend_from_slice(&PERIOD)?;
    let run = Run {
        periods: 1,
        rest: &rest,
        size: 100_000,
        read: 0,
        write: 0,
    };
    expect(&rt, alloc, &run, LoopEnd::Done, 3)
}
