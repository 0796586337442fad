//! Runs over objects in memory. What is expected is written down by hand, and was not taken from a run.

use crate::run::{Status, run};
use ca_base::{Bytes, EndpointNo, MemSink, MemSource, Words};
use device_io::MemDevices;
use std::alloc::Global;
use std::test::Fail;

/// Device event Add: endpoint 1, render, 48,000 Hz, two channels, `Speakers`.
pub const ADD: &[u8] =
    b"\x25\0\0\0\x05\x01\x01\0\0\0\0\x12\0\x01\0\x02\0\x80\xbb\0\0\0\xee\x02\0\x04\0\x10\0\0\0\x08\0Speakers";

/// Open: connection 1, process 10, `player`.
pub const OPEN: &[u8] = b"\x0e\0\0\0\x01\x01\x0a\0\0\0\x06\0player";

/// Activate on endpoint 1, tag 1.
pub const ACTIVATE: &[u8] = b"\x0c\0\0\0\x03\x01\x01\0\0\0\x05\x01\0\0\0\0";

/// Initialize of client 1: shared, duration 0, the endpoint's format, tag 2.
pub const INITIALIZE: &[u8] =
    b"\x4b\0\0\0\x03\x01\x02\0\0\0\x10\x01\0\0\0\0\0\0\0\0\0\0\0\0\0\0\0\0\0\0\0\0\0\0\0\0\0\0\0\0\0\0\0\x12\0\
      \x01\0\x02\0\x80\xbb\0\0\0\xee\x02\0\x04\0\x10\0\0\0\0\0\0\0\0\0\0\0\0\0\0\0\0\0\0\0";

/// GetBuffer of 480 frames, tag 3.
const GET_BUFFER: &[u8] = b"\x13\0\0\0\x03\x01\x03\0\0\0\x20\x01\0\0\0\0\0\0\0\xe0\x01\0\0";

/// The head of ReleaseBuffer of 480 frames with 1,920 bytes of data, tag 4.
const RELEASE: &[u8] = b"\x97\x07\0\0\x03\x01\x04\0\0\0\x21\x01\0\0\0\0\0\0\0\xe0\x01\0\0\0\0\0\0";

/// Start, tag 5.
const START: &[u8] = b"\x0f\0\0\0\x03\x01\x05\0\0\0\x17\x01\0\0\0\0\0\0\0";

/// A period of endpoint 1.
const PERIOD: &[u8] = b"\x05\0\0\0\x04\x01\0\0\0";

/// The replies to Add, Open, Activate and Initialize.
const STARTED: &[u8] =
    b"\x0a\0\0\0\x05\0\0\0\0\0\0\0\0\0\x0a\0\0\0\x01\x01\0\0\0\0\0\0\0\0\x12\0\0\0\x03\x01\x01\0\0\0\0\0\0\0\
      \x01\0\0\0\0\0\0\0\x12\0\0\0\x03\x01\x02\0\0\0\0\0\0\0\x01\0\0\0\0\0\0\0";

/// The replies to GetBuffer, ReleaseBuffer, Start and the period.
const PLAYED: &[u8] =
    b"\x0a\0\0\0\x03\x01\x03\0\0\0\0\0\0\0\x0a\0\0\0\x03\x01\x04\0\0\0\0\0\0\0\x0a\0\0\0\x03\x01\x05\0\0\0\0\0\
      \0\0\x0f\0\0\0\x04\0\0\0\0\0\0\0\0\0\xe0\x01\0\0\0";

/// 480 frames: the samples of frame i are i and -i.
fn frames(alloc: Global) -> Result<Vec<u8>, Fail> {
    let mut bytes = Vec::new(alloc);
    for i in 0..480i16 {
        bytes.extend_from_slice(&i.to_le_bytes())?;
        bytes.extend_from_slice(&i.wrapping_neg().to_le_bytes())?;
    }
    Ok(bytes)
}

/// These pieces, joined.
pub fn joined(alloc: Global, pieces: &[&[u8]]) -> Result<Vec<u8>, Fail> {
    let mut bytes = Vec::new(alloc);
    for piece in pieces {
        bytes.extend_from_slice(piece)?;
    }
    Ok(bytes)
}

/// The events that play 480 frames.
fn played(alloc: Global) -> Result<Vec<u8>, Fail> {
    let data = frames(alloc)?;
    joined(
        alloc,
        &[
            ADD, OPEN, ACTIVATE, INITIALIZE, GET_BUFFER, RELEASE, &data, START, PERIOD,
        ],
    )
}

/// What a run came to: its status, the output, and what the device of endpoint 1 got.
#[derive(Drop)]
pub struct Outcome {
    pub status: Status,
    pub output: Vec<u8>,
    pub device: Vec<u8>,
}

/// Runs over these bytes. Reads and writes of these numbers fail, and so do these calls of the device, of which a
/// number other than 0 beside a call's says how many bytes it takes before the next one fails.
pub fn replay(
    alloc: Global,
    bytes: &[u8],
    reads: &[u64],
    writes: &[u64],
    devices: &[(u64, usize)],
) -> Result<Outcome, Fail> {
    let mut words = Words::new(alloc);
    words.push("replay")?;
    words.push(".")?;
    let mut input = MemSource::new(Bytes::from_slice(alloc, bytes)?, reads.to_vec(alloc)?);
    let mut output = MemSink::new(alloc, 20_000, writes.to_vec(alloc)?)?;
    let left = vec![in alloc; (EndpointNo(1), Bytes::new(alloc))]?;
    let held = MemDevices::new(alloc, left, 10_000, devices.to_vec(alloc)?)?;
    let (status, held) = run(alloc, &words, &mut input, &mut output, held);
    Ok(Outcome {
        status,
        output: output.written().to_vec(alloc)?,
        device: held.written(EndpointNo(1)).to_vec(alloc)?,
    })
}

#[test]
fn the_frames_reach_the_device(rt: HostRuntime) -> Result<(), Fail> {
    let alloc = rt.alloc();
    let got = replay(alloc, &played(alloc)?, &[], &[], &[])?;
    assert_eq!(rt; got.status, Status::Done);
    assert_eq!(rt;
        got.output.as_slice(),
        joined(alloc, &[STARTED, PLAYED])?.as_slice()
    );
    assert_eq!(rt; got.device.as_slice(), frames(alloc)?.as_slice());
    Ok(())
}

#[test]
fn an_empty_input_is_done(rt: HostRuntime) -> Result<(), Fail> {
    let got = replay(rt.alloc(), &[], &[], &[], &[])?;
    assert_eq!(rt; got.status, Status::Done);
    assert!(rt; got.output.is_empty());
    assert!(rt; got.device.is_empty());
    Ok(())
}

/// GetBuffer of one frame, tag 3.
const GET_ONE: &[u8] = b"\x13\0\0\0\x03\x01\x03\0\0\0\x20\x01\0\0\0\0\0\0\0\x01\0\0\0";

/// The head of a reply with tag 3 and no payload, and AUDCLNT_E_DEVICE_INVALIDATED.
const TAG_3: &[u8] = b"\x0a\0\0\0\x03\x01\x03\0\0\0";

const DEVICE_INVALIDATED: &[u8] = b"\x04\0\x89\x88";

#[test]
fn a_device_that_fails_closes_the_stream(rt: HostRuntime) -> Result<(), Fail> {
    let alloc = rt.alloc();
    let failed = b"\x0f\0\0\0\x04\0\0\0\0\0\0\0\0\0\0\0\0\0\x01";
    let refused = b"\x0a\0\0\0\x04\0\0\0\0\0\x04\0\x89\x88";
    let events = joined(alloc, &[&played(alloc)?, PERIOD, PERIOD, GET_ONE])?;
    for (call, size) in [(1, 0), (2, 1920), (3, 3840)] {
        for part in [0, 5] {
            let got = replay(alloc, &events, &[], &[], &[(call, part)])?;
            assert_eq!(rt; got.status, Status::Done);
            assert_eq!(rt; got.device.len(), size + part);
            let mut ending = joined(alloc, &[failed])?;
            for _ in call..3 {
                ending.extend_from_slice(refused)?;
            }
            ending.extend_from_slice(TAG_3)?;
            ending.extend_from_slice(DEVICE_INVALIDATED)?;
            assert!(rt; got.output.ends_with(&ending));
        }
    }
    Ok(())
}

#[test]
fn a_cut_input_is_malformed_at_its_last_border(rt: HostRuntime) -> Result<(), Fail> {
    let alloc = rt.alloc();
    let events = played(alloc)?;
    let replies = joined(alloc, &[STARTED, PLAYED])?;
    let borders = [
        (0, 0),
        (41, 14),
        (59, 28),
        (75, 50),
        (154, 72),
        (177, 86),
        (2124, 100),
        (2143, 114),
        (2152, 133),
    ];
    for size in 0..events.len() + 1 {
        let got = replay(alloc, &events[..size], &[], &[], &[])?;
        for (i, (border, written)) in borders.iter().enumerate() {
            let next = borders.get(i + 1).map_or(usize::MAX, |(next, _)| *next);
            if *border <= size && size < next {
                let end = if size == *border {
                    Status::Done
                } else {
                    Status::Malformed {
                        place: *border as u64,
                    }
                };
                assert_eq!(rt; got.status, end);
                assert_eq!(rt; got.output.len(), *written);
                assert!(rt; replies.starts_with(&got.output));
            }
        }
    }
    Ok(())
}

#[test]
fn reads_and_writes_that_fail_end_the_run(rt: HostRuntime) -> Result<(), Fail> {
    let alloc = rt.alloc();
    let events = played(alloc)?;
    let replies = joined(alloc, &[STARTED, PLAYED])?;
    for (read, status, written) in [
        (1, Status::ReadFault, 0),
        (2, Status::ReadFault, 133),
        (3, Status::Done, 133),
    ] {
        let got = replay(alloc, &events, &[read], &[], &[])?;
        assert_eq!(rt; got.status, status);
        assert_eq!(rt; got.output.len(), written);
        assert!(rt; replies.starts_with(&got.output));
    }
    for (i, written) in [0, 14, 28, 50, 72, 86, 100, 114, 133].iter().enumerate() {
        let got = replay(alloc, &events, &[], &[i as u64 + 1], &[])?;
        let status = if i < 8 {
            Status::WriteFault
        } else {
            Status::Done
        };
        assert_eq!(rt; got.status, status);
        assert_eq!(rt; got.output.len(), *written);
        assert!(rt; replies.starts_with(&got.output));
    }
    Ok(())
}

#[test]
fn frames_that_spell_no_event_are_malformed(rt: HostRuntime) -> Result<(), Fail> {
    let alloc = rt.alloc();
    let long_name = joined(
        alloc,
        &[b"\x09\x01\0\0\x01\x01\x0a\0\0\0\x01\x01", &[b'a'; 257]],
    )?;
    let frames: [&[u8]; 14] = [
        b"\0\0\0\0",
        b"\x01\0\x40\0",
        b"\xff\xff\xff\xff",
        b"\x01\0\0\0\0",
        b"\x01\0\0\0\x06",
        b"\x02\0\0\0\x07\0",
        b"\x01\0\0\0\x08",
        b"\x01\0\0\0\xff",
        b"\x09\0\0\0\x01\0\x0a\0\0\0\x01\0a",
        b"\x09\0\0\0\x01\x21\x0a\0\0\0\x01\0a",
        b"\x04\0\0\0\x04\x01\0\0",
        b"\x06\0\0\0\x04\x01\0\0\0\0",
        b"\x0b\0\0\0\x03\x01\x05\0\0\0\x17\x01\0\0\0",
        &long_name,
    ];
    for frame in &frames {
        let got = replay(
            alloc,
            &joined(alloc, &[OPEN, frame, PERIOD])?,
            &[],
            &[],
            &[],
        )?;
        assert_eq!(rt; got.status, Status::Malformed { place: 18 });
        assert_eq!(rt; got.output.len(), 14);
    }
    Ok(())
}

#[test]
fn other_words_are_a_faulty_command_line(rt: HostRuntime) -> Result<(), Fail> {
    let alloc = rt.alloc();
    let cases: [&[&str]; 7] = [
        &[],
        &["replay"],
        &["replay", ""],
        &["replay", "-x"],
        &["replay", ".", "."],
        &["--help"],
        &["serve", "."],
    ];
    for case in &cases {
        let mut words = Words::new(alloc);
        for word in *case {
            words.push(word)?;
        }
        let mut input = MemSource::new(Bytes::from_slice(alloc, PERIOD)?, Vec::new(alloc));
        let mut output = MemSink::new(alloc, 100, Vec::new(alloc))?;
        let held = MemDevices::new(alloc, Vec::new(alloc), 100, Vec::new(alloc))?;
        let (status, _held) = run(alloc, &words, &mut input, &mut output, held);
        assert_eq!(rt; status, Status::Usage);
        assert!(rt; output.written().is_empty());
    }
    Ok(())
}
