//! Streams that record a device, or hear what one gets. What is expected is worked out by hand.

ghost use Rattle.std.specs.Prelude.{◌≡◌, IfOk, length};

use crate::endpoint_rows::{DEVICE_INVALIDATED, STARTED};
use crate::exchanges::{Ask, put_asked};
use crate::rows::{
    ACTIVATE_1, E_NOINTERFACE, GET_1, GET_480, INVALID_SIZE, ONE, OUT_OF_ORDER, PLAYED_480, S_OK,
    TWO, WRONG_ENDPOINT_TYPE,
};
use crate::run::{Status, run};
use crate::tests::{OPEN, Outcome, joined};
use ca_base::{Bytes, EndpointNo, MemSink, MemSource, Words};
use device_io::MemDevices;
use std::alloc::Global;
use std::test::Fail;

const S_BUFFER_EMPTY: u32 = 0x0889_0001;

/// Device event Add: endpoint 2, capture, 48,000 Hz, one channel, `Mic`.
const ADD_MIC: &[u8] =
    b"\x20\0\0\0\x05\x01\x02\0\0\0\x01\x12\0\x01\0\x01\0\x80\xbb\0\0\0\x77\x01\0\x02\0\x10\0\0\0\x03\0Mic";

/// Activate on endpoint 2.
const ACTIVATE_2: &[u8] = b"\x02\0\0\0\0";

/// Initialize of client 1 on the microphone: shared, duration 0; and the same with LOOPBACK.
const INITIALIZE_MIC: &[u8] =
    b"\x01\0\0\0\0\0\0\0\0\0\0\0\0\0\0\0\0\0\0\0\0\0\0\0\0\0\0\0\0\0\0\0\x12\0\x01\0\x01\0\x80\xbb\0\0\0\x77\
      \x01\0\x02\0\x10\0\0\0\0\0\0\0\0\0\0\0\0\0\0\0\0\0\0\0";

const LOOPBACK_MIC: &[u8] =
    b"\x01\0\0\0\0\0\0\0\0\0\0\0\0\0\x02\0\0\0\0\0\0\0\0\0\0\0\0\0\0\0\0\0\x12\0\x01\0\x01\0\x80\xbb\0\0\0\x77\
      \x01\0\x02\0\x10\0\0\0\0\0\0\0\0\0\0\0\0\0\0\0\0\0\0\0";

/// Initialize of client 2 on the speakers with LOOPBACK: shared, duration 0.
const LOOPBACK_2: &[u8] =
    b"\x02\0\0\0\0\0\0\0\0\0\0\0\0\0\x02\0\0\0\0\0\0\0\0\0\0\0\0\0\0\0\0\0\x12\0\x01\0\x02\0\x80\xbb\0\0\0\xee\
      \x02\0\x04\0\x10\0\0\0\0\0\0\0\0\0\0\0\0\0\0\0\0\0\0\0";

/// CaptureReleaseBuffer of client 1: 0, 479 and 480 frames.
const RELEASE_0: &[u8] = b"\x01\0\0\0\0\0\0\0\0\0\0\0";

const RELEASE_479: &[u8] = b"\x01\0\0\0\0\0\0\0\xdf\x01\0\0";

const RELEASE_480: &[u8] = b"\x01\0\0\0\0\0\0\0\xe0\x01\0\0";

/// GetService of client 1: the capture client's, and one that there isn't.
const CAPTURE_SERVICE: &[u8] = b"\x01\0\0\0\0\0\0\0\x02\0\0\0";

const NO_SERVICE: &[u8] = b"\x01\0\0\0\0\0\0\0\x09\0\0\0";

/// Numbers in payloads: 0, 480 and 960 frames; a period that failed.
const FRAMES_0: &[u8] = b"\0\0\0\0";

const FRAMES_480: &[u8] = b"\xe0\x01\0\0";

const FRAMES_960: &[u8] = b"\xc0\x03\0\0";

const NO_PACKET: &[u8] = b"\0\0\0\0\0";

const FAILED: &[u8] = b"\0\0\0\0\x01";

/// What a run over two devices comes to: what the first one got, and what the second one has to give.
fn replay_both(
    alloc: Global,
    bytes: &[u8],
    failing: &[(u64, usize)],
    recorded: &[u8],
) -> Result<Outcome, Fail> {
    let mut words = Words::new(alloc);
    words.push("replay")?;
    words.push(".")?;
    let mut input = MemSource::new(Bytes::from_slice(alloc, bytes)?, Vec::new(alloc));
    let mut output = MemSink::new(alloc, 20_000, Vec::new(alloc))?;
    let left = vec![in alloc;
        (EndpointNo(1), Bytes::new(alloc)),
        (EndpointNo(2), Bytes::from_slice(alloc, recorded)?),
    ]?;
    let held = MemDevices::new(alloc, left, 10_000, failing.to_vec(alloc)?)?;
    let (status, held) = run(alloc, &words, &mut input, &mut output, held);
    Ok(Outcome {
        status,
        output: output.written().to_vec(alloc)?,
        device: held.written(EndpointNo(1)).to_vec(alloc)?,
    })
}

/// What is asked of the program, and what it is to answer.
#[derive(Drop)]
struct Script {
    input: Vec<u8>,
    output: Vec<u8>,
}

impl Script {
    fn new(alloc: Global, first: &[&[u8]]) -> Result<Script, Fail> {
        Ok(Script {
            input: joined(alloc, first)?,
            output: Vec::new(alloc),
        })
    }

    fn asks(&mut self, ask: Ask, code: u32, payload: &[u8]) -> Result<(), Fail> {
        put_asked(ask, code, payload, &mut self.input, &mut self.output)
    }

    /// CaptureGetBuffer gets a packet of 480 frames with these flags, this position and these bytes.
    fn gets(
        &mut self,
        alloc: Global,
        client: &'static [u8],
        flags: u8,
        position: u16,
        data: &[u8],
    ) -> Result<(), Fail> {
        let [low, high] = position.to_le_bytes();
        let head = [0xe0, 1, 0, 0, flags, 0, 0, 0, low, high, 0, 0, 0, 0, 0, 0];
        let payload = joined(alloc, &[&head, data])?;
        self.asks(Ask::Call(35, client), S_OK, &payload)
    }

    /// Whether these are the replies, if the second device has these bytes to give.
    fn holds(
        &self,
        alloc: Global,
        failing: &[(u64, usize)],
        recorded: &[u8],
    ) -> Result<bool, Fail> {
        let got = replay_both(alloc, &self.input, failing, recorded)?;
        Ok(got.status == Status::Done && got.output.ends_with(&self.output))
    }
}

/// So many bytes, of which no two packets have the same.
fn bytes(alloc: Global, count: usize) -> Result<Vec<u8>, Fail>
    ensures { IfOk result (λ v. length v.items ≡ count) }
{
    let mut all = Vec::new(alloc);
    all.resize(count, 0)?;
    for i in 0..all.len() {
        all[i] = (i % 251) as u8;
    }
    Ok(all)
}

/// The bytes from one place to another; none if they aren't all there.
fn part(data: &[u8], from: usize, to: usize) -> &[u8] {
    if from <= to && to <= data.len() {
        return &data[from..to];
    }
    &[]
}

/// A microphone that a running stream of client 1 records.
fn recording(alloc: Global) -> Result<Script, Fail> {
    let mut script = Script::new(alloc, &[ADD_MIC, OPEN])?;
    script.asks(Ask::Call(5, ACTIVATE_2), S_OK, ONE)?;
    script.asks(Ask::Call(16, INITIALIZE_MIC), S_OK, ONE)?;
    script.asks(Ask::Call(23, ONE), S_OK, b"")?;
    Ok(script)
}

#[test]
fn packets_are_read_in_order_and_tell_what_was_lost(rt: HostRuntime) -> Result<(), Fail> {
    let alloc = rt.alloc();
    let data = bytes(alloc, 4_800)?;
    let mut script = Script::new(alloc, &[ADD_MIC, OPEN])?;
    script.asks(Ask::Call(5, ACTIVATE_2), S_OK, ONE)?;
    script.asks(Ask::Call(16, LOOPBACK_MIC), WRONG_ENDPOINT_TYPE, b"")?;
    script.asks(Ask::Call(16, INITIALIZE_MIC), S_OK, ONE)?;
    script.asks(Ask::Call(17, ONE), S_OK, FRAMES_960)?;
    script.asks(Ask::Call(35, ONE), S_BUFFER_EMPTY, b"")?;
    script.asks(Ask::PeriodOf(2), S_OK, NO_PACKET)?;
    script.asks(Ask::Call(23, ONE), S_OK, b"")?;
    script.asks(Ask::PeriodOf(2), S_OK, PLAYED_480)?;
    script.asks(Ask::Call(34, ONE), S_OK, FRAMES_480)?;
    script.gets(alloc, ONE, 0, 0, part(&data, 0, 960))?;
    script.asks(Ask::Call(35, ONE), OUT_OF_ORDER, b"")?;
    script.asks(Ask::Call(36, RELEASE_0), S_OK, b"")?;
    script.gets(alloc, ONE, 0, 0, part(&data, 0, 960))?;
    script.asks(Ask::Call(36, RELEASE_479), INVALID_SIZE, b"")?;
    script.asks(Ask::Call(36, RELEASE_480), S_OK, b"")?;
    script.asks(Ask::Call(36, RELEASE_480), OUT_OF_ORDER, b"")?;
    script.asks(Ask::Call(34, ONE), S_OK, FRAMES_0)?;
    for _ in 0..3 {
        script.asks(Ask::PeriodOf(2), S_OK, PLAYED_480)?;
    }
    script.asks(Ask::Call(19, ONE), S_OK, FRAMES_960)?;
    script.gets(alloc, ONE, 0, 480, part(&data, 960, 1_920))?;
    script.asks(Ask::Call(36, RELEASE_480), S_OK, b"")?;
    script.gets(alloc, ONE, 0, 960, part(&data, 1_920, 2_880))?;
    script.asks(Ask::Call(36, RELEASE_480), S_OK, b"")?;
    script.asks(Ask::PeriodOf(2), S_OK, PLAYED_480)?;
    script.gets(alloc, ONE, 1, 1_920, part(&data, 3_840, 4_800))?;
    script.asks(Ask::Call(32, GET_1), WRONG_ENDPOINT_TYPE, b"")?;
    script.asks(
        Ask::Call(28, ONE),
        S_OK,
        b"\x60\x09\0\0\0\0\0\0\x80\xbb\0\0\0\0\0\0",
    )?;
    assert!(rt; script.holds(alloc, &[], &data)?);
    Ok(())
}

#[test]
fn a_part_of_a_frame_is_given_up(rt: HostRuntime) -> Result<(), Fail> {
    let alloc = rt.alloc();
    let data = bytes(alloc, 481)?;
    let silence = vec![in alloc; 0; 480]?;
    let mut script = recording(alloc)?;
    script.asks(Ask::PeriodOf(2), S_OK, PLAYED_480)?;
    let packet = joined(alloc, &[part(&data, 0, 480), &silence])?;
    script.gets(alloc, ONE, 0, 0, &packet)?;
    script.asks(Ask::PeriodOf(2), S_OK, NO_PACKET)?;
    assert!(rt; script.holds(alloc, &[], &data)?);
    let mut script = recording(alloc)?;
    script.asks(Ask::PeriodOf(2), S_OK, NO_PACKET)?;
    script.asks(Ask::Call(35, ONE), S_BUFFER_EMPTY, b"")?;
    assert!(rt; script.holds(alloc, &[], part(&data, 0, 1))?);
    Ok(())
}

#[test]
fn a_device_that_fails_feeds_nothing(rt: HostRuntime) -> Result<(), Fail> {
    let alloc = rt.alloc();
    let data = bytes(alloc, 500)?;
    let mut script = recording(alloc)?;
    script.asks(Ask::PeriodOf(2), S_OK, FAILED)?;
    script.asks(Ask::Call(35, ONE), DEVICE_INVALIDATED, b"")?;
    script.asks(Ask::PeriodOf(2), DEVICE_INVALIDATED, b"")?;
    assert!(rt; script.holds(alloc, &[(2, 0)], &data)?);
    Ok(())
}

#[test]
fn a_reset_forgets_what_was_lost(rt: HostRuntime) -> Result<(), Fail> {
    let alloc = rt.alloc();
    let data = bytes(alloc, 4_800)?;
    let mut script = recording(alloc)?;
    for _ in 0..3 {
        script.asks(Ask::PeriodOf(2), S_OK, PLAYED_480)?;
    }
    script.asks(Ask::Call(24, ONE), S_OK, b"")?;
    script.asks(Ask::Call(25, ONE), S_OK, b"")?;
    script.asks(Ask::Call(25, ONE), 1, b"")?;
    script.asks(Ask::Call(23, ONE), S_OK, b"")?;
    script.asks(Ask::PeriodOf(2), S_OK, PLAYED_480)?;
    script.gets(alloc, ONE, 0, 0, part(&data, 2_880, 3_840))?;
    assert!(rt; script.holds(alloc, &[], &data)?);
    Ok(())
}

/// 480 frames of two channels: 1,000 and -1,000.
fn loud(alloc: Global) -> Result<Vec<u8>, Fail> {
    let mut all = Vec::new(alloc);
    for _ in 0..480 {
        all.extend_from_slice(&1_000i16.to_le_bytes())?;
        all.extend_from_slice(&(-1_000i16).to_le_bytes())?;
    }
    Ok(all)
}

#[test]
fn a_loopback_stream_hears_what_the_device_gets(rt: HostRuntime) -> Result<(), Fail> {
    let alloc = rt.alloc();
    let frames = loud(alloc)?;
    let mut script = Script::new(alloc, STARTED)?;
    script.asks(Ask::Call(5, ACTIVATE_1), S_OK, TWO)?;
    script.asks(Ask::Call(16, LOOPBACK_2), S_OK, ONE)?;
    script.asks(Ask::Call(27, CAPTURE_SERVICE), WRONG_ENDPOINT_TYPE, b"")?;
    script.asks(Ask::Call(27, NO_SERVICE), E_NOINTERFACE, b"")?;
    script.asks(Ask::Call(35, ONE), WRONG_ENDPOINT_TYPE, b"")?;
    script.asks(Ask::Call(32, GET_480), S_OK, b"")?;
    script.input.extend_from_slice(
        b"\x97\x07\0\0\x03\x01\x09\0\0\0\x21\x01\0\0\0\0\0\0\0\xe0\x01\0\0\0\0\0\0",
    )?;
    script.input.extend_from_slice(&frames)?;
    script
        .output
        .extend_from_slice(b"\x0a\0\0\0\x03\x01\x09\0\0\0\0\0\0\0")?;
    script.asks(Ask::Call(23, ONE), S_OK, b"")?;
    script.asks(Ask::Call(23, TWO), S_OK, b"")?;
    script.asks(Ask::Period, S_OK, PLAYED_480)?;
    script.gets(alloc, TWO, 0, 0, &frames)?;
    let got = replay_both(alloc, &script.input, &[], &[])?;
    assert_eq!(rt; got.status, Status::Done);
    assert!(rt; got.output.ends_with(&script.output));
    assert_eq!(rt; got.device.as_slice(), frames.as_slice());
    Ok(())
}
