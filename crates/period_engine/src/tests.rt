//! Periods of few streams over stores and devices in memory. Frames, samples, bytes and words are worked out by hand.

ghost use Rattle.std.specs.Prelude.{◌≡◌, ◌*◌, ◌≤◌, length, true, IfOk};
ghost use Rattle.std.specs.List.{All};
ghost use Rattle.buffer_ring.specs.Kept.{state_of};
ghost use Rattle.volume_stack.specs.Scaling.{unit_gain};
ghost use Rattle.period_engine.specs.Entries.{AreEntries, HasRoom, IsFeedable, IsRested, is_heard};
ghost use Rattle.period_engine.specs.Sounds.{AreEnds, HasFeedRoom};

use super::*;
use buffer_ring::{EngineSide, FrameStore, PlainStore};
use ca_base::limits::MAX_LEVEL;
use ca_base::{Bytes, ClientNo, Dir, EndpointNo, Failed, Gate, NoMemory, SessionNo, StreamKind};
use device_io::MemDevices;
use std::alloc::Global;
use std::test::Fail;

const SPEAKERS: EndpointNo = EndpointNo(1);

const MICROPHONE: EndpointNo = EndpointNo(2);

const HALF: u32 = MAX_LEVEL / 2;

/// A running stream of two channels, two frames a period, whose store has room for six words and holds these.
fn stream(
    alloc: Global,
    client: u64,
    endpoint: EndpointNo,
    kind: StreamKind,
    gain: u32,
    words: &[u64],
) -> Result<StreamEntry<PlainStore>, NoMemory>
    requires gain { gain ≤ unit_gain }
    requires few { length words.now ≤ 6 }
    ensures rested { IfOk result (λ e. IsRested state_of e) }
    ensures client { IfOk result (λ e. e.client.0 ≡ client) }
    ensures kind { IfOk result (λ e. e.kind ≡ kind) }
    ensures counts { IfOk result (λ e. (e.position ≡ 0) × (e.ever ≡ 0)) }
    ensures channels { IfOk result (λ e. (e.channels ≡ 2) × (e.period ≡ 2)) }
    ensures gains { IfOk result (λ e. All (λ g. g ≤ unit_gain) e.gains) }
{
    let dir = if kind == StreamKind::Render {
        Dir::Render
    } else {
        Dir::Capture
    };
    let mut store = PlainStore::new(alloc, 6, dir)?;
    store.client_put(words);
    Ok(StreamEntry {
        client: ClientNo(client),
        endpoint,
        kind,
        exclusive: false,
        event: false,
        channels: 2,
        rate: 48_000,
        buffer: 6,
        period: 2,
        store,
        room: 6,
        latency: 0,
        session: SessionNo(1),
        gate: Gate::Open,
        running: true,
        picked: 0,
        position: 0,
        offered: 0,
        ever: 0,
        after_gap: false,
        gains: [gain; 4],
    })
}

/// Devices in memory: the speakers, and a microphone that gives these bytes. Their calls fail as `MemDevices::new`
/// says.
fn devices(alloc: Global, given: &[u8], failing: &[(u64, usize)]) -> Result<MemDevices, NoMemory> {
    let mut left = Vec::new(alloc);
    left.push((SPEAKERS, Bytes::new(alloc)))?;
    left.push((MICROPHONE, Bytes::from_slice(alloc, given)?))?;
    MemDevices::new(alloc, left, 64, failing.to_vec(alloc)?)
}

/// A period of the speakers. What was picked stays if the device fails.
fn play(
    all: &mut [StreamEntry<PlainStore>],
    p: u32,
    ends: &[u32],
    block: &mut Block,
    devices: &mut MemDevices,
) -> Result<(), Failed>
    requires entries { AreEntries all.old }
    requires rested { All (IsRested state_of) all.old }
    requires counts { All (HasRoom 1 p) all.old }
    requires channels { All (λ e. e.channels ≡ length ends.now) all.old }
    requires gains { All (λ e. All (λ g. g ≤ unit_gain) e.gains) all.old }
    requires fed { All (λ e. is_heard 1 e ≡ true → IsFeedable (length ends.now) p e) all.old }
    requires ends { AreEnds ends.now }
    requires block { p * length ends.now ≤ block.old.samples }
    requires room { HasFeedRoom (length ends.now) p block.old }
{
    pick(all, SPEAKERS, p);
    sound(all, SPEAKERS, p, ends, block, devices)?;
    retire(all, SPEAKERS);
    feed_loopback(all, SPEAKERS, p, block);
    Ok(())
}

/// How many words a stream's store holds, how many frames are picked, and the stream's position.
fn counts(entry: &mut StreamEntry<PlainStore>) -> (u32, u32, u64) {
    let held = entry.store.held();
    (held, entry.picked, entry.position)
}

/// The words of a stream's store, and 0 behind them.
fn words(entry: &mut StreamEntry<PlainStore>) -> [u64; 6] {
    let mut words = [0; 6];
    let held = entry.store.held().min(6);
    entry.store.read(0, &mut words[..held as usize]);
    words
}

/// The frames of two streams, the gain of the second, the gains of the speakers' channels, and the bytes of two frames
/// and their words.
struct Row {
    first: [u64; 3],
    second: [u64; 1],
    gain: u32,
    right: u32,
    bytes: [u8; 8],
    heard: [u64; 2],
}

/// A frame's word has its left sample in the low 16 bits, and its right one above.
const ROWS: [Row; 2] = [
    // (1000, -1000) + (100, -7) / 2 toward zero; (2000, -2000); the right channel by half, toward zero:
    // (1050, -501), (2000, -1000)
    Row {
        first: [0xfc18_03e8, 0xf830_07d0, 0x0001_0001],
        second: [0xfff9_0064],
        gain: HALF,
        right: HALF,
        bytes: [0x1a, 0x04, 0x0b, 0xfe, 0xd0, 0x07, 0x18, 0xfc],
        heard: [0xfe0b_041a, 0xfc18_07d0],
    },
    // (30000, -30000) twice, (32767, -32768): only the whole sum is clamped, after the right channel's half:
    // (32767, -30000), (32767, -16384)
    Row {
        first: [0x8ad0_7530, 0x8000_7fff, 0x0001_0001],
        second: [0x8ad0_7530],
        gain: MAX_LEVEL,
        right: HALF,
        bytes: [0xff, 0x7f, 0xd0, 0x8a, 0xff, 0x7f, 0x00, 0xc0],
        heard: [0x8ad0_7fff, 0xc000_7fff],
    },
];

#[test]
fn streams_are_mixed_heard_and_retired(rt: HostRuntime) -> Result<(), Fail> {
    for row in &ROWS {
        let gain = row.gain.min(MAX_LEVEL);
        let mut all = [
            stream(
                rt.alloc(),
                1,
                SPEAKERS,
                StreamKind::Render,
                MAX_LEVEL,
                &row.first,
            )?,
            stream(
                rt.alloc(),
                2,
                SPEAKERS,
                StreamKind::Render,
                gain,
                &row.second,
            )?,
            stream(
                rt.alloc(),
                3,
                SPEAKERS,
                StreamKind::Loopback,
                MAX_LEVEL,
                &[],
            )?,
        ];
        let mut devices = devices(rt.alloc(), &[], &[])?;
        let mut block = Block::new(rt.alloc(), 2, 2)?;
        let ends = [MAX_LEVEL, row.right.min(MAX_LEVEL)];
        assert_eq!(rt; play(&mut all, 2, &ends, &mut block, &mut devices), Ok(()));
        assert_eq!(rt; devices.written(SPEAKERS), row.bytes.as_slice());
        assert_eq!(rt; counts(&mut all[0]), (1, 0, 2));
        assert_eq!(rt; counts(&mut all[1]), (0, 0, 1));
        let [first, second] = row.heard;
        assert_eq!(rt; words(&mut all[2]), [0, first, second, 0, 0, 0]);
        assert_eq!(rt;
            (all[2].offered, all[2].ever, all[2].after_gap),
            (2, 2, false)
        );
    }
    Ok(())
}

#[test]
fn failed_device_leaves_what_was_picked(rt: HostRuntime) -> Result<(), Fail> {
    let first = [0xfc18_03e8, 0xf830_07d0];
    let mut all = [
        stream(
            rt.alloc(),
            1,
            SPEAKERS,
            StreamKind::Render,
            MAX_LEVEL,
            &first,
        )?,
        stream(
            rt.alloc(),
            2,
            SPEAKERS,
            StreamKind::Render,
            HALF,
            &[0xfff9_0064],
        )?,
    ];
    // the first call takes 10 of the 12 bytes, the next one fails
    let mut devices = devices(rt.alloc(), &[], &[(1, 10)])?;
    let mut block = Block::new(rt.alloc(), 3, 2)?;
    let ends = [MAX_LEVEL, HALF];
    assert_eq!(rt;
        play(&mut all, 3, &ends, &mut block, &mut devices),
        Err(Failed)
    );
    // (1050, -501), (2000, -1000), and half a frame of silence
    assert_eq!(rt;
        devices.written(SPEAKERS),
        [0x1a, 0x04, 0x0b, 0xfe, 0xd0, 0x07, 0x18, 0xfc, 0, 0].as_slice()
    );
    assert_eq!(rt; devices.faults(), 1);
    assert_eq!(rt; counts(&mut all[0]), (2, 2, 0));
    assert_eq!(rt; counts(&mut all[1]), (1, 1, 0));
    Ok(())
}

/// A period of the microphone: how many of `GIVEN` are left there, and which of its calls fails, none if 0; how many of
/// `HELD` the stream's store holds, what the stream was offered, and whether the last packet was lost. Then what the
/// period answers, the store's words, and the stream's counts.
struct Recording {
    given: usize,
    fails: u64,
    held: usize,
    offered: u64,
    after_gap: bool,
    answer: Option<u32>,
    words: [u64; 6],
    counts: (u64, bool),
}

/// (1000, -1000), (2000, -2000), (3, 4)
const GIVEN: [u8; 12] = [
    0xe8, 0x03, 0x18, 0xfc, 0xd0, 0x07, 0x30, 0xf8, 0x03, 0x00, 0x04, 0x00,
];

/// Two packets, offered one after the other.
const HELD: [u64; 6] = [0, 0x11, 0x12, 4, 0x21, 0x22];

const RECORDINGS: [Recording; 6] = [
    // two frames of three
    Recording {
        given: 12,
        fails: 0,
        held: 0,
        offered: 0,
        after_gap: false,
        answer: Some(2),
        words: [0, 0xfc18_03e8, 0xf830_07d0, 0, 0, 0],
        counts: (2, false),
    },
    // a frame and a part of one, which is given up: silence behind it
    Recording {
        given: 7,
        fails: 0,
        held: 3,
        offered: 2,
        after_gap: false,
        answer: Some(2),
        words: [0, 0x11, 0x12, 4, 0xfc18_03e8, 0],
        counts: (4, false),
    },
    // a store with no room for a packet
    Recording {
        given: 12,
        fails: 0,
        held: 6,
        offered: 4,
        after_gap: false,
        answer: Some(2),
        words: HELD,
        counts: (6, true),
    },
    // the packet after it counts what was lost, and tells it
    Recording {
        given: 12,
        fails: 0,
        held: 3,
        offered: 6,
        after_gap: true,
        answer: Some(2),
        words: [0, 0x11, 0x12, 13, 0xfc18_03e8, 0xf830_07d0],
        counts: (8, false),
    },
    // a device that ended, but for a part of a frame
    Recording {
        given: 3,
        fails: 0,
        held: 3,
        offered: 6,
        after_gap: true,
        answer: Some(0),
        words: [0, 0x11, 0x12, 0, 0, 0],
        counts: (6, true),
    },
    // one that fails after a frame and a part of one
    Recording {
        given: 7,
        fails: 2,
        held: 3,
        offered: 2,
        after_gap: false,
        answer: None,
        words: [0, 0x11, 0x12, 0, 0, 0],
        counts: (2, false),
    },
];

#[test]
fn packets_of_a_device(rt: HostRuntime) -> Result<(), Fail> {
    for row in &RECORDINGS {
        let held = &HELD[..row.held.min(6)];
        let mut all = [stream(
            rt.alloc(),
            1,
            MICROPHONE,
            StreamKind::Capture,
            MAX_LEVEL,
            held,
        )?];
        all[0].offered = row.offered.min(100);
        all[0].ever = all[0].offered;
        all[0].after_gap = row.after_gap;
        let given = &GIVEN[..row.given.min(12)];
        let mut devices = devices(rt.alloc(), given, &[(row.fails, 0)])?;
        let mut block = Block::new(rt.alloc(), 2, 2)?;
        let answer = feed_capture(&mut all, MICROPHONE, 2, 2, &mut block, &mut devices);
        assert_eq!(rt; answer.ok(), row.answer);
        assert_eq!(rt; words(&mut all[0]), row.words);
        assert_eq!(rt; (all[0].offered, all[0].after_gap), row.counts);
        assert_eq!(rt; all[0].ever, all[0].offered);
        assert_eq!(rt; devices.faults(), row.answer.is_none() as u64);
    }
    Ok(())
}
