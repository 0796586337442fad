use super::DataCall::{CaptureGet, CaptureRelease, Get, NextSize, Padding, Release};
use super::Verdict::{Answer, Go};
use super::*;
use ca_base::{Dir, Gate, Hr, Reason, Seen};
use std::process::Abort;

/// A shared client that plays 48000 Hz in 2 channels, with a buffer of two periods.
const PLAYER: ClientSide = ClientSide {
    dir: Dir::Render,
    exclusive: false,
    event: false,
    buffer: 960,
    period: 480,
    store_frames: 960,
    block: 4,
    lease: None,
    released: 0,
};

/// A shared client that records 48000 Hz in 1 channel, with a buffer of two periods.
const RECORDER: ClientSide = ClientSide {
    dir: Dir::Capture,
    block: 2,
    ..PLAYER
};

/// A player that has leased 10 frames.
const LEASED: ClientSide = ClientSide {
    lease: Some(10),
    ..PLAYER
};

/// A player whose count of released frames has room for three more.
const WORN: ClientSide = ClientSide {
    lease: Some(4),
    released: (1 << 62) - 3,
    ..PLAYER
};

/// An exclusive player by events, whose store holds two buffers in turn.
const BY_EVENTS: ClientSide = ClientSide {
    exclusive: true,
    event: true,
    buffer: 480,
    ..PLAYER
};

/// A client that isn't initialised.
const FRESH: ClientSide = ClientSide {
    buffer: 0,
    ..PLAYER
};

/// A recorder that has leased a packet.
const READING: ClientSide = ClientSide {
    lease: Some(480),
    ..RECORDER
};

const EMPTY: Seen = Seen {
    words: 0,
    gate: Gate::Open,
};

/// One packet of a period.
const PACKET: Seen = Seen {
    words: 481,
    ..EMPTY
};

const TAKEN_OVER: Seen = Seen {
    words: 0,
    gate: Gate::Closed(Reason::Override),
};

const SHUT_DOWN: Seen = Seen {
    words: 0,
    gate: Gate::Closed(Reason::Shutdown),
};

/// Asserts what the check says of each call.
fn expect(rt: &impl Abort, rows: &[(ClientSide, DataCall, Seen, Verdict)]) {
    for (side, call, seen, verdict) in rows {
        assert_eq!(rt; data_check(side, call, *seen), *verdict, "{call:?}");
    }
}

#[test]
fn a_player_leases_and_releases(rt: HostRuntime) {
    let rows = [
        (FRESH, Get { n: 1 }, EMPTY, Answer(Hr(0x88890001))),
        (PLAYER, Get { n: 961 }, EMPTY, Answer(Hr(0x88890006))),
        (PLAYER, Get { n: 960 }, EMPTY, Go),
        (LEASED, Get { n: 1 }, EMPTY, Answer(Hr(0x88890007))),
        (
            LEASED,
            Release {
                m: 11,
                flags: 0,
                len: 44,
            },
            EMPTY,
            Answer(Hr(0x88890009)),
        ),
        (
            LEASED,
            Release {
                m: 10,
                flags: 0,
                len: 39,
            },
            EMPTY,
            Answer(Hr(0x80070057)),
        ),
        (
            LEASED,
            Release {
                m: 10,
                flags: 2,
                len: 40,
            },
            EMPTY,
            Go,
        ),
        (
            LEASED,
            Release {
                m: 0,
                flags: 0,
                len: 0,
            },
            EMPTY,
            Go,
        ),
        (
            PLAYER,
            Release {
                m: 0,
                flags: 0,
                len: 0,
            },
            EMPTY,
            Answer(Hr(0x88890007)),
        ),
        (
            WORN,
            Release {
                m: 4,
                flags: 0,
                len: 16,
            },
            EMPTY,
            Answer(Hr(0xA0040005)),
        ),
        (
            WORN,
            Release {
                m: 3,
                flags: 0,
                len: 12,
            },
            EMPTY,
            Go,
        ),
        (BY_EVENTS, Get { n: 479 }, EMPTY, Answer(Hr(0x88890016))),
        (BY_EVENTS, Get { n: 480 }, EMPTY, Go),
        (
            LEASED,
            Release {
                m: 3,
                flags: 0,
                len: 12,
            },
            TAKEN_OVER,
            Answer(Hr(0x88890004)),
        ),
        (PLAYER, Padding, TAKEN_OVER, Answer(Hr(0x88890004))),
        (PLAYER, Padding, SHUT_DOWN, Answer(Hr(0x88890010))),
        (PLAYER, NextSize, EMPTY, Answer(Hr(0x88890003))),
    ];
    expect(&rt, &rows);
}

#[test]
fn a_recorder_reads_packets(rt: HostRuntime) {
    let rows = [
        (RECORDER, CaptureGet, EMPTY, Answer(Hr(0x08890001))),
        (RECORDER, CaptureGet, PACKET, Go),
        (READING, CaptureGet, PACKET, Answer(Hr(0x88890007))),
        (READING, CaptureRelease { m: 0 }, PACKET, Go),
        (
            READING,
            CaptureRelease { m: 479 },
            PACKET,
            Answer(Hr(0x88890009)),
        ),
        (READING, CaptureRelease { m: 480 }, PACKET, Go),
        (
            RECORDER,
            CaptureRelease { m: 0 },
            PACKET,
            Answer(Hr(0x88890007)),
        ),
        (RECORDER, Get { n: 1 }, EMPTY, Answer(Hr(0x88890003))),
        (RECORDER, NextSize, PACKET, Go),
    ];
    expect(&rt, &rows);
}
