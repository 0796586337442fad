//! Each call, with worked values.

use super::*;
use ca_base::{Flow, Hr};
use std::test::Fail;

const NOT_FOUND: Hr = Hr(0x80070490);

const NO_INTERFACE: Hr = Hr(0x80004002);

const INVALID: Hr = Hr(0x80070057);

#[test]
fn parts_are_a_chain(rt: HostRuntime) {
    let rows = [
        (1, 1, Ok(2)),
        (2, 1, Ok(3)),
        (3, 1, Ok(4)),
        (4, 1, Err(NOT_FOUND)),
        (4, 0, Ok(3)),
        (3, 0, Ok(2)),
        (2, 0, Ok(1)),
        (1, 0, Err(NOT_FOUND)),
        (0, 1, Err(NOT_FOUND)),
        (5, 0, Err(NOT_FOUND)),
        (5, 2, Err(NOT_FOUND)),
        (1, 2, Err(INVALID)),
        (4, 255, Err(INVALID)),
    ];
    for flow in [Flow::Render, Flow::Capture] {
        let topology = Topology::for_endpoint(flow);
        for (part, direction, next) in rows {
            assert_eq!(rt; topology.next(part, direction), next);
        }
    }
}

#[test]
fn parts_have_kinds_and_names(rt: HostRuntime) {
    let rows = [
        (1, 0, "stream", "microphone"),
        (2, 1, "volume", "volume"),
        (3, 2, "mute", "mute"),
        (4, 0, "speaker", "stream"),
    ];
    let render = Topology::for_endpoint(Flow::Render);
    let capture = Topology::for_endpoint(Flow::Capture);
    for (part, kind, played, recorded) in rows {
        assert_eq!(rt; render.kind(part).map(PartKind::number), Ok(kind));
        assert_eq!(rt; render.name(part), Ok(played));
        assert_eq!(rt; capture.name(part), Ok(recorded));
    }
    assert_eq!(rt; render.kind(0), Err(NOT_FOUND));
    assert_eq!(rt; capture.name(5), Err(NOT_FOUND));
}

#[test]
fn steps_and_mute_are_set_apart(rt: HostRuntime) {
    let mut topology = Topology::for_endpoint(Flow::Render);
    let rows = [
        (2, 0, 1, Ok(())),
        (2, 3, 16, Ok(())),
        (2, 1, 17, Err(INVALID)),
        (2, 4, 1, Err(INVALID)),
        (3, 0, 1, Err(NO_INTERFACE)),
        (1, 9, 17, Err(NO_INTERFACE)),
        (5, 0, 1, Err(NOT_FOUND)),
    ];
    for (part, channel, step, answer) in rows {
        assert_eq!(rt; topology.set_level(part, channel, step), answer);
    }
    assert_eq!(rt; topology.mute(3), Ok(false));
    for (part, answer) in [
        (3, Ok(())),
        (2, Err(NO_INTERFACE)),
        (4, Err(NO_INTERFACE)),
        (0, Err(NOT_FOUND)),
    ] {
        assert_eq!(rt; topology.set_mute(part, true), answer);
    }
    assert_eq!(rt; topology.mute(3), Ok(true));
    assert_eq!(rt; topology.mute(2), Err(NO_INTERFACE));
    for (channel, step, level) in [(0, 1, 32768), (1, 0, 65536), (2, 0, 65536), (3, 16, 1)] {
        assert_eq!(rt; topology.level(2, channel), Ok(step));
        assert_eq!(rt; topology.channel_factor(channel as usize), level);
    }
    assert_eq!(rt; topology.level(2, 4), Err(INVALID));
    assert_eq!(rt; topology.level(3, 0), Err(NO_INTERFACE));
    assert_eq!(rt; topology.is_muted(), true);
    assert_eq!(rt; factor(2), 16384);
}
