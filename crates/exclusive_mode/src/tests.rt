//! What clients get, in worked rows.

use super::Claim::{Granted, Refused, TakeOver};
use super::*;
use ca_base::{ClientNo, Hr};

/// A shared stream of client 1.
const SHARED: Held = Held {
    client: ClientNo(1),
    exclusive: false,
};

/// A shared stream of client 2.
const OTHER: Held = Held {
    client: ClientNo(2),
    exclusive: false,
};

/// An exclusive stream of client 3.
const ALONE: Held = Held {
    client: ClientNo(3),
    exclusive: true,
};

#[test]
fn claims_are_as_worked(rt: HostRuntime) {
    let in_use = Refused(Hr(0x8889000A));
    let rows: [(bool, &[Held], bool, Claim); 11] = [
        (false, &[], false, Granted),
        (true, &[], false, Granted),
        (true, &[], true, Granted),
        (false, &[SHARED], true, Granted),
        (false, &[SHARED, OTHER], false, Granted),
        (true, &[SHARED, OTHER], true, TakeOver),
        (true, &[SHARED], false, in_use),
        (false, &[ALONE], true, in_use),
        (true, &[ALONE], true, in_use),
        (true, &[SHARED, ALONE], true, in_use),
        (false, &[ALONE, SHARED], false, in_use),
    ];
    for (exclusive, held, priority, expected) in rows {
        assert_eq!(rt; claim(exclusive, held, priority), expected);
    }
}

#[test]
fn claims_tell_what_they_are(rt: HostRuntime) {
    let rows = [
        (Granted, None, false),
        (TakeOver, None, true),
        (Refused(Hr::DEVICE_IN_USE), Some(Hr(0x8889000A)), false),
    ];
    for (claimed, refusal, takeover) in rows {
        assert_eq!(rt; claimed.refusal(), refusal);
        assert_eq!(rt; claimed.is_takeover(), takeover);
    }
}
