//! What holds of the notices of steps: each function's contract is a law, and its body is empty.

ghost use Rattle.step_notices.specs.Laws.{SameDevicesAreQuiet, SameSessionsAreQuiet};

/// Nothing is told of devices if nothing changes.
pub fn same_devices_are_quiet()
    ensures { SameDevicesAreQuiet }
{}

/// Nothing is told of sessions if nothing changes.
pub fn same_sessions_are_quiet()
    ensures { SameSessionsAreQuiet }
{}
