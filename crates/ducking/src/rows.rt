//! What ducking knows of a session.

ghost use Rattle.std.specs.Prelude.{◌≡◌};
ghost use Rattle.std.specs.List.{position};
ghost use Rattle.ducking.specs.Ducking.{may_be_ducked, is_row, share_of};

use ca_base::SessionNo;

/// What ducking asks of a session.
#[derive(Clone, Copy, Debug, PartialEq, Eq)]
pub struct DuckRow {
    pub session: SessionNo,
    /// Whether it is a communications session: it has a stream that isn't released, of a client that was activated with
    /// the role of communications (ERole: eCommunications).
    pub comms: bool,
    /// Whether one of its streams runs (AudioSessionStateActive).
    pub active: bool,
    /// Whether it opted out (IAudioSessionControl2::SetDuckingPreference).
    pub optout: bool,
}

impl DuckRow {
    /// 1 for an active communications session, or else 0.
    pub(crate) fn share(&self) -> u32
        ensures { result ≡ share_of self.now }
    {
        if self.comms && self.active { 1 } else { 0 }
    }

    /// Whether others may duck it: it is no communications session, and has not opted out.
    pub(crate) fn may_be_ducked(&self) -> bool
        ensures { result ≡ may_be_ducked self.now }
    {
        !self.comms && !self.optout
    }
}

/// The place of a session's row.
pub fn place_of(rows: &[DuckRow], s: SessionNo) -> Option<usize>
    ensures { result ≡ position (is_row s.0) rows.now }
{
    rows.iter().position(|row| row.session == s)
}
