//! The parts of a topology: their numbers, their kinds, and the factor of a step.

ghost use Rattle.std.specs.Prelude.{◌≡◌, ◌≤◌};
ghost use Rattle.ca_base.specs.declared.limits.TheConstants.{MAX_LEVEL};
ghost use Rattle.topology.specs.Parts.{kind_number};
ghost use Rattle.topology.specs.Settings.{factor};

use ca_base::limits::MAX_LEVEL;

/// The part where sound comes in, a connector, and so on along the chain for the parts below (numbers are own).
pub const FIRST_PART: u32 = 1;

pub const VOLUME_PART: u32 = 2;

pub const MUTE_PART: u32 = 3;

/// The part where sound goes out, a connector.
pub const LAST_PART: u32 = 4;

/// Against the way of sound (IPart::EnumPartsIncoming; the number is own).
pub const INCOMING: u8 = 0;

/// The way of sound (IPart::EnumPartsOutgoing; the number is own).
pub const OUTGOING: u8 = 1;

/// How many channels a topology has steps for: no format has more.
pub const CHANNELS: usize = 4;

/// The greatest step of a channel: its factor is 1, the least that isn't silence.
pub const MAX_STEP: u32 = 16;

/// What a part is (IPart::GetPartType, IPart::GetSubType).
#[derive(Clone, Copy, Debug, PartialEq, Eq)]
pub enum PartKind {
    /// Where sound comes in or goes out (IConnector).
    Connector,
    /// It has a step for each channel (IAudioVolumeLevel).
    Volume,
    /// It has a mute (IAudioMute).
    Mute,
}

impl PartKind {
    /// Its number, from 0 to 2 (own).
    pub fn number(self) -> u8
        ensures { result ≡ kind_number self }
    {
        match self {
            PartKind::Connector => 0,
            PartKind::Volume => 1,
            PartKind::Mute => 2,
        }
    }
}

/// The level that a step of a volume part stands for, 65536 to 1: it is halved at each step (-6 dB, a whole number in
/// place of IPerChannelDbLevel's float).
pub fn factor(step: u32) -> u32
    requires { step ≤ MAX_STEP }
    ensures factor { result ≡ factor step }
    ensures within { result ≤ MAX_LEVEL }
{
    MAX_LEVEL >> step
}
