//! What is read of an endpoint's topology.

ghost use Rattle.std.specs.Prelude.{◌≡◌, ◌≤◌, ◌<◌, Some, IfOk};
ghost use Rattle.std.specs.Option.{option_map};
ghost use Rattle.std.specs.Result.{result_err};
ghost use Rattle.ca_base.specs.declared.limits.TheConstants.{MAX_LEVEL};
ghost use Rattle.ca_base.specs.Rows.{first};
ghost use Rattle.topology.specs.Parts.{next_part, part_at};
ghost use Rattle.topology.specs.Rows.{answered, control_rows, level_rows, mute_rows, next_rows, part_rows};
ghost use Rattle.topology.specs.Settings.{factor, step_at};

use crate::parts::{
    CHANNELS, FIRST_PART, INCOMING, LAST_PART, MAX_STEP, MUTE_PART, OUTGOING, PartKind,
    VOLUME_PART, factor,
};
use crate::settings::Topology;
use ca_base::{Flow, Hr};

impl Topology {
    /// The next part in a direction, 0 incoming or 1 outgoing (IPart::EnumPartsIncoming, IPart::EnumPartsOutgoing).
    ///
    /// Errors: E_NOTFOUND if there is no such part, E_INVALIDARG if the direction is above 1, E_NOTFOUND if there is no
    /// part that way.
    pub fn next(&self, part: u32, direction: u8) -> Result<u32, Hr>
        ensures code { result_err result ≡ first (next_rows self.now.flow part direction) }
        ensures part { IfOk result (λ next. next_part part direction ≡ Some next) }
    {
        self.kind(part)?;
        match direction {
            INCOMING if part > FIRST_PART => Ok(part - 1),
            OUTGOING if part < LAST_PART => Ok(part + 1),
            INCOMING | OUTGOING => Err(Hr::E_NOTFOUND),
            _ => Err(Hr::E_INVALIDARG),
        }
    }

    /// What a part is (IPart::GetPartType, IPart::GetSubType).
    ///
    /// Errors: E_NOTFOUND if there is no such part.
    pub fn kind(&self, part: u32) -> Result<PartKind, Hr>
        ensures code { result_err result ≡ first (part_rows self.now.flow part) }
        ensures kind { IfOk result (λ kind. option_map (λ p. p.kind) (part_at self.now.flow part) ≡ Some kind) }
    {
        match part {
            FIRST_PART | LAST_PART => Ok(PartKind::Connector),
            VOLUME_PART => Ok(PartKind::Volume),
            MUTE_PART => Ok(PartKind::Mute),
            _ => Err(Hr::E_NOTFOUND),
        }
    }

    /// The name of a part (IPart::GetName).
    ///
    /// Errors: E_NOTFOUND if there is no such part.
    pub fn name(&self, part: u32) -> Result<&'static str, Hr>
        ensures code { result_err result ≡ first (part_rows self.now.flow part) }
        ensures name { IfOk result (λ name. option_map (λ p. p.name) (part_at self.now.flow part) ≡ Some name.now) }
    {
        match (part, self.flow) {
            (FIRST_PART, Flow::Render) | (LAST_PART, Flow::Capture) => Ok("stream"),
            (FIRST_PART, Flow::Capture) => Ok("microphone"),
            (VOLUME_PART, _) => Ok("volume"),
            (MUTE_PART, _) => Ok("mute"),
            (LAST_PART, Flow::Render) => Ok("speaker"),
            _ => Err(Hr::E_NOTFOUND),
        }
    }

    /// The step of a channel, 0 to 16, at a volume part (IAudioVolumeLevel).
    ///
    /// Errors: E_NOTFOUND if there is no such part, E_NOINTERFACE if it is no volume, E_INVALIDARG if the channel is
    /// above 3.
    pub fn level(&self, part: u32, channel: u32) -> Result<u32, Hr>
        ensures step { result ≡ answered (level_rows self.now.flow part channel) (step_at channel self.now) }
        ensures within { IfOk result (λ step. step ≤ MAX_STEP) }
    {
        self.check_control(part, PartKind::Volume)?;
        let channel = channel as usize;
        if channel >= CHANNELS {
            return Err(Hr::E_INVALIDARG);
        }
        Ok(self.steps[channel])
    }

    /// Whether a mute part is muted (IAudioMute::GetMute).
    ///
    /// Errors: E_NOTFOUND if there is no such part, E_NOINTERFACE if it is no mute.
    pub fn mute(&self, part: u32) -> Result<bool, Hr>
        ensures { result ≡ answered (mute_rows self.now.flow part) self.now.mute }
    {
        self.check_control(part, PartKind::Mute)?;
        Ok(self.mute)
    }

    /// The level that the volume part stands for in a channel, 65536 to 1.
    pub fn channel_factor(&self, channel: usize) -> u32
        requires { channel < CHANNELS }
        ensures factor { result ≡ factor (step_at channel self.now) }
        ensures within { result ≤ MAX_LEVEL }
    {
        factor(self.steps[channel])
    }

    /// Whether the mute part is muted.
    pub fn is_muted(&self) -> bool
        ensures { result ≡ self.now.mute }
    {
        self.mute
    }

    /// Refuses a part that isn't there or isn't of this kind.
    pub(crate) fn check_control(&self, part: u32, kind: PartKind) -> Result<(), Hr>
        ensures { result_err result ≡ first (control_rows kind self.now.flow part) }
    {
        if self.kind(part)? == kind {
            Ok(())
        } else {
            Err(Hr::E_NOINTERFACE)
        }
    }
}
