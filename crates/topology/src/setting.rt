//! What is set of an endpoint's topology.

ghost use Rattle.topology.specs.Rows.{SetsLevel, SetsMute};
ghost use Rattle.topology.specs.Settings.{AreSettings};

use crate::parts::{CHANNELS, MAX_STEP, PartKind};
use crate::settings::Topology;
use ca_base::Hr;

impl Topology {
    /// Sets the step of a channel at a volume part (IAudioVolumeLevel), unless it is refused: then nothing is changed.
    ///
    /// Errors: E_NOTFOUND if there is no such part, E_NOINTERFACE if it is no volume, E_INVALIDARG if the channel is
    /// above 3 or the step above 16.
    pub fn set_level(&mut self, part: u32, channel: u32, step: u32) -> Result<(), Hr>
        ensures sets { SetsLevel part channel step result self.old self.new }
        ensures holds { AreSettings self.new.steps }
    {
        self.check_control(part, PartKind::Volume)?;
        let channel = channel as usize;
        if channel >= CHANNELS || step > MAX_STEP {
            return Err(Hr::E_INVALIDARG);
        }
        self.steps[channel] = step;
        Ok(())
    }

    /// Sets the mute of a mute part (IAudioMute::SetMute), unless it is refused: then nothing is changed.
    ///
    /// Errors: E_NOTFOUND if there is no such part, E_NOINTERFACE if it is no mute.
    pub fn set_mute(&mut self, part: u32, mute: bool) -> Result<(), Hr>
        ensures sets { SetsMute part mute result self.old self.new }
        ensures holds { AreSettings self.new.steps }
    {
        self.check_control(part, PartKind::Mute)?;
        self.mute = mute;
        Ok(())
    }
}
