//! What is set of an endpoint's topology.

ghost use Rattle.std.specs.Prelude.{◌≡◌};
ghost use Rattle.topology.specs.Settings.{settings_at_start};

use crate::parts::CHANNELS;
use ca_base::Flow;
use std::marker::Model;

/// What is set of an endpoint's topology: the step of each channel at its volume part, and the mute of its mute part.
/// It takes no memory.
#[derive(Clone, Copy)]
pub struct Topology {
    pub(crate) flow: Flow,
    pub(crate) steps: [u32; CHANNELS],
    pub(crate) mute: bool,
}

impl Model for Topology {
    ghost use Rattle.topology.specs.Settings.{AreSettings, Settings};

    ghost Value = { Settings };

    ghost view = { λ t. record { flow = t.flow; steps = t.steps; mute = t.mute } };

    ghost invariant = { λ t. AreSettings t.steps };

    ghost inverse = { λ s. record { flow = s.flow; steps = s.steps; mute = s.mute } };
}

impl Topology {
    /// The topology of an endpoint of this flow that was just added: all steps 0, and no mute.
    pub fn for_endpoint(flow: Flow) -> Topology
        ensures { result ≡ settings_at_start flow }
    {
        Topology {
            flow,
            steps: [0; CHANNELS],
            mute: false,
        }
    }
}
