//! The gain of one channel of a stream.

ghost use Rattle.std.specs.Prelude.{◌≡◌, ◌*◌, ◌≤◌};
ghost use Rattle.volume_stack.specs.Gains.{AreLevels, gain_of_stream};
ghost use Rattle.volume_stack.specs.Scaling.{unit_gain};

/// The levels of one channel of a stream, 0 to 65536, and whether its session is muted.
#[derive(Clone, Copy, Debug, PartialEq, Eq)]
pub struct Gains {
    pub stream: u32,
    pub session: u32,
    pub master: u32,
    pub duck: u32,
    pub mute: bool,
}

/// The levels of one channel of an endpoint, 0 to 65536, and whether the endpoint or its mute part is muted.
#[derive(Clone, Copy, Debug, PartialEq, Eq)]
pub struct EndGains {
    pub master: u32,
    pub channel: u32,
    pub part: u32,
    pub mute: bool,
}

/// The product of all levels of a stream's channel.
fn product(g: &Gains) -> u128
    requires { AreLevels g.now }
    ensures { result ≡ g.now.stream * g.now.session * g.now.master * g.now.duck }
{
    g.stream as u128 * g.session as u128 * g.master as u128 * g.duck as u128
}

/// The gain of a stream's channel, 0 to 65536: the product of its levels, rounded down once, or 0 if muted.
#[tactic(auto, using(crate::proofs::Products::four_levels))]
pub fn stream_gain(g: &Gains) -> u32
    requires { AreLevels g.now }
    ensures gain { result ≡ gain_of_stream g.now }
    ensures within { result ≤ unit_gain }
{
    if g.mute {
        return 0;
    }
    (product(g) / 0x1_0000_0000_0000) as u32
}
