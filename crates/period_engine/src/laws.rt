//! A law of the definitions. The function does nothing: its contract is the law.

ghost use Rattle.std.specs.Prelude.{◌≡◌, ℕ, List};
ghost use Rattle.wave_format.specs.Frame.{frames_from};
ghost use Rattle.ca_stage.specs.Stage.{Stream};
ghost use Rattle.ca_stage.specs.Moves.{Mixing};
ghost use Rattle.ca_stage.specs.Mix.{mixed, sound_bytes};

use ca_stage::laws::mix_sums;
use wave_format::bytes_of_frames_are_read;

/// The frames in the bytes of a Sound are those that it mixed.
pub fn sound_bytes_hold_the_mix()
    ensures { (p channels : ℕ) (m : Mixing) (streams : List Stream) → m.frames ≡ p → m.channels ≡ channels →
        frames_from p channels (sound_bytes m streams) ≡ mixed m streams }
{
    mix_sums();
    bytes_of_frames_are_read();
}
