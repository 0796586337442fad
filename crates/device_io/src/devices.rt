//! What the service asks of the devices.

ghost use Rattle.std.specs.Prelude.{◌≡◌, ℕ, ◌<◌, ◌≤◌, List, Option, [], take, length, IfOk, OnErr, IfSome};
ghost use Rattle.std.specs.Option.{option_map};
ghost use Rattle.ca_base.specs.Faults.{Counts};
ghost use Rattle.device_io.specs.DeviceLog.{DeviceLog, left_at, add_written, take_left};

use ca_base::{EndpointNo, Failed};

/// The devices behind the endpoints: a render endpoint's takes bytes, a capture endpoint's gives them.
pub trait Devices: Drop {
    /// How many calls have failed. It never falls.
    ghost faults: { Self → ℕ };

    /// The log of each endpoint, if the contents of the devices are specified.
    ghost told: { Self → Option (List DeviceLog) };

    /// Takes at least one byte of the front of the piece for endpoint `e`, and answers how many.
    fn write(&mut self, e: EndpointNo, piece: &[u8]) -> Result<usize, Failed>
        requires { 0 < length piece.now }
        ensures some { IfOk result (λ n. 0 < n) }
        ensures count { IfOk result (λ n. n ≤ length piece.now) }
        ensures cause { Counts result (faults self.old) (faults self.new) }
        ensures takes { IfOk result (λ n.
            told self.new ≡ option_map (add_written e.0 (take n piece.now)) (told self.old)) }
        ensures err { OnErr result (told self.new ≡ told self.old) };

    /// Reads the next bytes of endpoint `e` into the front of `buf`, and answers how many. 0 is the end: if contents
    /// are specified, exactly if nothing is left there.
    fn read(&mut self, e: EndpointNo, buf: &mut [u8]) -> Result<usize, Failed>
        requires { 0 < length buf.old }
        ensures count { IfOk result (λ n. n ≤ length buf.new) }
        ensures cause { Counts result (faults self.old) (faults self.new) }
        ensures front { IfOk result (λ n.
            IfSome (told self.old) (λ logs. take n buf.new ≡ take n (left_at e.0 logs))) }
        ensures gives { IfOk result (λ n. told self.new ≡ option_map (take_left e.0 n) (told self.old)) }
        ensures end { IfOk result (λ n. n ≡ 0 → IfSome (told self.old) (λ logs. left_at e.0 logs ≡ [])) }
        ensures err { OnErr result (told self.new ≡ told self.old) };
}
