//! The laws of the logs of devices. Each is the contract of an empty function, for crates above to cite.

ghost use Rattle.std.specs.Prelude.{◌≡◌, ◌≢◌, ℕ, ◌+◌, List, ◌++◌, drop};
ghost use Rattle.device_io.specs.DeviceLog.{DeviceLog, written_at, left_at, add_written, take_left};
ghost use Rattle.device_io.specs.DeviceLog.{add_all, pieces_at};

/// A write adds its piece to what was written to its endpoint, and changes nothing else.
pub fn a_write_adds_its_piece()
    ensures same { (e : ℕ) (piece : List ℕ) (logs : List DeviceLog) →
        written_at e (add_written e piece logs) ≡ written_at e logs ++ piece }
    ensures other { (e d : ℕ) (piece : List ℕ) (logs : List DeviceLog) → e ≢ d →
        written_at e (add_written d piece logs) ≡ written_at e logs }
    ensures left { (e d : ℕ) (piece : List ℕ) (logs : List DeviceLog) →
        left_at e (add_written d piece logs) ≡ left_at e logs }
    ensures twice { (e : ℕ) (first second : List ℕ) (logs : List DeviceLog) →
        add_written e second (add_written e first logs) ≡ add_written e (first ++ second) logs }
{}

/// A read takes the front of what its endpoint has left, and changes nothing else.
pub fn a_read_takes_the_front()
    ensures same { (e n : ℕ) (logs : List DeviceLog) → left_at e (take_left e n logs) ≡ drop n (left_at e logs) }
    ensures other { (e d n : ℕ) (logs : List DeviceLog) → e ≢ d →
        left_at e (take_left d n logs) ≡ left_at e logs }
    ensures written { (e d n : ℕ) (logs : List DeviceLog) → written_at e (take_left d n logs) ≡ written_at e logs }
    ensures twice { (e m n : ℕ) (logs : List DeviceLog) →
        take_left e n (take_left e m logs) ≡ take_left e (m + n) logs }
{}

/// After any list of writes each endpoint has got its own pieces, joined in order. Two lists of writes, one after
/// the other, are one.
pub fn writes_gather()
    ensures written { (e : ℕ) (ws : List (ℕ × List ℕ)) (logs : List DeviceLog) →
        written_at e (add_all ws logs) ≡ written_at e logs ++ pieces_at e ws }
    ensures left { (e : ℕ) (ws : List (ℕ × List ℕ)) (logs : List DeviceLog) →
        left_at e (add_all ws logs) ≡ left_at e logs }
    ensures joins { (xs ys : List (ℕ × List ℕ)) (logs : List DeviceLog) →
        add_all (xs ++ ys) logs ≡ add_all ys (add_all xs logs) }
    ensures pieces { (e : ℕ) (xs ys : List (ℕ × List ℕ)) →
        pieces_at e (xs ++ ys) ≡ pieces_at e xs ++ pieces_at e ys }
{}
