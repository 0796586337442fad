//! The endpoints of devices in memory.

ghost use Rattle.std.specs.Prelude.{◌≡◌, ◌-◌, ◌<◌, ◌++◌, ◌↔◌, length, min, map, take, drop};
ghost use Rattle.std.specs.Prelude.{IfOk, IfSome, IfNone, IsSome, IsTrue};
ghost use Rattle.std.specs.List.{All, position};
ghost use Rattle.device_io.specs.DeviceLog.{written_at, left_at, with_piece, without_front, add_written, take_left};
ghost use Rattle.device_io.specs.MemEndpoints.{log_of, logs_of, is_of, IsSound};
ghost use Rattle.device_io.specs.Memory.{new_log, has_log, room_at};

use ca_base::{Bytes, EndpointNo, NoMemory};
use std::alloc::Global;

/// What was written to one endpoint, and what it has left: the bytes of `left` from `given` on.
#[derive(Drop)]
pub struct MemEndpoint {
    endpoint: EndpointNo,
    written: Bytes,
    left: Bytes,
    given: usize,
}

impl MemEndpoint {
    /// An endpoint to which nothing was written. The memory for `capacity` bytes is taken now.
    pub fn new(
        alloc: Global,
        endpoint: EndpointNo,
        left: Bytes,
        capacity: usize,
    ) -> Result<MemEndpoint, NoMemory>
        ensures log { IfOk result (λ m. log_of m ≡ new_log endpoint.0 left.list) }
        ensures sound { IfOk result (λ m. IsSound capacity m) }
    {
        let written = Bytes::with_capacity(alloc, capacity)?;
        Ok(MemEndpoint {
            endpoint,
            written,
            left,
            given: 0,
        })
    }

    /// Takes as much of the piece as still fits in the capacity, and answers how many bytes.
    fn take(&mut self, piece: &[u8], capacity: usize) -> usize
        requires { IsSound capacity self.old }
        ensures count { result ≡ min (length piece.now) (capacity - length (log_of self.old).written) }
        ensures log { log_of self.new ≡ with_piece (take result piece.now) (log_of self.old) }
        ensures sound { IsSound capacity self.new }
    {
        let count = piece.len().min(capacity - self.written.len());
        match self.written.append(&piece[..count]) {
            Ok(()) => count,
            Err(_) => unreachable!(),
        }
    }

    /// Gives as many bytes as `buf` holds, or all that are left, and answers how many.
    fn give(&mut self, buf: &mut [u8], capacity: usize) -> usize
        requires { IsSound capacity self.old }
        ensures count { result ≡ min (length buf.old) (length (log_of self.old).left) }
        ensures gives { buf.new ≡ take result (log_of self.old).left ++ drop result buf.old }
        ensures log { log_of self.new ≡ without_front result (log_of self.old) }
        ensures sound { IsSound capacity self.new }
    {
        let (_, left) = self.left.as_slice().split_at(self.given);
        let count = buf.len().min(left.len());
        buf[..count].copy_from_slice(&left[..count]);
        self.given += count;
        count
    }
}

/// An endpoint for each pair, in their order.
pub fn new_endpoints(
    alloc: Global,
    left: Vec<(EndpointNo, Bytes)>,
    capacity: usize,
) -> Result<Vec<MemEndpoint>, NoMemory>
    ensures logs { IfOk result (λ v. logs_of v.items ≡ map (λ p. new_log p.0.0 p.1.list) left.items) }
    ensures sound { IfOk result (λ v. All (IsSound capacity) v.items) }
{
    let mut endpoints = Vec::new(alloc);
    for (number, bytes) in left {
        let endpoint = MemEndpoint::new(alloc, number, bytes, capacity)?;
        endpoints.push(endpoint)?;
    }
    Ok(endpoints)
}

/// The place of the first endpoint of this number.
fn place_of(endpoints: &[MemEndpoint], e: EndpointNo) -> Option<usize>
    ensures { result ≡ position (is_of e.0) endpoints.now }
{
    endpoints
        .iter()
        .position(|endpoint| e.0 == endpoint.endpoint.0)
}

/// What was written to an endpoint: nothing if it isn't there.
#[tactic(auto, using(crate::proofs::Places::places))]
pub fn written_to(endpoints: &[MemEndpoint], e: EndpointNo) -> &[u8]
    ensures { result.now ≡ written_at e.0 (logs_of endpoints.now) }
{
    match place_of(endpoints, e) {
        Some(i) => endpoints[i].written.as_slice(),
        None => &[],
    }
}

/// Has an endpoint take as much of the piece as still fits, and answers how many bytes: 0 if it isn't there.
#[tactic(auto, using(crate::proofs::Places::places))]
pub fn take_piece(
    endpoints: &mut Vec<MemEndpoint>,
    e: EndpointNo,
    piece: &[u8],
    capacity: usize,
) -> usize
    requires { All (IsSound capacity) endpoints.old.items }
    ensures count { result ≡ min (length piece.now) (room_at e.0 capacity (logs_of endpoints.old.items)) }
    ensures logs { 0 < result →
        logs_of endpoints.new.items ≡ add_written e.0 (take result piece.now) (logs_of endpoints.old.items) }
    ensures none { result ≡ 0 → logs_of endpoints.new.items ≡ logs_of endpoints.old.items }
    ensures sound { All (IsSound capacity) endpoints.new.items }
{
    match place_of(endpoints, e) {
        Some(i) => {
            let endpoint = &mut endpoints[i];
            endpoint.take(piece, capacity)
        }
        None => 0,
    }
}

/// Has an endpoint give the front of what it has left, and answers how many bytes: `None` exactly if it isn't there.
#[tactic(auto, using(crate::proofs::Places::places))]
pub fn give_front(
    endpoints: &mut Vec<MemEndpoint>,
    e: EndpointNo,
    buf: &mut [u8],
    capacity: usize,
) -> Option<usize>
    requires { All (IsSound capacity) endpoints.old.items }
    ensures there { IsSome result ↔ IsTrue (has_log e.0 (logs_of endpoints.old.items)) }
    ensures count { IfSome result (λ n.
        n ≡ min (length buf.old) (length (left_at e.0 (logs_of endpoints.old.items)))) }
    ensures gives { IfSome result (λ n.
        buf.new ≡ take n (left_at e.0 (logs_of endpoints.old.items)) ++ drop n buf.old) }
    ensures logs { IfSome result (λ n.
        logs_of endpoints.new.items ≡ take_left e.0 n (logs_of endpoints.old.items)) }
    ensures none { IfNone result (logs_of endpoints.new.items ≡ logs_of endpoints.old.items) }
    ensures keeps { IfNone result (buf.new ≡ buf.old) }
    ensures sound { All (IsSound capacity) endpoints.new.items }
{
    match place_of(endpoints, e) {
        Some(i) => {
            let endpoint = &mut endpoints[i];
            Some(endpoint.give(buf, capacity))
        }
        None => None,
    }
}
