//! Devices in memory, for runs whose failing calls are chosen.

ghost use Rattle.std.specs.Prelude.{◌≡◌, ◌<◌, ◌≤◌, ◌↔◌, ◌==◌, ◌||◌, not, if◌then◌else◌, ◌++◌, length};
ghost use Rattle.std.specs.Prelude.{min, map, take, drop, Some, IfOk, OnErr, IsErr, IsTrue};
ghost use Rattle.ca_base.specs.Faults.{Counts};
ghost use Rattle.device_io.specs.DeviceLog.{written_at, left_at};
ghost use Rattle.device_io.specs.Memory.{new_log, new_devices, has_log, room_at, fails_by_number, limited};
ghost use Rattle.device_io.specs.Memory.{is_failing, taken_count, devices_took, devices_gave, devices_failed};

use crate::Devices;
use crate::endpoints::{self, MemEndpoint};
use ca_base::{Bytes, EndpointNo, Failed, Faults, NoMemory};
use std::alloc::Global;
use std::marker::Model;

/// Devices that keep what was written and what is left. Their calls, writes and reads together, are numbered from 1.
#[derive(Drop)]
pub struct MemDevices {
    endpoints: Vec<MemEndpoint>,
    capacity: usize,
    calls: u64,
    failing: Vec<(u64, usize)>,
    faults: Faults,
}

impl Model for MemDevices {
    ghost use Rattle.std.specs.List.{All};
    ghost use Rattle.device_io.specs.Memory.{DevicesState};
    ghost use Rattle.device_io.specs.MemEndpoints.{logs_of, IsSound};

    ghost Value = { DevicesState };

    ghost view = { λ d. record {
      logs = logs_of d.endpoints.items;
      capacity = d.capacity;
      calls = d.calls;
      failing = d.failing.items;
      faults = d.faults;
    } };

    ghost invariant = { λ d. All (IsSound d.capacity) d.endpoints.items };
}

impl MemDevices {
    /// Devices of these endpoints, each with the bytes that it gives and a capacity of `capacity` bytes in all, whose
    /// memory is taken now. Of an endpoint that occurs twice in `left` the first counts. An entry (n, 0) of `failing`
    /// has call n fail. An entry (n, k) with another k has call n take at most k bytes if it is a write, and call n + 1
    /// fail.
    pub fn new(
        alloc: Global,
        left: Vec<(EndpointNo, Bytes)>,
        capacity: usize,
        failing: Vec<(u64, usize)>,
    ) -> Result<MemDevices, NoMemory>
        ensures { IfOk result (λ d.
            d ≡ new_devices (map (λ p. new_log p.0.0 p.1.list) left.items) capacity failing.items) }
    {
        let endpoints = endpoints::new_endpoints(alloc, left, capacity)?;
        Ok(MemDevices {
            endpoints,
            capacity,
            calls: 0,
            failing,
            faults: Faults::new(),
        })
    }

    /// What was written to an endpoint: nothing if it isn't there.
    pub fn written(&self, e: EndpointNo) -> &[u8]
        ensures { result.now ≡ written_at e.0 self.now.logs }
    {
        endpoints::written_to(&self.endpoints, e)
    }

    /// How many calls have failed. The count saturates at 2^64 - 1.
    pub fn faults(&self) -> u64
        ensures { result ≡ self.now.faults }
    {
        self.faults.count()
    }
}

impl Devices for MemDevices {
    ghost faults = { λ d. d.faults };

    ghost told = { λ d. Some d.logs };

    /// Takes what still fits, or less if the call is limited. A call for an endpoint that isn't there fails, and so
    /// does one that finds no room.
    #[tactic(auto, using(crate::proofs::Limits::limited_some))]
    fn write(&mut self, e: EndpointNo, piece: &[u8]) -> Result<usize, Failed>
        requires { 0 < length piece.now }
        ensures cause { Counts result self.old.faults self.new.faults }
        ensures fails { IsErr result ↔
            IsTrue (is_failing self.old || (room_at e.0 self.old.capacity self.old.logs == 0)) }
        ensures some { IfOk result (λ n. 0 < n) }
        ensures count { IfOk result (λ n. n ≡ taken_count e.0 (length piece.now) self.old) }
        ensures within { IfOk result (λ n. n ≤ length piece.now) }
        ensures ok { IfOk result (λ n. self.new ≡ devices_took e.0 (take n piece.now) self.old) }
        ensures err { OnErr result (self.new ≡ devices_failed self.old) }
    {
        self.calls = self.calls.saturating_add(1);
        let most = admitted(&self.failing, self.calls, piece.len());
        let count = endpoints::take_piece(&mut self.endpoints, e, &piece[..most], self.capacity);
        if count == 0 {
            return Err(self.faults.raise());
        }
        Ok(count)
    }

    /// Gives as many bytes as `buf` holds, or all that are left. A call for an endpoint that isn't there fails.
    fn read(&mut self, e: EndpointNo, buf: &mut [u8]) -> Result<usize, Failed>
        requires { 0 < length buf.old }
        ensures cause { Counts result self.old.faults self.new.faults }
        ensures fails { IsErr result ↔ IsTrue (is_failing self.old || not (has_log e.0 self.old.logs)) }
        ensures count { IfOk result (λ n.
            n ≡ min (length buf.old) (length (left_at e.0 self.old.logs))) }
        ensures gives { IfOk result (λ n.
            buf.new ≡ take n (left_at e.0 self.old.logs) ++ drop n buf.old) }
        ensures ok { IfOk result (λ n. self.new ≡ devices_gave e.0 n self.old) }
        ensures err { OnErr result (self.new ≡ devices_failed self.old) }
        ensures keeps { OnErr result (buf.new ≡ buf.old) }
    {
        self.calls = self.calls.saturating_add(1);
        let fails = call_fails(&self.failing, self.calls);
        if !fails
            && let Some(count) = endpoints::give_front(&mut self.endpoints, e, buf, self.capacity)
        {
            return Ok(count);
        }
        Err(self.faults.raise())
    }
}

/// Whether a call fails by its number.
fn call_fails(failing: &[(u64, usize)], number: u64) -> bool
    requires { 0 < number }
    ensures { result ≡ fails_by_number failing.now number }
{
    failing.iter().any(|entry| if entry.1 == 0 {
        entry.0 == number
    } else {
        entry.0 == number - 1
    })
}

/// How many of `offered` bytes a write with this number may take: none if it fails.
#[tactic(auto, using(crate::proofs::Limits::limited_within))]
fn admitted(failing: &[(u64, usize)], number: u64, offered: usize) -> usize
    requires { 0 < number }
    ensures value { result ≡
        (if fails_by_number failing.now number then 0 else limited failing.now number offered) }
    ensures within { result ≤ offered }
{
    if call_fails(failing, number) {
        0
    } else {
        limit_of(failing, number, offered)
    }
}

/// The smallest of the limits of a write with this number and of the bytes offered to it.
fn limit_of(failing: &[(u64, usize)], number: u64, offered: usize) -> usize
    ensures { result ≡ limited failing.now number offered }
{
    failing
        .iter()
        .filter(|entry| entry.0 == number && entry.1 != 0)
        .map(|entry| entry.1)
        .fold(offered, |most, limit| most.min(limit))
}
