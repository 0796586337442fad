//! Events of endpoints that are there, and the shutdown (IMMNotificationClient; the order of the rows is this project's
//! own). A refusal leaves the board as it was.

ghost use Rattle.std.specs.Prelude.{◌≡◌, IfErr, IfOk, None, Some, filter, not};
ghost use Rattle.std.specs.Vec.{vec_capacity};
ghost use Rattle.ca_machine.specs.Devices.{missing_rows, remove_plan, set_default_plan, set_exclusive_plan};
ghost use Rattle.ca_machine.specs.Devices.{set_format_plan, set_name_plan, set_state_plan, shutdown_plan};
ghost use Rattle.ca_machine.specs.Step.{device_plan};
ghost use Rattle.reply_payload.specs.Answers.{code_of, payload_of};
ghost use Rattle.service_board.specs.Does.{AnyData, Does};
ghost use Rattle.service_board.specs.InOrder.{InOrder, is_seat};
ghost use Rattle.service_board.specs.Lookups.{Says};
ghost use Rattle.service_board.specs.NamedEndpoints.{FindsNamed};

use crate::{Board, Seat};
use buffer_ring::EngineSide;
use ca_base::{EndpointNo, Hr, Reason, Text};
use ca_model::DeviceEvent;
use device_io::Devices;
use period_engine::Block;
use reply_payload::Payload;
use service_book::{
    is_text, is_wrong_choice, is_wrong_use, leaves_active, matches, shared_frames, with_exclusive,
    with_format, with_name,
};
use std::alloc::Global;
use stream_entries::disconnect;
use wave_format::{Format, read_format};

/// Takes the seat of an endpoint away.
fn drop_seat(seats: &mut Vec<Seat>, e: EndpointNo)
    ensures left { seats.new.items ≡ filter (λ s. not (is_seat e.0 s)) seats.old.items }
    ensures room { vec_capacity seats.new ≡ vec_capacity seats.old }
{
    seats.retain(|s| s.endpoint != e);
}

impl<D, E: EngineSide> Board<D, E> {
    /// The place in the book of an endpoint that an event names.
    ///
    /// Errors: SERVICE_NOT_RUNNING after a shutdown, E_NOTFOUND if the endpoint isn't there.
    fn named_endpoint(&self, e: EndpointNo) -> Result<usize, Hr>
        ensures refused { IfErr result (λ code. Says self.now (λ st. missing_rows st e.0) (Some code)) }
        ensures found { IfOk result (FindsNamed e.0 self.now) }
    {
        self.runs()?;
        match self.book.endpoint_place(e) {
            Some(at) => Ok(at),
            None => Err(Hr::E_NOTFOUND),
        }
    }
}

impl<D: Devices, E: EngineSide> Board<D, E> {
    /// Sets the state of an endpoint (DEVICE_STATE_XXX): 1, 2, 4 or 8. If it leaves ACTIVE, its streams are closed.
    ///
    /// Errors: those of the look-up, E_INVALIDARG if there is no such state.
    pub fn set_state(&mut self, e: EndpointNo, state: u32) -> Result<Payload, Hr>
        requires order { InOrder E.state self.old }
        ensures does { Does D.faults D.told E.moves None AnyData self.old self.new
            (λ st. set_state_plan st e.0 state) (code_of result) (payload_of result) }
        ensures order { InOrder E.state self.new }
    {
        let at = self.named_endpoint(e)?;
        let lost = leaves_active(&self.book.registry.endpoints()[at], state);
        self.book.registry.set_state(e, state)?;
        disconnect(&mut self.entries, lost, Some(e), Reason::Removal);
        Ok(Payload::Nothing)
    }

    /// Takes an endpoint away for good: its streams are closed, and its seat goes.
    ///
    /// Errors: those of the look-up.
    pub fn remove(&mut self, e: EndpointNo) -> Result<Payload, Hr>
        requires order { InOrder E.state self.old }
        ensures does { Does D.faults D.told E.moves None AnyData self.old self.new
            (λ st. remove_plan st e.0) (code_of result) (payload_of result) }
        ensures order { InOrder E.state self.new }
    {
        self.named_endpoint(e)?;
        disconnect(&mut self.entries, true, Some(e), Reason::Removal);
        drop_seat(&mut self.seats, e);
        let Ok(()) = self.book.registry.remove(e) else {
            unreachable!();
        };
        Ok(Payload::Nothing)
    }

    /// Gives an endpoint another format, as the bytes of a WAVEFORMATEX. If channels or rate differ, its streams are
    /// closed. The memory for its periods is taken before anything is changed: for the longest that it had room for.
    ///
    /// Errors: those of the look-up, E_INVALIDARG if the bytes are no format, E_OUTOFMEMORY.
    pub fn set_format(&mut self, alloc: Global, e: EndpointNo, format: &[u8]) -> Result<Payload, Hr>
        requires order { InOrder E.state self.old }
        ensures does { Does D.faults D.told E.moves None AnyData self.old self.new
            (λ st. set_format_plan st e.0 format.now) (code_of result) (payload_of result) }
        ensures order { InOrder E.state self.new }
    {
        let at = self.named_endpoint(e)?;
        let Ok(format) = read_format(format) else {
            return Err(Hr::E_INVALIDARG);
        };
        let old = &self.book.registry.endpoints()[at];
        let lost = !matches(&old.format, &format);
        let endpoint = with_format(old, format);
        let frames = shared_frames(&endpoint).max(self.seats[at].block.frames());
        let Ok(block) = Block::new(alloc, frames, format.channels) else {
            return Err(Hr::E_OUTOFMEMORY);
        };
        let Ok(()) = self.book.registry.replace(endpoint) else {
            unreachable!();
        };
        self.seats[at].block = block;
        disconnect(&mut self.entries, lost, Some(e), Reason::Format);
        Ok(Payload::Nothing)
    }

    /// Sets whether an endpoint may be used by one stream alone, and whether that takes precedence over shared streams:
    /// 0 or 1 each. A stream that is there stays.
    ///
    /// Errors: those of the look-up, E_INVALIDARG for another value.
    pub fn set_exclusive(&mut self, e: EndpointNo, allow: u8, priority: u8) -> Result<Payload, Hr>
        requires order { InOrder E.state self.old }
        ensures does { Does D.faults D.told E.moves None AnyData self.old self.new
            (λ st. set_exclusive_plan st e.0 allow priority) (code_of result) (payload_of result) }
        ensures order { InOrder E.state self.new }
    {
        let at = self.named_endpoint(e)?;
        if is_wrong_use(allow, priority) {
            return Err(Hr::E_INVALIDARG);
        }
        let endpoint = with_exclusive(&self.book.registry.endpoints()[at], allow, priority);
        let Ok(()) = self.book.registry.replace(endpoint) else {
            unreachable!();
        };
        Ok(Payload::Nothing)
    }

    /// Gives an endpoint another name (PKEY_Device_FriendlyName).
    ///
    /// Errors: those of the look-up, E_INVALIDARG if the name is no UTF-8.
    pub fn set_name(&mut self, e: EndpointNo, name: &Text) -> Result<Payload, Hr>
        requires order { InOrder E.state self.old }
        ensures does { Does D.faults D.told E.moves None AnyData self.old self.new
            (λ st. set_name_plan st e.0 name.now) (code_of result) (payload_of result) }
        ensures order { InOrder E.state self.new }
    {
        let at = self.named_endpoint(e)?;
        if !is_text(name.as_bytes()) {
            return Err(Hr::E_INVALIDARG);
        }
        let endpoint = with_name(&self.book.registry.endpoints()[at], name);
        let Ok(()) = self.book.registry.replace(endpoint) else {
            unreachable!();
        };
        Ok(Payload::Nothing)
    }

    /// Chooses an endpoint as the default of its flow (EDataFlow) in a role (ERole).
    ///
    /// Errors: those of the look-up, E_INVALIDARG if the flow isn't the endpoint's, or there is no such role.
    pub fn set_default(&mut self, flow: u8, role: u8, e: EndpointNo) -> Result<Payload, Hr>
        requires order { InOrder E.state self.old }
        ensures does { Does D.faults D.told E.moves None AnyData self.old self.new
            (λ st. set_default_plan st flow role e.0) (code_of result) (payload_of result) }
        ensures order { InOrder E.state self.new }
    {
        let at = self.named_endpoint(e)?;
        let endpoint = &self.book.registry.endpoints()[at];
        if is_wrong_choice(endpoint, flow, role) {
            return Err(Hr::E_INVALIDARG);
        }
        self.book.choices.choose(endpoint.flow, role, e);
        Ok(Payload::Nothing)
    }

    /// Shuts the service down: every stream is closed, and later calls are refused but for a few.
    ///
    /// Errors: SERVICE_NOT_RUNNING after a shutdown.
    pub fn shutdown(&mut self) -> Result<Payload, Hr>
        requires order { InOrder E.state self.old }
        ensures does { Does D.faults D.told E.moves None AnyData self.old self.new
            (λ st. shutdown_plan st) (code_of result) (payload_of result) }
        ensures order { InOrder E.state self.new }
    {
        self.runs()?;
        disconnect(&mut self.entries, true, None, Reason::Shutdown);
        self.book.is_shut = true;
        Ok(Payload::Nothing)
    }

    /// A device event.
    ///
    /// Errors: those of its kind, E_NOTIMPL for a code that isn't listed.
    pub fn device(&mut self, alloc: Global, event: &DeviceEvent) -> Result<Payload, Hr>
        requires order { InOrder E.state self.old }
        ensures does { Does D.faults D.told E.moves None AnyData self.old self.new
            (λ st. device_plan st event.now) (code_of result) (payload_of result) }
        ensures order { InOrder E.state self.new }
    {
        match event {
            DeviceEvent::Add {
                endpoint,
                flow,
                format,
                name,
            } => self.add(alloc, *endpoint, *flow, format.as_slice(), name),
            DeviceEvent::SetState { endpoint, state } => self.set_state(*endpoint, *state),
            DeviceEvent::Remove { endpoint } => self.remove(*endpoint),
            DeviceEvent::SetFormat { endpoint, format } => {
                self.set_format(alloc, *endpoint, format.as_slice())
            }
            DeviceEvent::SetDefault {
                flow,
                role,
                endpoint,
            } => self.set_default(*flow, *role, *endpoint),
            DeviceEvent::SetExclusive {
                endpoint,
                allow,
                priority,
            } => self.set_exclusive(*endpoint, *allow, *priority),
            DeviceEvent::SetName { endpoint, name } => self.set_name(*endpoint, name),
            DeviceEvent::Other { .. } => self.unlisted_event(),
        }
    }
}
