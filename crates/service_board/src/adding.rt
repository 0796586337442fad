//! Add: an endpoint appears (IMMNotificationClient::OnDeviceAdded; the rest is this project's own).

ghost use Rattle.std.specs.Prelude.{◌≡◌, IfErr, IfOk, OnOk, None, Ok, Some};
ghost use Rattle.wave_format.specs.Format.{format_at};
ghost use Rattle.ca_machine.specs.Devices.{add_plan, add_rows};
ghost use Rattle.reply_payload.specs.Answers.{code_of, payload_of};
ghost use Rattle.service_board.specs.Does.{AnyData, Does};
ghost use Rattle.service_board.specs.InOrder.{InOrder};
ghost use Rattle.service_board.specs.Lookups.{Says};

use crate::{Board, Seat};
use buffer_ring::EngineSide;
use ca_base::limits::ENDPOINTS;
use ca_base::values::STATE_ACTIVE;
use ca_base::{EndpointNo, Hr, Text};
use device_io::Devices;
use device_registry::Endpoint;
use period_engine::Block;
use reply_payload::Payload;
use service_book::{flow_of, shared_frames};
use std::alloc::Global;
use wave_format::{Format, read_format};

impl<D, E: EngineSide> Board<D, E> {
    /// Whether an endpoint may be added: its format, or the code of the first row that refuses it.
    fn check_add(
        &self,
        number: EndpointNo,
        flow: u8,
        format: &[u8],
        name: &Text,
    ) -> Result<Format, Hr>
        ensures refused { IfErr result (λ code.
            Says self.now (λ st. add_rows st number.0 flow format.now name.now) (Some code)) }
        ensures free { OnOk result (Says self.now (λ st. add_rows st number.0 flow format.now name.now) None) }
        ensures format { IfOk result (λ f. format_at format.now ≡ Ok f) }
    {
        self.runs()?;
        if self.book.is_wrong_add(number, flow, name) {
            return Err(Hr::E_INVALIDARG);
        }
        let Ok(format) = read_format(format) else {
            return Err(Hr::E_INVALIDARG);
        };
        if self.book.registry.endpoints().len() >= ENDPOINTS {
            return Err(Hr::ENDPOINTS_FULL);
        }
        Ok(format)
    }
}

impl<D: Devices, E: EngineSide> Board<D, E> {
    /// Adds an endpoint of this number and flow, with a format as the bytes of a WAVEFORMATEX. The memory for its
    /// periods is taken now: E_OUTOFMEMORY if there is none.
    pub fn add(
        &mut self,
        alloc: Global,
        number: EndpointNo,
        flow: u8,
        format: &[u8],
        name: &Text,
    ) -> Result<Payload, Hr>
        requires order { InOrder E.state self.old }
        ensures does { Does D.faults D.told E.moves None AnyData self.old self.new
            (λ st. add_plan st number.0 flow format.now name.now) (code_of result) (payload_of result) }
        ensures order { InOrder E.state self.new }
    {
        let format = self.check_add(number, flow, format, name)?;
        let endpoint = Endpoint {
            no: number,
            flow: flow_of(flow),
            state: STATE_ACTIVE,
            format,
            name: *name,
            allow: true,
            priority: true,
        };
        let Ok(block) = Block::new(alloc, shared_frames(&endpoint), format.channels) else {
            return Err(Hr::E_OUTOFMEMORY);
        };
        let Ok(()) = self.book.registry.add(endpoint) else {
            unreachable!();
        };
        self.seats.push_reserved(Seat {
            endpoint: number,
            next: 0,
            block,
        });
        Ok(Payload::Nothing)
    }
}
