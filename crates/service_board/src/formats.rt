//! Control calls on what a client may open (IAudioClient): its endpoint's format and periods.

ghost use Rattle.std.specs.Prelude.{None};
ghost use Rattle.ca_machine.specs.Streams.{get_device_period_plan, get_mix_format_plan, is_format_supported_plan};
ghost use Rattle.reply_payload.specs.Answers.{code_of, payload_of};
ghost use Rattle.service_board.specs.Does.{AnyData, Does};
ghost use Rattle.service_board.specs.InOrder.{InOrder};

use crate::Board;
use buffer_ring::EngineSide;
use ca_base::limits::{MIN_EXCLUSIVE_PERIOD, SHARED_PERIOD};
use ca_base::{ClientNo, ConnNo, Hr};
use device_io::Devices;
use reply_payload::Payload;
use service_book::support;
use wave_format::Format;

impl<D: Devices, E: EngineSide> Board<D, E> {
    /// IAudioClient::GetMixFormat: the endpoint's format.
    pub fn get_mix_format(&self, conn: ConnNo, client: ClientNo) -> Result<Payload, Hr>
        requires order { InOrder E.state self.now }
        ensures does { Does D.faults D.told E.moves None AnyData self.now self.now
            (λ st. get_mix_format_plan st conn.0 client.0) (code_of result) (payload_of result) }
    {
        self.connected(conn)?;
        let at = self.valid_endpoint(conn, client)?;
        Ok(Payload::Format(self.book.endpoint(at).format))
    }

    /// IAudioClient::GetDevicePeriod: the period of shared streams, and the least one of exclusive streams, in units of
    /// 100 ns.
    pub fn get_device_period(&self, conn: ConnNo, client: ClientNo) -> Result<Payload, Hr>
        requires order { InOrder E.state self.now }
        ensures does { Does D.faults D.told E.moves None AnyData self.now self.now
            (λ st. get_device_period_plan st conn.0 client.0) (code_of result) (payload_of result) }
    {
        self.connected(conn)?;
        self.valid_endpoint(conn, client)?;
        Ok(Payload::Longs(SHARED_PERIOD, MIN_EXCLUSIVE_PERIOD))
    }

    /// IAudioClient::IsFormatSupported, for a format's bytes: S_FALSE comes with the closest format of a shared stream.
    pub fn is_format_supported(
        &self,
        conn: ConnNo,
        client: ClientNo,
        share: u32,
        format: &[u8],
    ) -> Result<Payload, Hr>
        requires order { InOrder E.state self.now }
        ensures does { Does D.faults D.told E.moves None AnyData self.now self.now
            (λ st. is_format_supported_plan st conn.0 client.0 share format.now)
            (code_of result) (payload_of result) }
    {
        self.connected(conn)?;
        let at = self.valid_endpoint(conn, client)?;
        support(share, self.book.endpoint(at), format)
    }
}
