//! Levels of a stream's channels (IAudioStreamVolume), from 0 to 65536.

ghost use Rattle.std.specs.Prelude.{None};
ghost use Rattle.ca_machine.specs.Streams.{get_stream_level_plan, set_stream_level_plan};
ghost use Rattle.reply_payload.specs.Answers.{code_of, payload_of};
ghost use Rattle.service_board.specs.Does.{AnyData, Does};
ghost use Rattle.service_board.specs.InOrder.{InOrder};

use crate::Board;
use buffer_ring::EngineSide;
use ca_base::limits::MAX_LEVEL;
use ca_base::{ClientNo, ConnNo, Hr};
use device_io::Devices;
use reply_payload::Payload;

impl<D: Devices, E: EngineSide> Board<D, E> {
    /// IAudioStreamVolume::GetChannelVolume: the level of a channel, from 0. E_INVALIDARG if the stream has no such
    /// channel.
    pub fn get_stream_level(
        &self,
        conn: ConnNo,
        client: ClientNo,
        channel: u32,
    ) -> Result<Payload, Hr>
        requires order { InOrder E.state self.now }
        ensures does { Does D.faults D.told E.moves None AnyData self.now self.now
            (λ st. get_stream_level_plan st conn.0 client.0 channel) (code_of result) (payload_of result) }
    {
        let place = self.control_client(conn, client)?;
        let at = self.open_stream(conn, client)?;
        if channel >= self.entries[at].channels as u32 {
            return Err(Hr::E_INVALIDARG);
        }
        let levels = &self.book.clients[place].levels;
        Ok(Payload::Number(levels[channel as usize]))
    }

    /// IAudioStreamVolume::SetChannelVolume: the level of a channel, from 0. E_INVALIDARG if the stream has no such
    /// channel, or the level is above 65536.
    pub fn set_stream_level(
        &mut self,
        conn: ConnNo,
        client: ClientNo,
        channel: u32,
        level: u32,
    ) -> Result<Payload, Hr>
        requires order { InOrder E.state self.old }
        ensures does { Does D.faults D.told E.moves None AnyData self.old self.new
            (λ st. set_stream_level_plan st conn.0 client.0 channel level) (code_of result) (payload_of result) }
        ensures order { InOrder E.state self.new }
    {
        let place = self.control_client(conn, client)?;
        let at = self.open_stream(conn, client)?;
        if channel >= self.entries[at].channels as u32 || level > MAX_LEVEL {
            return Err(Hr::E_INVALIDARG);
        }
        self.book.clients[place].levels[channel as usize] = level;
        self.book.levels_changed = true;
        Ok(Payload::Nothing)
    }
}
