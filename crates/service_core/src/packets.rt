//! Packets of a store, as bytes.

ghost use Rattle.std.specs.Prelude.{◌≡◌, suc, ◌≤◌, length, take};
ghost use Rattle.ca_machine.specs.Data.{packet_bytes};
ghost use Rattle.period_engine.specs.Packed.{packet_of};
ghost use Rattle.reply_payload.specs.declared.payload.TheConstants.{REPLY_ROOM};
ghost use Rattle.service_core.specs.Core.{IsLooked};
ghost use Rattle.service_core.specs.Packets.{HasPacket, IsReplyRoom};

use crate::BothEnds;
use buffer_ring::FrameStore;
use ca_base::Bytes;
use period_engine::StreamEntry;
use reply_payload::{add_frames, put_packet_head};

/// How many words are read of a store at a time, onto the stack.
const BATCH: u32 = 64;

/// Puts the first packet of an entry's store into the payload of a reply.
pub fn put_packet<F: FrameStore>(entry: &mut StreamEntry<BothEnds<F>>, out: &mut Bytes)
    requires packet { HasPacket F.kept entry.old }
    requires reply { IsReplyRoom out.old }
    ensures list { out.new.list ≡ packet_bytes (packet_of entry.old.channels
        (take (suc entry.old.period) (F.kept entry.old.store.store).words)) }
    ensures within { length out.new.list ≤ REPLY_ROOM }
    ensures keeps { out.old.capacity ≤ out.new.capacity }
    ensures looked { IsLooked F.kept entry.old entry.new }
{
    let head = entry.store.store.client_get(0);
    put_packet_head(entry.period, head % 2 == 1, head / 2, out);
    let mut batch = [0; BATCH as usize];
    let mut place = 0;
    while place < entry.period {
        let count = (entry.period - place).min(BATCH);
        let words = &mut batch[..count as usize];
        entry.store.store.read(1 + place, words);
        add_frames(words, entry.channels, out);
        place += count;
    }
}
