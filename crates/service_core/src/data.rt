//! Data calls on a stream whose both ends are here (IAudioClient, IAudioRenderClient, IAudioCaptureClient).

ghost use Rattle.std.specs.Prelude.{◌≡◌, ◌==◌, ◌≤◌, min, length, Some, IfOk, IfErr, if◌then◌else◌};
ghost use Rattle.std.specs.Result.{result_err};
ghost use Rattle.ca_base.specs.Rows.{first};
ghost use Rattle.client_state.specs.Rows.{side_rows};
ghost use Rattle.client_state.specs.declared.check.DataCall.TheVariants as data_call;
ghost use Rattle.ca_stage.specs.Tally.{Tally};
ghost use Rattle.ca_machine.specs.Data.{capture_get_buffer_plan, capture_release_buffer_plan, frames_released};
ghost use Rattle.ca_machine.specs.Data.{get_buffer_plan, get_current_padding_plan, get_next_packet_size_plan};
ghost use Rattle.ca_machine.specs.Data.{packets_read, release_buffer_plan};
ghost use Rattle.period_engine.specs.Entries.{FitsStore};
ghost use Rattle.reply_payload.specs.Answers.{code_of, payload_of, told_code};
ghost use Rattle.reply_payload.specs.declared.payload.TheConstants.{REPLY_ROOM};
ghost use Rattle.service_board.specs.InOrder.{InOrder};
ghost use Rattle.service_core.specs.Core.{Goes, HasSide, IsLooked, IsTouched, Reads, Releases, seen_in};
ghost use Rattle.service_core.specs.DataCalls.{FindsEntry, RefusesData};
ghost use Rattle.service_core.specs.Packets.{IsReplyRoom};
ghost use Rattle.service_core.specs.Service.{IsCore};

use crate::BothEnds;
use crate::packets::put_packet;
use crate::putting::put_released;
use buffer_ring::FrameStore;
use ca_base::{Bytes, ClientNo, ConnNo, Hr};
use client_state::{ClientSide, DataCall, Verdict, data_check};
use device_io::Devices;
use period_engine::StreamEntry;
use reply_payload::Payload;
use service_board::Board;

/// Takes one look at an entry's store, and checks a data call: the code of its first row that holds, or else how many
/// words are there.
fn check<F: FrameStore>(entry: &mut StreamEntry<BothEnds<F>>, call: &DataCall) -> Result<u32, Hr>
    ensures row { result_err result
        ≡ first (side_rows entry.old.store.side call.now (seen_in (F.kept entry.old.store.store))) }
    ensures count { IfOk result (λ words. words ≡ length (F.kept entry.old.store.store).words) }
    ensures looked { IsLooked F.kept entry.old entry.new }
{
    let seen = entry.store.store.look();
    match data_check(&entry.store.side, call, seen) {
        Verdict::Answer(code) => Err(code),
        Verdict::Go => Ok(seen.words),
    }
}

/// IAudioRenderClient::GetBuffer on its stream: leases `frames` frames.
fn lease<F: FrameStore>(entry: &mut StreamEntry<BothEnds<F>>, frames: u32) -> Result<(), Hr>
    ensures row { result_err result ≡ first (side_rows entry.old.store.side (data_call.Get frames)
        (seen_in (F.kept entry.old.store.store))) }
    ensures refused { IfErr result (λ code. IsLooked F.kept entry.old entry.new) }
    ensures leased { IfOk result (λ u. IsTouched F.kept (record (entry.old.store.side) { lease = Some frames })
        (F.kept entry.old.store.store) entry.old entry.new) }
{
    check(entry, &DataCall::Get { n: frames })?;
    entry.store.side.lease = Some(frames);
    Ok(())
}

/// The size of a call's data. Sizes from 2^32 - 1 on stand for one another: no frames that fit in a store are as long.
fn size_of(bytes: &[u8]) -> u32
    ensures { result ≡ min (length bytes.now) 4294967295 }
{
    bytes.len().min(u32::MAX as usize) as u32
}

/// IAudioRenderClient::ReleaseBuffer on its stream: the frames go into the store, and the lease ends.
fn release_frames<F: FrameStore>(
    entry: &mut StreamEntry<BothEnds<F>>,
    frames: u32,
    flags: u32,
    bytes: &[u8],
) -> Result<(), Hr>
    requires side { HasSide F.kept entry.old }
    requires fits { FitsStore (λ ends. F.state ends.store) entry.old }
    ensures row { result_err result ≡ first (side_rows entry.old.store.side
        (data_call.Release frames flags (length bytes.now)) (seen_in (F.kept entry.old.store.store))) }
    ensures refused { IfErr result (λ code. IsLooked F.kept entry.old entry.new) }
    ensures released { IfOk result (λ u. Releases F.kept
        (frames_released frames flags bytes.now entry.old.channels) frames entry.old entry.new) }
{
    let call = DataCall::Release {
        m: frames,
        flags,
        len: size_of(bytes),
    };
    check(entry, &call)?;
    put_released(
        &mut entry.store.store,
        frames,
        flags,
        entry.store.side.block,
        bytes,
    );
    entry.store.side.released += frames as u64;
    entry.store.side.lease = None;
    Ok(())
}

/// IAudioCaptureClient::GetBuffer on its stream: leases the first packet.
fn lease_packet<F: FrameStore>(entry: &mut StreamEntry<BothEnds<F>>) -> Result<(), Hr>
    ensures row { result_err result ≡ first (side_rows entry.old.store.side data_call.CaptureGet
        (seen_in (F.kept entry.old.store.store))) }
    ensures refused { IfErr result (λ code. IsLooked F.kept entry.old entry.new) }
    ensures leased { IfOk result (λ u. IsTouched F.kept
        (record (entry.old.store.side) { lease = Some entry.old.store.side.period })
        (F.kept entry.old.store.store) entry.old entry.new) }
{
    check(entry, &DataCall::CaptureGet)?;
    entry.store.side.lease = Some(entry.store.side.period);
    Ok(())
}

/// IAudioCaptureClient::ReleaseBuffer on its stream: the lease ends, and the first packet is taken off the store unless
/// `frames` is 0.
fn release_packet<F: FrameStore>(
    entry: &mut StreamEntry<BothEnds<F>>,
    frames: u32,
) -> Result<(), Hr>
    requires side { HasSide F.kept entry.old }
    ensures row { result_err result ≡ first (side_rows entry.old.store.side (data_call.CaptureRelease frames)
        (seen_in (F.kept entry.old.store.store))) }
    ensures refused { IfErr result (λ code. IsLooked F.kept entry.old entry.new) }
    ensures read { IfOk result (λ u. Reads F.kept (packets_read frames) entry.old entry.new) }
{
    let words = check(entry, &DataCall::CaptureRelease { m: frames })?;
    if frames != 0 {
        let packet = words.min(entry.store.side.period + 1);
        entry.store.store.client_retire(packet);
    }
    entry.store.side.lease = None;
    Ok(())
}

/// The place of the entry of a data call's client.
fn data_place<D, F: FrameStore>(
    board: &Board<D, BothEnds<F>>,
    conn: ConnNo,
    client: ClientNo,
) -> Result<usize, Hr>
    requires order { InOrder (λ ends. F.state ends.store) board.now }
    ensures refused { IfErr result (RefusesData conn.0 client.0 board.now) }
    ensures found { IfOk result (FindsEntry conn.0 client.0 board.now) }
{
    board.live_client(conn, client)?;
    match board.entry_place(client) {
        Some(at) => Ok(at),
        None => Err(Hr::NOT_INITIALIZED),
    }
}

/// IAudioClient::GetCurrentPadding: the frames that are pending.
pub fn get_current_padding<D: Devices, F: FrameStore>(
    board: &mut Board<D, BothEnds<F>>,
    conn: ConnNo,
    client: ClientNo,
) -> Result<Payload, Hr>
    requires core { IsCore F.state F.kept board.old }
    ensures goes { (tally : Tally) → Goes D.faults D.told F.kept
        (λ st. get_current_padding_plan st conn.0 client.0) (code_of result) (payload_of result) tally
        board.old board.new }
    ensures core { IsCore F.state F.kept board.new }
{
    let at = data_place(board, conn, client)?;
    let words = check(&mut board.entries[at], &DataCall::Padding)?;
    Ok(Payload::Number(board.entries[at].store.side.padding(words)))
}

/// IAudioRenderClient::GetBuffer: leases `frames` frames.
pub fn get_buffer<D: Devices, F: FrameStore>(
    board: &mut Board<D, BothEnds<F>>,
    conn: ConnNo,
    client: ClientNo,
    frames: u32,
) -> Result<Payload, Hr>
    requires core { IsCore F.state F.kept board.old }
    ensures goes { (tally : Tally) → Goes D.faults D.told F.kept
        (λ st. get_buffer_plan st conn.0 client.0 frames) (code_of result) (payload_of result) tally
        board.old board.new }
    ensures core { IsCore F.state F.kept board.new }
{
    let at = data_place(board, conn, client)?;
    lease(&mut board.entries[at], frames)?;
    Ok(Payload::Nothing)
}

/// IAudioRenderClient::ReleaseBuffer: the frames of these bytes, or silent ones, are pending from now on.
pub fn release_buffer<D: Devices, F: FrameStore>(
    board: &mut Board<D, BothEnds<F>>,
    conn: ConnNo,
    client: ClientNo,
    frames: u32,
    flags: u32,
    bytes: &[u8],
) -> Result<Payload, Hr>
    requires core { IsCore F.state F.kept board.old }
    ensures goes { (tally : Tally) → Goes D.faults D.told F.kept
        (λ st. release_buffer_plan st conn.0 client.0 frames flags bytes.now) (code_of result)
        (payload_of result) tally board.old board.new }
    ensures core { IsCore F.state F.kept board.new }
{
    let at = data_place(board, conn, client)?;
    release_frames(&mut board.entries[at], frames, flags, bytes)?;
    Ok(Payload::Nothing)
}

/// The frames of the next packet in a store that has `words` words.
fn next_frames(side: &ClientSide, words: u32) -> u32
    ensures { result ≡ (if words == 0 then 0 else side.now.period) }
{
    if words == 0 {
        return 0;
    }
    side.period
}

/// IAudioCaptureClient::GetNextPacketSize: the frames of the next packet, 0 if there is none.
pub fn get_next_packet_size<D: Devices, F: FrameStore>(
    board: &mut Board<D, BothEnds<F>>,
    conn: ConnNo,
    client: ClientNo,
) -> Result<Payload, Hr>
    requires core { IsCore F.state F.kept board.old }
    ensures goes { (tally : Tally) → Goes D.faults D.told F.kept
        (λ st. get_next_packet_size_plan st conn.0 client.0) (code_of result) (payload_of result) tally
        board.old board.new }
    ensures core { IsCore F.state F.kept board.new }
{
    let at = data_place(board, conn, client)?;
    let words = check(&mut board.entries[at], &DataCall::NextSize)?;
    Ok(Payload::Number(next_frames(&board.entries[at].store.side, words)))
}

/// IAudioCaptureClient::GetBuffer: leases the first packet, and puts it into the payload.
pub fn capture_get_buffer<D: Devices, F: FrameStore>(
    board: &mut Board<D, BothEnds<F>>,
    conn: ConnNo,
    client: ClientNo,
    out: &mut Bytes,
) -> Result<(), Hr>
    requires core { IsCore F.state F.kept board.old }
    requires reply { IsReplyRoom out.old }
    ensures goes { (tally : Tally) → Goes D.faults D.told F.kept
        (λ st. capture_get_buffer_plan st conn.0 client.0) (told_code result) out.new.list tally
        board.old board.new }
    ensures core { IsCore F.state F.kept board.new }
    ensures within { length out.new.list ≤ REPLY_ROOM }
    ensures keeps { out.old.capacity ≤ out.new.capacity }
{
    let at = data_place(board, conn, client)?;
    lease_packet(&mut board.entries[at])?;
    put_packet(&mut board.entries[at], out);
    Ok(())
}

/// IAudioCaptureClient::ReleaseBuffer: the lease ends, and the first packet is read, or stays if `frames` is 0.
pub fn capture_release_buffer<D: Devices, F: FrameStore>(
    board: &mut Board<D, BothEnds<F>>,
    conn: ConnNo,
    client: ClientNo,
    frames: u32,
) -> Result<Payload, Hr>
    requires core { IsCore F.state F.kept board.old }
    ensures goes { (tally : Tally) → Goes D.faults D.told F.kept
        (λ st. capture_release_buffer_plan st conn.0 client.0 frames) (code_of result) (payload_of result) tally
        board.old board.new }
    ensures core { IsCore F.state F.kept board.new }
{
    let at = data_place(board, conn, client)?;
    release_packet(&mut board.entries[at], frames)?;
    Ok(Payload::Nothing)
}
