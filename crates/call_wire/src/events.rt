//! Events, read from all of the bytes of a frame's body.

ghost use Rattle.std.specs.Prelude.{◌≡◌, ◌∷◌};
ghost use Rattle.call_wire.specs.Readers.{GivesEvent, MayGiveEvent};

use crate::calls::read_call;
use crate::devices::read_device;
use crate::fault::{Fault, NoField};
use crate::fields::{expect_end, take_connection, take_text, take_u8, take_u32};
use ca_base::values::{KIND_CALL, KIND_DEVICE, KIND_HANGUP, KIND_OPEN, KIND_PERIOD, KIND_SHUTDOWN};
use ca_base::{EndpointNo, Text};
use ca_model::Event;
use std::alloc::Global;

/// The event that the body spells, all of its bytes.
pub fn read_event(alloc: Global, body: &[u8]) -> Result<Event, Fault>
    ensures { MayGiveEvent result body.now }
{
    match body {
        [KIND_OPEN, rest @ ..] => Ok(read_open_event(rest)?),
        [KIND_HANGUP, rest @ ..] => Ok(read_hangup_event(rest)?),
        [KIND_CALL, rest @ ..] => read_call_event(alloc, rest),
        [KIND_PERIOD, rest @ ..] => Ok(read_period_event(rest)?),
        [KIND_DEVICE, rest @ ..] => read_device_event(alloc, rest),
        [KIND_SHUTDOWN, rest @ ..] => Ok(read_shutdown_event(rest)?),
        _ => Err(Fault::Malformed),
    }
}

#[tactic(auto, unfolding(crate::specs::Reading::byte_at))]
fn read_open_event(input: &[u8]) -> Result<Event, NoField>
    ensures { GivesEvent result (KIND_OPEN ∷ input.now) }
{
    let (conn, rest) = take_connection(input)?;
    let (pid, rest) = take_u32(rest)?;
    let (name, rest) = take_text(rest)?;
    expect_end(rest)?;
    let name = Text::new(name);
    Ok(Event::Open { conn, pid, name })
}

#[tactic(auto, unfolding(crate::specs::Reading::byte_at))]
fn read_hangup_event(input: &[u8]) -> Result<Event, NoField>
    ensures { GivesEvent result (KIND_HANGUP ∷ input.now) }
{
    let (conn, rest) = take_connection(input)?;
    expect_end(rest)?;
    Ok(Event::Hangup { conn })
}

#[tactic(auto, unfolding(crate::specs::Reading::byte_at))]
fn read_call_event(alloc: Global, input: &[u8]) -> Result<Event, Fault>
    ensures { MayGiveEvent result (KIND_CALL ∷ input.now) }
{
    let (conn, rest) = take_connection(input)?;
    let (tag, rest) = take_u32(rest)?;
    let (code, rest) = take_u8(rest)?;
    let call = read_call(alloc, code, rest)?;
    Ok(Event::Call { conn, tag, call })
}

#[tactic(auto, unfolding(crate::specs::Reading::byte_at))]
fn read_period_event(input: &[u8]) -> Result<Event, NoField>
    ensures { GivesEvent result (KIND_PERIOD ∷ input.now) }
{
    let (endpoint, rest) = take_u32(input)?;
    expect_end(rest)?;
    let endpoint = EndpointNo(endpoint);
    Ok(Event::Period { endpoint })
}

#[tactic(auto, unfolding(crate::specs::Reading::byte_at))]
fn read_device_event(alloc: Global, input: &[u8]) -> Result<Event, Fault>
    ensures { MayGiveEvent result (KIND_DEVICE ∷ input.now) }
{
    let (code, rest) = take_u8(input)?;
    let event = read_device(alloc, code, rest)?;
    Ok(Event::Device { event })
}

#[tactic(auto, unfolding(crate::specs::Reading::byte_at))]
fn read_shutdown_event(input: &[u8]) -> Result<Event, NoField>
    ensures { GivesEvent result (KIND_SHUTDOWN ∷ input.now) }
{
    expect_end(input)?;
    Ok(Event::Shutdown)
}
