//! Calls about sessions, read behind their codes.

ghost use Rattle.std.specs.Prelude.{◌≡◌, [], ◌∷◌, Some};
ghost use Rattle.ca_model.specs.Fields.Kind.{eight_bytes, guid, text as text_kind};
ghost use Rattle.ca_model.specs.Fields.Field.{number, bytes};
ghost use Rattle.ca_model.specs.Spelling.{call_code, call_fields, calls, listed};
ghost use Rattle.call_wire.specs.Readers.{CallIsOwn, GivesCall};

use crate::fault::NoField;
use crate::fields::{expect_end, take_guid, take_text, take_u8, take_u32, take_u64};
use ca_base::{Guid, SessionNo, Text};
use ca_model::Call;

pub fn read_set_master(input: &[u8]) -> Result<Call, NoField>
    ensures { GivesCall 50 result input.now }
{
    let (session, rest) = take_u64(input)?;
    let (level, rest) = take_u32(rest)?;
    let (context, rest) = take_guid(rest)?;
    expect_end(rest)?;
    Ok(Call::SetMaster {
        session: SessionNo(session),
        level,
        context,
    })
}

pub fn read_set_mute(input: &[u8]) -> Result<Call, NoField>
    ensures { GivesCall 51 result input.now }
{
    let (session, rest) = take_u64(input)?;
    let (mute, rest) = take_u8(rest)?;
    let (context, rest) = take_guid(rest)?;
    expect_end(rest)?;
    Ok(Call::SetMute {
        session: SessionNo(session),
        mute,
        context,
    })
}

pub fn read_set_channel(input: &[u8]) -> Result<Call, NoField>
    ensures { GivesCall 52 result input.now }
{
    let (session, rest) = take_u64(input)?;
    let (channel, rest) = take_u32(rest)?;
    let (level, rest) = take_u32(rest)?;
    let (context, rest) = take_guid(rest)?;
    expect_end(rest)?;
    Ok(Call::SetChannel {
        session: SessionNo(session),
        channel,
        level,
        context,
    })
}

/// A call that gives a session a text, by its code.
pub fn read_text_call(code: u8, input: &[u8]) -> Result<Call, NoField>
    requires { listed code calls ≡ Some (eight_bytes ∷ guid ∷ text_kind ∷ []) }
    ensures { GivesCall code result input.now }
{
    let (session, rest) = take_u64(input)?;
    let (context, rest) = take_guid(rest)?;
    let (text, rest) = take_text(rest)?;
    expect_end(rest)?;
    Ok(text_call(code, SessionNo(session), context, Text::new(text)))
}

/// The call of this code that gives a session this text.
fn text_call(code: u8, session: SessionNo, context: Guid, text: Text) -> Call
    requires { listed code calls ≡ Some (eight_bytes ∷ guid ∷ text_kind ∷ []) }
    ensures code { call_code result ≡ code }
    ensures own { CallIsOwn result }
    ensures fields { call_fields result ≡ number session.0 ∷ number context.0 ∷ bytes text ∷ [] }
{
    match code {
        53 => Call::SetDisplayName {
            session,
            context,
            text,
        },
        // 54, the only one that is left
        _ => Call::SetIconPath {
            session,
            context,
            text,
        },
    }
}

pub fn read_set_grouping(input: &[u8]) -> Result<Call, NoField>
    ensures { GivesCall 55 result input.now }
{
    let (session, rest) = take_u64(input)?;
    let (grouping, rest) = take_guid(rest)?;
    let (context, rest) = take_guid(rest)?;
    expect_end(rest)?;
    Ok(Call::SetGrouping {
        session: SessionNo(session),
        grouping,
        context,
    })
}
