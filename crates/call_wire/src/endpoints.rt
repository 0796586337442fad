//! Calls about endpoints, read behind their codes.

ghost use Rattle.call_wire.specs.Readers.{GivesCall};

use crate::fault::NoField;
use crate::fields::{expect_end, take_text, take_u8, take_u32};
use ca_base::Text;
use ca_model::Call;

pub fn read_enum_endpoints(input: &[u8]) -> Result<Call, NoField>
    ensures { GivesCall 1 result input.now }
{
    let (flow, rest) = take_u8(input)?;
    let (mask, rest) = take_u32(rest)?;
    expect_end(rest)?;
    Ok(Call::EnumEndpoints { flow, mask })
}

pub fn read_get_default(input: &[u8]) -> Result<Call, NoField>
    ensures { GivesCall 2 result input.now }
{
    let (flow, rest) = take_u8(input)?;
    let (role, rest) = take_u8(rest)?;
    expect_end(rest)?;
    Ok(Call::GetDefault { flow, role })
}

pub fn read_get_device(input: &[u8]) -> Result<Call, NoField>
    ensures { GivesCall 3 result input.now }
{
    let (id, rest) = take_text(input)?;
    expect_end(rest)?;
    let id = Text::new(id);
    Ok(Call::GetDevice { id })
}
