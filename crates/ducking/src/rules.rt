//! The rules of ducking, and their levels.

ghost use Rattle.std.specs.Prelude.{◌≡◌};
ghost use Rattle.ducking.specs.Ducking.{reduced};

use ca_base::limits::MAX_LEVEL;

/// The rule that mutes others while there is communication, and so on for the rules below.
pub const RULE_MUTES: u8 = 0;

/// Others are reduced by 80 %. It is the rule at the start.
pub const RULE_80: u8 = 1;

/// Others are reduced by 50 %.
pub const RULE_50: u8 = 2;

/// Others stay as they are.
pub const RULE_NOTHING: u8 = 3;

/// The duck level of a muted session: nothing is left.
pub const SILENT: u32 = 0;

/// A fifth of 65536, rounded down: what is left by a reduction by 80 %.
pub const REDUCED_BY_80: u32 = 13_107;

/// The half of 65536: what is left by a reduction by 50 %.
pub const REDUCED_BY_50: u32 = 32_768;

/// The level of a ducked session by a rule.
pub fn reduced(rule: u8) -> u32
    ensures { result ≡ reduced rule }
{
    match rule {
        RULE_MUTES => SILENT,
        RULE_80 => REDUCED_BY_80,
        RULE_50 => REDUCED_BY_50,
        _ => MAX_LEVEL,
    }
}
