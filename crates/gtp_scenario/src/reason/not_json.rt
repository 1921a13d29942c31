//! Why octets are no JSON.

ghost use Rattle.std.specs.Prelude.{◌≡◌, None, IfOk};
ghost use Rattle.gtp_scenario.specs.Reasons.{IsJsonFlaw};
ghost use Rattle.gtp_scenario.specs.Scenarios.{json_of};

use crate::scenario::MOST_OCTETS;
use gtp_values::Memory;
use serde_json::Value;
use std::alloc::Global;

/// Why octets are no JSON (RFC 8259).
#[derive(Clone, Copy, Debug, PartialEq, Eq)]
pub enum JsonFlaw {
    /// They are more than 16,777,216 octets.
    TooLong,
    /// They are not UTF-8 from this octet on, counted from 0.
    NotText(usize),
    /// They are no JSON. The place, counted from 1, is where `serde_json` stops reading.
    NotJson { line: usize, column: usize },
}

/// Why octets are no JSON. `Memory` if an allocation was refused.
pub fn json_flaw(alloc: Global, octets: &[u8]) -> Result<JsonFlaw, Memory>
    requires { json_of octets.now ≡ None }
    ensures { IfOk result (IsJsonFlaw octets.now) }
{
    if octets.len() > MOST_OCTETS {
        return Ok(JsonFlaw::TooLong);
    }
    let text = match str::from_utf8(octets) {
        Ok(text) => text,
        Err(error) => return Ok(JsonFlaw::NotText(error.valid_up_to())),
    };
    match Value::from_str(alloc, text) {
        Ok(_) => unreachable!(),
        Err(error) if error.is_memory() => Err(Memory),
        Err(error) => Ok(JsonFlaw::NotJson {
            line: error.line(),
            column: error.column(),
        }),
    }
}
