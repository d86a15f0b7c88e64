//! Whole messages.

ghost use Rattle.std.specs.Prelude.{◌≡◌, ◌+◌, ◌^◌, ◌<◌, List, length, IfOk, IfErr, MatchResult, Ok, Err};
ghost use Rattle.wire_codec.specs.declared.wire_error.WireError.{WireError};
ghost use Rattle.wire_codec.specs.Fields.{FieldSeen, Fields};
ghost use Rattle.wire_codec.specs.Faults.{FirstFault};
ghost use Rattle.wire_codec.specs.Message.{HasCount};

use crate::reader::WireReader;
use crate::wire_error::WireError;

/// How many fields a message has, or the first fault in it. Its first byte has the place `offset`.
pub fn count_fields(message: &[u8], offset: u64) -> Result<u64, WireError>
    requires { offset + length message.now < 2 ^ 64 }
    ensures fields { IfOk result (HasCount offset message.now) }
    ensures fault { IfErr result (FirstFault offset message.now) }
    // The fields are counted wherever the message is fields, and a fault is answered wherever it is the first.
    ensures each_message { (fields : List FieldSeen) → Fields offset message.now fields → result ≡ Ok (length fields) }
    ensures each_fault { (e : WireError) → FirstFault offset message.now e → result ≡ Err e }
{
    walk(message, offset)
}

fn walk(message: &[u8], offset: u64) -> Result<u64, WireError>
    requires { offset + length message.now < 2 ^ 64 }
    ensures { MatchResult result (HasCount offset message.now) (FirstFault offset message.now) }
{
    let mut reader = WireReader::new(message, offset);
    let mut count = 0u64;
    loop {
        match reader.next_field() {
            Ok(Some(_)) => count += 1,
            Ok(None) => return Ok(count),
            Err(e) => return Err(e),
        }
    }
}
