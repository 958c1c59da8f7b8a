//! Reading a message.
ghost use Rattle.std.specs.Prelude.{◌≡◌, Ok, IfOk, IfErr};
ghost use Rattle.otlp_msg.specs.Acceptance.{IsAccepted, IsRefusedFor};
ghost use Rattle.otlp_msg.specs.Checked.{body_of, value_of};
ghost use Rattle.otlp_msg.specs.Message.{IsRefusal, message_of};
ghost use Rattle.otlp_msg.specs.Refusals.{refusal_of as refusal_of_fault};

use crate::indexed_records::indexes_within;
use crate::zero_entries::first_other_zero;
use crate::{Checked, Message, Refusal};
use pb_wire::{ReadFault, Wire};
use std::alloc::Global;

/// The greatest number of bytes of a message that is read or written.
pub const MESSAGE_LIMIT: u64 = 33_554_432;

/// The message that the bytes of a file are, or the first reason why they are none: their size, then their first fault, then
/// the first table whose first entry isn't the zero value, then the first index of the walk that is in no table.
pub fn read_message<'a>(alloc: Global, body: &'a [u8]) -> Result<Checked<'a>, Refusal>
    ensures body { IfOk result (λ c. body_of c ≡ body.now) }
    ensures ok { IfOk result (λ c. message_of body.now ≡ Ok (value_of c)) }
    ensures refused { IfErr result (IsRefusal (message_of body.now)) }
    // The same in the terms of the encoding and of the schema.
    ensures accepted { IfOk result (λ c. IsAccepted body.now (value_of c)) }
    ensures why { IfErr result (IsRefusedFor body.now) }
{
    tested_message(alloc, body)
}

// The tests, one after the other.
fn tested_message<'a>(alloc: Global, body: &'a [u8]) -> Result<Checked<'a>, Refusal>
    ensures body { IfOk result (λ c. body_of c ≡ body.now) }
    ensures ok { IfOk result (λ c. message_of body.now ≡ Ok (value_of c)) }
    ensures refused { IfErr result (IsRefusal (message_of body.now)) }
{
    if body.len() as u64 > MESSAGE_LIMIT {
        return Err(Refusal::Size {
            len: body.len() as u64,
        });
    }
    let mut message = Message::none(alloc);
    if let Err(fault) = message.merge(alloc, body, 0) {
        return Err(refusal_of(fault));
    }
    if let Some(table) = first_other_zero(&message.dictionary) {
        return Err(Refusal::ZeroEntry { table });
    }
    if let Err(refusal) = indexes_within(&message) {
        return Err(refusal);
    }
    Ok(Checked { body, message })
}

// The refusal of a file with this fault.
fn refusal_of(fault: ReadFault) -> Refusal
    ensures { result ≡ refusal_of_fault fault }
{
    match fault {
        ReadFault::Wire(fault) => Refusal::Wire(fault),
        ReadFault::NoMemory => Refusal::NoMemory,
    }
}
