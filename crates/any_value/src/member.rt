//! The members of a value on the wire.
ghost use Rattle.std.specs.Prelude.{◌≡◌, ◌≤◌, length, IfSome};
ghost use Rattle.std.specs.Option.{option_map};
ghost use Rattle.schema.specs.AnyMember.{member_in, message_of};
ghost use Rattle.schema.specs.Field.{bytes_of};
ghost use Rattle.pb_wire.specs.View.{field_view, payload_view};
ghost use Rattle.any_value.specs.MemberViews.{member_view};

use pb_wire::{Field, Payload};

/// A member of a value, with the payload that it holds.
#[derive(Clone, Copy)]
pub(crate) enum Member<'a> {
    Text(&'a [u8]),
    Flag(u64),
    Int(u64),
    Double([u8; 8]),
    Items(&'a [u8]),
    Pairs(&'a [u8]),
    Raw(&'a [u8]),
}

/// The member that a field is, if it is one.
pub(crate) fn member_of<'a>(field: &Field<'a>) -> Option<Member<'a>>
    ensures value { option_map member_view result ≡ member_in (field_view field.now) }
    ensures within { IfSome result (λ m. length (message_of (member_view m)) ≤ length (bytes_of (payload_view field.now.payload))) }
{
    match field.payload {
        Payload::Varint(number) => match field.number {
            2 => Some(Member::Flag(number)),
            3 => Some(Member::Int(number)),
            _ => None,
        },
        Payload::Fixed64(bytes) => match field.number {
            4 => Some(Member::Double(bytes)),
            _ => None,
        },
        Payload::Bytes(bytes) => match field.number {
            1 => Some(Member::Text(bytes)),
            5 => Some(Member::Items(bytes)),
            6 => Some(Member::Pairs(bytes)),
            7 => Some(Member::Raw(bytes)),
            _ => None,
        },
        Payload::Fixed32(_) => None,
    }
}
