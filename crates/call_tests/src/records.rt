//! Calls on records, AnyValues, refusals and texts that no row reaches. Bytes were worked out by hand from the Protocol Buffers
//! encoding guide and the schema.
ghost use Rattle.std.specs.Prelude.{◌<◌, ◌^◌, length};

use any_value::{KeyValue, KeyValues, Value, Values, take_value};
use commands::Texts;
use dict_rec::{Attr, Dictionary, Function, Line, Link, Location, Mapping, TableKind};
use otlp_msg::{Holder, Path, ProfilePos, Refusal};
use pb_wire::{Field, Payload, ReadFault, Reason, Text, TextRef, Wire, WireFault};
use prof_rec::{Profile, ResourceProfiles, Sample, Samples, ScopeProfiles};
use std::alloc::Global;
use std::process::Abort;
use std::test::Fail;

// The record that these bytes are.
fn read<'a, T: Wire<'a>>(alloc: Global, bytes: &'a [u8]) -> Result<T, Fail>
    requires { length bytes.now < 2 ^ 32 }
{
    let mut record = T::none(alloc);
    record.merge(alloc, bytes, 0)?;
    Ok(record)
}

// Each field has the name that the schema gives it. A record is compared by one assertion: each further one is a place where all
// records of the function are dropped, and the check goes through them.
fn mapping_is_named(rt: &impl Abort, alloc: Global) -> Result<(), Fail> {
    let bytes = b"\x08\x01\x10\x02\x18\x03\x20\x04\x2a\x01\x05";
    let mapping = read::<Mapping>(alloc, bytes)?;
    let numbers = (
        mapping.memory_start,
        mapping.memory_limit,
        mapping.file_offset,
        mapping.filename_strindex,
    );
    let named = numbers == (1, 2, 3, 4) && mapping.attribute_indices.as_slice() == [5].as_slice();
    assert!(rt; named, "{mapping:?}");
    Ok(())
}

fn location_is_named(rt: &impl Abort, alloc: Global) -> Result<(), Fail> {
    let bytes = b"\x08\x01\x10\x02\x1a\x00\x22\x02\x04\x05";
    let location = read::<Location>(alloc, bytes)?;
    let numbers = (
        location.mapping_index,
        location.address,
        location.lines.len(),
    );
    let named = numbers == (1, 2, 1) && location.attribute_indices.as_slice() == [4, 5].as_slice();
    assert!(rt; named, "{location:?}");
    Ok(())
}

fn line_and_function_are_named(rt: &impl Abort, alloc: Global) -> Result<(), Fail> {
    let line = read::<Line>(alloc, b"\x08\x01\x10\x02\x18\x03")?;
    assert_eq!(rt; (line.function_index, line.line, line.column), (1, 2, 3));
    let function = read::<Function>(alloc, b"\x08\x01\x10\x02\x18\x03\x20\x04")?;
    let names = (
        function.name_strindex,
        function.system_name_strindex,
        function.filename_strindex,
    );
    assert_eq!(rt; (names, function.start_line), ((1, 2, 3), 4));
    Ok(())
}

fn link_is_named(rt: &impl Abort, alloc: Global) -> Result<(), Fail> {
    let link = read::<Link>(alloc, b"\x0a\x01\x01\x12\x01\x02")?;
    let named = link.trace_id.as_slice() == b"\x01".as_slice()
        && link.span_id.as_slice() == b"\x02".as_slice();
    assert!(rt; named, "{link:?}");
    Ok(())
}

fn attribute_is_named(rt: &impl Abort, alloc: Global) -> Result<(), Fail> {
    let attribute = read::<Attr>(alloc, b"\x08\x01\x12\x02\x18\x02\x18\x03")?;
    let indices = (attribute.key_strindex, attribute.unit_strindex);
    let named = indices == (1, 3) && attribute.value == Value::Int(2);
    assert!(rt; named, "{attribute:?}");
    Ok(())
}

// The table of each field has another number of entries.
fn tables_are_named(rt: &impl Abort, alloc: Global) -> Result<(), Fail> {
    let tables = b"\x0a\x00\x12\x00\x12\x00\x1a\x00\x1a\x00\x1a\x00\x22\x00\x22\x00\x22\x00\x22\x00\
        \x2a\x00\x2a\x00\x2a\x00\x2a\x00\x2a\x00\x32\x00\x32\x00\x32\x00\x32\x00\x32\x00\x32\x00\
        \x3a\x00\x3a\x00\x3a\x00\x3a\x00\x3a\x00\x3a\x00\x3a\x00";
    let dictionary = read::<Dictionary>(alloc, tables)?;
    let lengths = [
        dictionary.mapping_table.len(),
        dictionary.location_table.len(),
        dictionary.function_table.len(),
        dictionary.link_table.len(),
        dictionary.string_table.len(),
        dictionary.attribute_table.len(),
        dictionary.stack_table.len(),
    ];
    assert_eq!(rt; lengths, [1, 2, 3, 4, 5, 6, 7]);
    Ok(())
}

#[test]
fn names_fields_of_the_dictionary(rt: HostRuntime) -> Result<(), Fail> {
    let alloc = rt.alloc();
    mapping_is_named(&rt, alloc)?;
    location_is_named(&rt, alloc)?;
    line_and_function_are_named(&rt, alloc)?;
    link_is_named(&rt, alloc)?;
    attribute_is_named(&rt, alloc)?;
    tables_are_named(&rt, alloc)
}

fn sample_is_named(rt: &impl Abort, alloc: Global) -> Result<(), Fail> {
    let sample = read::<Sample>(
        alloc,
        b"\x08\x01\x12\x01\x02\x1a\x01\x03\x20\x04\x29\x05\x00\x00\x00\x00\x00\x00\x00",
    )?;
    let named = (sample.stack_index, sample.link_index) == (1, 4)
        && sample.values.as_slice() == [2].as_slice()
        && sample.attribute_indices.as_slice() == [3].as_slice()
        && sample.timestamps_unix_nano.as_slice() == [5].as_slice();
    assert!(rt; named, "{sample:?}");
    Ok(())
}

fn profile_is_named(rt: &impl Abort, alloc: Global) -> Result<(), Fail> {
    let profile = read::<Profile>(
        alloc,
        b"\x0a\x04\x08\x01\x10\x02\x12\x00\x19\x03\x00\x00\x00\x00\x00\x00\x00\x20\x04\x2a\x04\x08\x05\x10\x06\
        \x30\x07\x3a\x01\x08\x40\x09\x4a\x01a\x52\x01\x0b\x5a\x01\x0c",
    )?;
    let types = [&profile.sample_type, &profile.period_type].map(|of| (
        of.type_strindex,
        of.unit_strindex,
    ));
    let times = (
        profile.time_unix_nano,
        profile.duration_nano,
        profile.period,
    );
    let counts = (profile.samples.len(), profile.dropped_attributes_count);
    let named = types == [(1, 2), (5, 6)]
        && times == (3, 4, 7)
        && counts == (1, 9)
        && profile.profile_id.as_slice() == b"\x08".as_slice()
        && profile.original_payload_format.as_str() == "a"
        && profile.original_payload.as_slice() == b"\x0b".as_slice()
        && profile.attribute_indices.as_slice() == [12].as_slice();
    assert!(rt; named, "{profile:?}");
    Ok(())
}

fn resource_is_named(rt: &impl Abort, alloc: Global) -> Result<(), Fail> {
    let record = read::<ResourceProfiles>(
        alloc,
        b"\x0a\x07\x0a\x00\x10\x01\x1a\x01\x02\x12\x00\x12\x00\x1a\x01a",
    )?;
    let resource = (
        record.resource.attributes.len(),
        record.resource.dropped_attributes_count,
        record.resource.opaque.len(),
    );
    let named = resource == (1, 1, 1)
        && record.scope_profiles.len() == 2
        && record.schema_url.as_str() == "a";
    assert!(rt; named, "{record:?}");
    Ok(())
}

fn scope_is_named(rt: &impl Abort, alloc: Global) -> Result<(), Fail> {
    let record = read::<ScopeProfiles>(
        alloc,
        b"\x0a\x0c\x0a\x01a\x12\x01b\x1a\x00\x1a\x00\x20\x01\x12\x00\x1a\x01c",
    )?;
    let texts = (
        record.scope.name.as_str(),
        record.scope.version.as_str(),
        record.schema_url.as_str(),
    );
    let counts = (
        record.scope.attributes.len(),
        record.scope.dropped_attributes_count,
        record.profiles.len(),
    );
    assert!(rt;
        texts == ("a", "b", "c") && counts == (2, 1, 1),
        "{record:?}"
    );
    Ok(())
}

#[test]
fn names_fields_of_the_records(rt: HostRuntime) -> Result<(), Fail> {
    let alloc = rt.alloc();
    sample_is_named(&rt, alloc)?;
    profile_is_named(&rt, alloc)?;
    resource_is_named(&rt, alloc)?;
    scope_is_named(&rt, alloc)
}

// Samples that are added are seen at their places, with their own elements.
#[test]
fn adds_samples(rt: HostRuntime) -> Result<(), Fail> {
    let alloc = rt.alloc();
    let mut samples = Samples::begin(alloc);
    let empty = samples.is_empty();
    samples.add(read::<Sample>(alloc, b"\x12\x01\x07\x20\x04")?)?;
    samples.add(read::<Sample>(
        alloc,
        b"\x08\x01\x12\x01\x02\x1a\x01\x03\x29\x05\x00\x00\x00\x00\x00\x00\x00",
    )?)?;
    let seen = match samples.get(1) {
        Some(found) => {
            (found.stack_index, found.link_index) == (1, 0)
                && found.values == [2].as_slice()
                && found.attribute_indices == [3].as_slice()
                && found.timestamps_unix_nano == [5].as_slice()
        }
        None => false,
    };
    let beyond = samples.get(2).is_none();
    assert!(rt; empty && seen && beyond, "{samples:?}");
    Ok(())
}

// A value is taken from a field of bytes, and a field of another wire type is skipped. At level 65 it is too deep.
#[test]
fn takes_values(rt: HostRuntime) -> Result<(), Fail> {
    let alloc = rt.alloc();
    let mut value = Value::Empty;
    let row = Field {
        number: 2,
        at: 10,
        end: 14,
        payload: Payload::Bytes(b"\x10\x01"),
    };
    take_value(&mut value, alloc, &row, 2)?;
    assert!(rt; value == Value::Flag(true));
    let skipped = Field {
        number: 2,
        at: 14,
        end: 16,
        payload: Payload::Varint(1),
    };
    take_value(&mut value, alloc, &skipped, 2)?;
    assert!(rt; value == Value::Flag(true));
    let fault = WireFault {
        place: 10,
        reason: Reason::TooDeep,
    };
    assert_eq!(rt;
        take_value(&mut value, alloc, &row, 65),
        Err(ReadFault::Wire(fault))
    );
    Ok(())
}

fn gets_values(rt: &impl Abort, alloc: Global) -> Result<(), Fail> {
    let mut values = Values::begin(alloc);
    values.add(Value::Int(-1))?;
    assert!(rt; values.get(0) == Some(&Value::Int(-1)) && values.get(1).is_none());
    Ok(())
}

fn gets_pairs(rt: &impl Abort, alloc: Global) -> Result<(), Fail> {
    let mut pairs = KeyValues::begin(alloc);
    pairs.add(KeyValue {
        key: TextRef::of("k"),
        value: Value::Int(2),
    })?;
    let pair = pairs.get(0).ok_or("no pair")?;
    let right = pair.key.as_str() == "k" && pair.value == Value::Int(2);
    assert!(rt; right && pairs.get(1).is_none());
    Ok(())
}

fn gets_texts(rt: &impl Abort, alloc: Global) -> Result<(), Fail> {
    let mut texts = Texts::begin(alloc);
    assert!(rt; texts.get(0).is_none());
    texts.add(Text::copy_of(alloc, "b")?)?;
    texts.add(Text::copy_of(alloc, "a")?)?;
    let held = [0, 1, 2].map(|place| texts.get(place).map(|text| text.as_str()));
    assert_eq!(rt;
        (held, texts.as_slice().len()),
        ([Some("b"), Some("a"), None], 2)
    );
    Ok(())
}

// Elements of lists by their places, and none at the length.
#[test]
fn gets_elements(rt: HostRuntime) -> Result<(), Fail> {
    let alloc = rt.alloc();
    gets_values(&rt, alloc)?;
    gets_pairs(&rt, alloc)?;
    gets_texts(&rt, alloc)
}

// An index that is in no table, in a field of a holder.
fn dangling(
    table: TableKind,
    index: i32,
    len: u64,
    (holder, field, item): (Holder, u32, u32),
) -> Refusal {
    let path = Path {
        holder,
        field,
        item,
    };
    Refusal::Dangling {
        table,
        index,
        len,
        path,
    }
}

// The texts of refusals with the greatest numbers, and of the one when memory runs out.
#[test]
fn says_why(rt: HostRuntime) -> Result<(), Fail> {
    let pos = ProfilePos {
        resource: 1,
        scope: u32::MAX,
        profile: 30,
    };
    let fault = WireFault {
        place: u64::MAX,
        reason: Reason::PackedLength,
    };
    let sample = Holder::Sample { pos, sample: 4 };
    for (refusal, want) in [
        (
            Refusal::Wire(fault),
            "wire fault PackedLength at 18446744073709551615",
        ),
        (
            dangling(TableKind::Stack, i32::MIN, u64::MAX, (sample, 1, 0)),
            "dangling stack index -2147483648 of 18446744073709551615 in profile 1/4294967295/30 sample 4 field 1 item 0",
        ),
        (
            dangling(TableKind::Link, i32::MAX, 7, (sample, 4, 0)),
            "dangling link index 2147483647 of 7 in profile 1/4294967295/30 sample 4 field 4 item 0",
        ),
        (
            dangling(
                TableKind::Attribute,
                2,
                2,
                (Holder::Profile { pos }, 11, 12),
            ),
            "dangling attribute index 2 of 2 in profile 1/4294967295/30 field 11 item 12",
        ),
        (Refusal::NoMemory, "no memory"),
    ] {
        assert_eq!(rt; refusal.text(rt.alloc())?.as_str(), want);
    }
    Ok(())
}
