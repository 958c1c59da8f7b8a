//! Why a file is no message.
ghost use Rattle.std.specs.Fmt.{decimal};
ghost use Rattle.std.specs.Prelude.{◌≡◌, ◌++◌, codes, IfOk};
ghost use Rattle.otlp_msg.specs.Texts.{holder_text as text_of_holder, path_text as text_of_path, pos_text, reason_name, refusal_text, table_name};

use crate::{Holder, Path, ProfilePos};
use dict_rec::TableKind;
use pb_wire::{NoMemory, Reason, Text, WireFault};
use std::alloc::Global;
use thiserror::Error;

/// Why a file is no message. Places are in bytes from the beginning of the file. `text` is what the tool prints; the display
/// is for logs.
#[derive(Clone, Copy, Debug, PartialEq, Eq, Error)]
pub enum Refusal {
    /// There are more bytes than a message may have; `len` is their number, or a smaller one above the limit.
    #[error("size: more than 33554432 bytes")]
    Size {
        len: u64,
    },
    /// The bytes break the wire format.
    #[error("wire fault {0}")]
    Wire(WireFault),
    /// The first entry of a table isn't the zero value.
    #[error("zero entry of {table:?} table is not zero")]
    ZeroEntry {
        table: TableKind,
    },
    /// An index is below 0 or at least the length of its table, which is 1 where the table is empty.
    #[error("dangling {table:?} index {index} of {len} in {path:?}")]
    Dangling {
        table: TableKind,
        index: i32,
        len: u64,
        path: Path,
    },
    #[error("no memory")]
    NoMemory,
}

impl Refusal {
    /// The refusal's text, without the name of the file.
    pub fn text(&self, alloc: Global) -> Result<Text, NoMemory>
        ensures { IfOk result (λ t. t ≡ refusal_text self.now) }
    {
        match *self {
            Refusal::Size { .. } => Text::copy_of(alloc, "size: more than 33554432 bytes"),
            Refusal::Wire(fault) => wire_text(alloc, fault),
            Refusal::ZeroEntry { table } => zero_entry_text(alloc, table),
            Refusal::Dangling {
                table,
                index,
                len,
                path,
            } => dangling_text(alloc, table, index, len, path),
            Refusal::NoMemory => Text::copy_of(alloc, "no memory"),
        }
    }
}

fn wire_text(alloc: Global, fault: WireFault) -> Result<Text, NoMemory>
    ensures { IfOk result (λ t. t ≡ refusal_text (Refusal.Wire fault)) }
{
    let reason = name_of_reason(fault.reason);
    let place = fault.place;
    let text = format!(in alloc; "wire fault {reason} at {place}")?;
    Ok(Text::from_string(text))
}

fn zero_entry_text(alloc: Global, table: TableKind) -> Result<Text, NoMemory>
    ensures { IfOk result (λ t. t ≡ refusal_text (Refusal.ZeroEntry table)) }
{
    let table = name_of_table(table);
    let text = format!(in alloc; "zero entry of {table} table is not zero")?;
    Ok(Text::from_string(text))
}

fn dangling_text(
    alloc: Global,
    table: TableKind,
    index: i32,
    len: u64,
    path: Path,
) -> Result<Text, NoMemory>
    ensures { IfOk result (λ t. t ≡ refusal_text (Refusal.Dangling table index len path)) }
{
    let table = name_of_table(table);
    let path = path_text(alloc, path)?;
    let path = path.as_str();
    let text = format!(in alloc; "dangling {table} index {index} of {len} in {path}")?;
    Ok(Text::from_string(text))
}

// Where an index is.
fn path_text(alloc: Global, path: Path) -> Result<Text, NoMemory>
    ensures { IfOk result (λ t. t ≡ text_of_path path) }
{
    let holder = holder_text(alloc, path.holder)?;
    let holder = holder.as_str();
    let field = path.field;
    let item = path.item;
    let text = format!(in alloc; "{holder} field {field} item {item}")?;
    Ok(Text::from_string(text))
}

// The name of a holder.
fn holder_text(alloc: Global, holder: Holder) -> Result<Text, NoMemory>
    ensures { IfOk result (λ t. t ≡ text_of_holder holder) }
{
    match holder {
        Holder::Mapping { entry } => entry_text(alloc, "mapping", entry),
        Holder::Location { entry } => entry_text(alloc, "location", entry),
        Holder::Line { location, line } => line_text(alloc, location, line),
        Holder::Function { entry } => entry_text(alloc, "function", entry),
        Holder::Attr { entry } => entry_text(alloc, "attribute", entry),
        Holder::Stack { entry } => entry_text(alloc, "stack", entry),
        Holder::SampleType { pos } => part_text(alloc, pos, " sample type"),
        Holder::Sample { pos, sample } => sample_text(alloc, pos, sample),
        Holder::PeriodType { pos } => part_text(alloc, pos, " period type"),
        Holder::Profile { pos } => part_text(alloc, pos, ""),
    }
}

// An entry of a table.
fn entry_text(alloc: Global, table: &str, entry: u32) -> Result<Text, NoMemory>
    ensures { IfOk result (λ t. t ≡ table.now ++ (codes " " ++ decimal entry)) }
{
    let text = format!(in alloc; "{table} {entry}")?;
    Ok(Text::from_string(text))
}

fn line_text(alloc: Global, location: u32, line: u32) -> Result<Text, NoMemory>
    ensures { IfOk result (λ t. t ≡ text_of_holder (Holder.Line location line)) }
{
    let text = format!(in alloc; "line {line} of location {location}")?;
    Ok(Text::from_string(text))
}

// A profile, or a part of it, whose name comes after.
fn part_text(alloc: Global, pos: ProfilePos, part: &str) -> Result<Text, NoMemory>
    ensures { IfOk result (λ t. t ≡ pos_text pos ++ part.now) }
{
    let resource = pos.resource;
    let scope = pos.scope;
    let profile = pos.profile;
    let text = format!(in alloc; "profile {resource}/{scope}/{profile}{part}")?;
    Ok(Text::from_string(text))
}

fn sample_text(alloc: Global, pos: ProfilePos, sample: u32) -> Result<Text, NoMemory>
    ensures { IfOk result (λ t. t ≡ text_of_holder (Holder.Sample pos sample)) }
{
    let resource = pos.resource;
    let scope = pos.scope;
    let profile = pos.profile;
    let text = format!(in alloc; "profile {resource}/{scope}/{profile} sample {sample}")?;
    Ok(Text::from_string(text))
}

fn name_of_reason(reason: Reason) -> &'static str
    ensures { result.now ≡ reason_name reason }
{
    match reason {
        Reason::Truncated => "Truncated",
        Reason::VarintLong => "VarintLong",
        Reason::FieldNumber => "FieldNumber",
        Reason::WireType => "WireType",
        Reason::NotUtf8 => "NotUtf8",
        Reason::PackedLength => "PackedLength",
        Reason::TooDeep => "TooDeep",
    }
}

fn name_of_table(table: TableKind) -> &'static str
    ensures { result.now ≡ table_name table }
{
    match table {
        TableKind::Mapping => "mapping",
        TableKind::Location => "location",
        TableKind::Function => "function",
        TableKind::Link => "link",
        TableKind::String => "string",
        TableKind::Attribute => "attribute",
        TableKind::Stack => "stack",
    }
}
