//! Single records, which are read and written again.
ghost use Rattle.std.specs.Prelude.{◌<◌, ◌^◌, length};
ghost use Rattle.schema.specs.Spell.{spell};

use crate::fault::CaseFault;
use crate::payloads::{Payloads, shown};
use crate::sample_messages::{Leaf, Tree};
use dict_rec::{Attr, Dictionary, Function, Line, Link, Location, Mapping, Stack};
use otlp_msg::Message;
use pb_wire::{Blob, Wire};
use prof_rec::{Profile, Resource, ResourceProfiles, Sample, Scope, ScopeProfiles, ValueType};
use std::alloc::Global;

/// What comes of the record with this name.
pub fn told(alloc: Global, name: &str, payloads: &Payloads) -> Result<String, CaseFault> {
    match name {
        "mapping" => rewritten::<Mapping>(alloc, payloads),
        "location" => rewritten::<Location>(alloc, payloads),
        "line" => rewritten::<Line>(alloc, payloads),
        "function" => rewritten::<Function>(alloc, payloads),
        "link" => rewritten::<Link>(alloc, payloads),
        "attribute" => rewritten::<Attr>(alloc, payloads),
        "stack" => rewritten::<Stack>(alloc, payloads),
        "dictionary" => rewritten::<Dictionary>(alloc, payloads),
        _ => told_of_profiles(alloc, name, payloads),
    }
}

// The same of the records of profiles, and of messages.
fn told_of_profiles(alloc: Global, name: &str, payloads: &Payloads) -> Result<String, CaseFault> {
    match name {
        "value-type" => rewritten::<ValueType>(alloc, payloads),
        "sample" => rewritten::<Sample>(alloc, payloads),
        "profile" => rewritten::<Profile>(alloc, payloads),
        "scope" => rewritten::<Scope>(alloc, payloads),
        "scope-record" => rewritten::<ScopeProfiles>(alloc, payloads),
        "resource" => rewritten::<Resource>(alloc, payloads),
        "resource-record" => rewritten::<ResourceProfiles>(alloc, payloads),
        "envelope" => rewritten::<Message>(alloc, payloads),
        "leaf" => rewritten::<Leaf>(alloc, payloads),
        "tree" => rewritten::<Tree>(alloc, payloads),
        _ => Err(CaseFault::Kind),
    }
}

// The canonical bytes of the record that the payloads are, or their first fault.
fn rewritten<'a, T: Wire<'a>>(alloc: Global, payloads: &'a Payloads) -> Result<String, CaseFault> {
    let pieces = payloads.pieces(alloc)?;
    match T::read(alloc, &pieces) {
        Ok(record) => written(alloc, &record),
        Err(fault) => Ok(format!(in alloc; "{fault}")?),
    }
}

// The canonical bytes of a record, and the length that it reports.
fn written<'a, T: Wire<'a>>(alloc: Global, message: &T) -> Result<String, CaseFault>
    requires { length (spell T.shape (T.view message.now)) < 2 ^ 63 }
{
    let mut out = Blob::begin(alloc);
    message.write(&mut out)?;
    let bytes = shown(alloc, out.as_slice())?;
    let len = message.written_len();
    Ok(format!(in alloc; "{bytes}, {len} bytes")?)
}
