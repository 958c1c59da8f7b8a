//! Whole messages.
use crate::fault::CaseFault;
use crate::payloads::{bytes_of_word, shown};
use otlp_msg::{Checked, read_message};
use pb_wire::{Blob, Wire};
use std::alloc::Global;

/// How much there is in a message and its canonical bytes, or why it is refused.
pub fn told(alloc: Global, word: &str) -> Result<String, CaseFault> {
    let body = bytes_of_word(alloc, word)?;
    match read_message(alloc, &body) {
        Ok(checked) => accepted(alloc, &checked, &body),
        Err(refusal) => {
            let text = refusal.text(alloc)?;
            Ok(String::from_str(alloc, text.as_str())?)
        }
    }
}

fn accepted(alloc: Global, checked: &Checked<'_>, body: &[u8]) -> Result<String, CaseFault> {
    if checked.body() != body {
        return Ok(String::from_str(alloc, "accepted as other bytes")?);
    }
    let mut out = Blob::begin(alloc);
    checked.message().write(&mut out)?;
    let written = shown(alloc, out.as_slice())?;
    let profiles = checked.profile_count();
    let samples = checked.sample_count();
    Ok(format!(in alloc; "accepted, {profiles} profiles, {samples} samples, {written}")?)
}
