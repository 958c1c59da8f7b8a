//! What a read found, as it is compared.
use outside::Got;

/// What was found: the bytes, the number of a long file, or nothing.
pub fn seen(got: &Got) -> Result<&[u8], Option<u64>> {
    match got {
        Got::Whole(bytes) => Ok(bytes.as_slice()),
        Got::Long { at_least } => Err(Some(*at_least)),
        Got::Missing => Err(None),
    }
}
