//! Messages, and canonical bytes that were worked out by hand from their definition.
use std::alloc::{AllocError, Global};

/// One resource record without a head. Its first scope record has a profile of the type cpu in ns and one of x in ns, and its
/// second one of cpu in ns.
pub const SCOPES: &[u8] =
    b"\x0a\x1c\x12\x10\x12\x06\x0a\x04\x08\x02\x10\x03\x12\x06\x0a\x04\x08\x01\x10\x03\x12\x08\x12\x06\x0a\x04\x08\x02\x10\x03\x12\x0e\x2a\x00\x2a\x01x\x2a\x03cpu\x2a\x02ns";

/// One resource record without a head, in which the scope `s` has an empty profile.
pub const NAMED_SCOPE: &[u8] = b"\x0a\x09\x12\x07\x0a\x03\x0a\x01s\x12\x00";

/// The profile of the type cpu in ns alone, without heads.
pub const CPU: &[u8] =
    b"\x0a\x0a\x12\x08\x12\x06\x0a\x04\x08\x01\x10\x02\x12\x17\x0a\x00\x12\x00\x1a\x00\x22\x00\x2a\x00\x2a\x03cpu\x2a\x02ns\x32\x00\x3a\x00";

/// The profile of the type x in ns alone, without heads.
pub const X: &[u8] =
    b"\x0a\x0a\x12\x08\x12\x06\x0a\x04\x08\x01\x10\x02\x12\x15\x0a\x00\x12\x00\x1a\x00\x22\x00\x2a\x00\x2a\x01x\x2a\x02ns\x32\x00\x3a\x00";

/// No records: a dictionary of seven zero entries.
pub const NONE: &[u8] = b"\x12\x0e\x0a\x00\x12\x00\x1a\x00\x22\x00\x2a\x00\x32\x00\x3a\x00";

// A dictionary with the text x, and what is in front of the 33,554,401 bytes of a payload in a profile of the type x.
const LONG_FRONT: &[u8] =
    b"\x12\x05\x2a\x00\x2a\x01x\x0a\xf4\xff\xff\x0f\x12\xef\xff\xff\x0f\x12\xea\xff\xff\x0f\x0a\x02\x08\x01\x52\xe1\xff\xff\x0f";

/// A message as long as one may be, of one profile of the type x, without heads. In canonical bytes the profile has 33,554,415
/// with its tag and its length.
pub fn long_body(alloc: Global) -> Result<Vec<u8>, AllocError> {
    let mut body = Vec::new(alloc);
    body.extend_from_slice(LONG_FRONT)?;
    body.resize(33_554_432, 0)?;
    Ok(body)
}
