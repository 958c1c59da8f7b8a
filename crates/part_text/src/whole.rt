//! The whole text of a message, in the memory of its parts' texts.
ghost use Rattle.std.specs.Prelude.{◌≡◌, ◌+◌, ◌≤◌, ◌^◌, ◌++◌, length, take, drop, IfOk, IfErr};
ghost use Rattle.parts.specs.Parts.{parts_text};
ghost use Rattle.part_text.specs.Extents.{fronts_len, backs_len, parts_in};

use crate::backward::put_parts;
use crate::ending::Ending;
use crate::extent::Extent;
use pb_wire::Blob;

// The texts with memory for so many bytes in all, and for no more where it is taken.
fn with_room(texts: Blob, all: usize) -> Result<Blob, Blob>
    requires { length texts ≤ all }
    ensures ok { IfOk result (λ bytes. bytes ≡ texts) }
    ensures same { IfErr result (λ back. back ≡ texts) }
{
    let missing = all - texts.len();
    let mut bytes = texts.into_vec();
    match bytes.reserve_exact(missing) {
        Ok(()) => Ok(Blob::from_vec(bytes)),
        Err(_) => Err(Blob::from_vec(bytes)),
    }
}

// The texts and more bytes after them, so many in all. What these are is of no matter.
fn with_more(texts: Blob, all: usize) -> Result<Blob, Blob>
    requires { length texts ≤ all }
    ensures ok { IfOk result (λ bytes. take (length texts) bytes ≡ texts) }
    ensures size { IfOk result (λ bytes. length bytes ≡ all) }
    ensures same { IfErr result (λ back. back ≡ texts) }
{
    let mut bytes = texts.into_vec();
    match bytes.resize(all, 0) {
        Ok(()) => Ok(Blob::from_vec(bytes)),
        Err(_) => Err(Blob::from_vec(bytes)),
    }
}

// The ending after these bytes; after an error, as many of them as are kept then.
fn with_ending<E: Ending>(bytes: Blob, kept: usize, ending: &E) -> Result<Blob, Blob>
    requires { kept ≤ length bytes }
    ensures ok { IfOk result (λ all. all ≡ bytes ++ E.text ending.now) }
    ensures same { IfErr result (λ back. back ≡ take kept bytes) }
{
    let mut all = bytes;
    match ending.put(&mut all) {
        Ok(()) => Ok(all),
        Err(_) => {
            all.truncate(kept);
            Err(all)
        }
    }
}

// The texts, more bytes, so that there are `len`, and the ending after these.
fn opened<E: Ending>(texts: Blob, len: u64, ending: &E) -> Result<Blob, Blob>
    requires { length texts ≤ len }
    ensures texts { IfOk result (λ bytes. take (length texts) bytes ≡ texts) }
    ensures ending { IfOk result (λ bytes. drop len bytes ≡ E.text ending.now) }
    ensures size { IfOk result (λ bytes. length bytes ≡ len + length (E.text ending.now)) }
    ensures same { IfErr result (λ back. back ≡ texts) }
{
    let run = texts.len();
    let Some(all) = len.checked_add(ending.len()) else {
        return Err(texts);
    };
    let roomy = with_room(texts, all as usize)?;
    let longer = with_more(roomy, len as usize)?;
    with_ending(longer, run, ending)
}

/// The text of the parts that these extents cut from `texts` and `backs`, and the ending after it. The memory of `texts` is used:
/// what is missing is taken at once, and each text is moved once.
///
/// # Errors
/// Out of memory. The texts are handed back as they were.
pub fn into_whole_text<E: Ending>(
    texts: Blob,
    extents: &[Extent],
    backs: &[u8],
    len: u64,
    ending: &E,
) -> Result<Blob, Blob>
    requires fronts { fronts_len extents.now ≡ length texts }
    requires backs { backs_len extents.now ≡ length backs.now }
    requires len { len ≡ length (parts_text (parts_in extents.now texts backs.now)) }
    requires most { len ≤ 2 ^ 59 }
    ensures ok { IfOk result (λ bytes. bytes ≡ parts_text (parts_in extents.now texts backs.now) ++ E.text ending.now) }
    ensures same { IfErr result (λ back. back ≡ texts) }
{
    let run = texts.len();
    match opened(texts, len, ending) {
        Ok(bytes) => {
            let mut bytes = bytes.into_vec();
            put_parts(&mut bytes, run, len as usize, extents, backs);
            Ok(Blob::from_vec(bytes))
        }
        Err(texts) => Err(texts),
    }
}
