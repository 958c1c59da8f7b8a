//! The texts of a part, written at the ends of the two runs.
ghost use Rattle.std.specs.Prelude.{◌≡◌, ◌+◌, ◌≤◌, ◌<◌, ◌^◌, ◌++◌, length, take, IfOk, OnOk, OnErr};
ghost use Rattle.schema.specs.Moved.{moved};
ghost use Rattle.schema.specs.Spell.{spell};
ghost use Rattle.schema.specs.Texts.{bytes_field};
ghost use Rattle.schema.specs.Prefix.{IsPrefix};
ghost use Rattle.draft_records.specs.Writes.{IsPut};

use pb_wire::{Blob, NewIndexes, NoMemory, Rows, TextRef, put_message, put_text};

// The number of bytes after the first ones. Where it has more than 32 bits, they are dropped.
fn counted(run: &mut Blob, begin: usize) -> Result<u32, NoMemory>
    requires { begin ≤ length run.old }
    ensures same { IfOk result (λ _. run.new ≡ run.old) }
    ensures len { IfOk result (λ len. begin + len ≡ length run.old) }
    ensures err { OnErr result (run.new ≡ take begin run.old) }
{
    let len = run.len() - begin;
    if len > 0xFFFF_FFFF {
        run.truncate(begin);
        return Err(NoMemory);
    }
    Ok(len as u32)
}

// Puts the row of a head at the end, all of it or nothing, and answers its length.
fn put_front<T: Rows, I: NewIndexes>(
    texts: &mut Blob,
    head: &T,
    indexes: &I,
) -> Result<u32, NoMemory>
    requires { length (bytes_field 1 (spell T.shape (moved (I.to indexes.now) T.shape (T.view head.now)))) < 2 ^ 63 }
    ensures ok { IfOk result (IsPut texts.old (bytes_field 1 (spell T.shape (moved (I.to indexes.now) T.shape (T.view head.now)))) texts.new) }
    ensures err { OnErr result (texts.new ≡ texts.old) }
{
    let begin = texts.len();
    if let Err(stop) = put_message(texts, 1, head, indexes) {
        texts.truncate(begin);
        return Err(stop);
    }
    let len = counted(texts, begin)?;
    Ok(len)
}

// Puts the row of a schema URL at the end, all of it or nothing, and answers its length.
fn put_back(backs: &mut Blob, schema_url: &TextRef<'_>) -> Result<u32, NoMemory>
    ensures ok { IfOk result (IsPut backs.old (bytes_field 3 schema_url.now) backs.new) }
    ensures err { OnErr result (backs.new ≡ backs.old) }
{
    let begin = backs.len();
    if let Err(stop) = put_text(backs, 3, schema_url) {
        backs.truncate(begin);
        return Err(stop);
    }
    let len = counted(backs, begin)?;
    Ok(len)
}

/// Puts a head at the ends, all of it or nothing, and answers the lengths of what is put in front of what the record holds and
/// after it.
pub(crate) fn put_head<T: Rows, I: NewIndexes>(
    texts: &mut Blob,
    backs: &mut Blob,
    head: &T,
    schema_url: &TextRef<'_>,
    indexes: &I,
) -> Result<(u32, u32), NoMemory>
    requires { length (bytes_field 1 (spell T.shape (moved (I.to indexes.now) T.shape (T.view head.now)))) < 2 ^ 63 }
    ensures front { IfOk result (λ lens. IsPut texts.old (bytes_field 1 (spell T.shape (moved (I.to indexes.now) T.shape (T.view head.now)))) texts.new lens.0) }
    ensures back { IfOk result (λ lens. IsPut backs.old (bytes_field 3 schema_url.now) backs.new lens.1) }
    ensures same_texts { OnErr result (texts.new ≡ texts.old) }
    ensures same_backs { OnErr result (backs.new ≡ backs.old) }
{
    let begin = texts.len();
    let front = put_front(texts, head, indexes)?;
    match put_back(backs, schema_url) {
        Ok(back) => Ok((front, back)),
        Err(stop) => {
            texts.truncate(begin);
            Err(stop)
        }
    }
}

// Puts the rows of a profile at the end. After an error the bytes so far are still in front.
#[tactic(auto, using(schema_laws::proofs::Onto::onto, schema_laws::proofs::Onto::onto_len))]
fn put_rows<T: Rows, I: NewIndexes>(
    texts: &mut Blob,
    profile: &T,
    indexes: &I,
) -> Result<(), NoMemory>
    requires { length (spell T.shape (moved (I.to indexes.now) T.shape (T.view profile.now))) < 2 ^ 62 }
    ensures ok { OnOk result (texts.new ≡ texts.old ++ spell T.shape (moved (I.to indexes.now) T.shape (T.view profile.now))) }
    ensures err { OnErr result (IsPrefix texts.old texts.new) }
{
    profile.put_rows(indexes, texts)?;
    Ok(())
}

/// Puts a profile at the end, all of it or nothing, and answers its length.
pub(crate) fn put_profile<T: Rows, I: NewIndexes>(
    texts: &mut Blob,
    profile: &T,
    indexes: &I,
) -> Result<u32, NoMemory>
    requires { length (spell T.shape (moved (I.to indexes.now) T.shape (T.view profile.now))) < 2 ^ 62 }
    ensures ok { IfOk result (IsPut texts.old (spell T.shape (moved (I.to indexes.now) T.shape (T.view profile.now))) texts.new) }
    ensures err { OnErr result (texts.new ≡ texts.old) }
{
    let begin = texts.len();
    if let Err(stop) = put_rows(texts, profile, indexes) {
        texts.truncate(begin);
        return Err(stop);
    }
    let len = counted(texts, begin)?;
    Ok(len)
}
