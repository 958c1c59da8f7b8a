//! The records of a message under construction.
ghost use Rattle.std.specs.Prelude.{◌≡◌, ◌≤◌, ◌<◌, ◌^◌, ◌++◌, ◌∷◌, [], length, take, IfErr, IfOk, OnOk, OnErr};
ghost use Rattle.schema.specs.Moved.{moved};
ghost use Rattle.schema.specs.Spell.{spell};
ghost use Rattle.schema.specs.Texts.{bytes_field};
ghost use Rattle.parts.specs.LastHeads.{is_head, last_heads};
ghost use Rattle.parts.specs.Parts.{ProfileText, ResourceBegins, ScopeBegins, parts_text};
ghost use Rattle.parts.specs.Sums.{sums_of};
ghost use Rattle.draft_records.specs.Marks.{CanBeCut, IsMark};

use crate::kept::{
    Kept, add_profile, back_to, begin_resource, begin_scope, finish, is_last_resource,
    is_last_scope, mark, none, reserve, text, text_len,
};
use crate::mark::RecordsMark;
use crate::totals::Totals;
use part_text::Ending;
use pb_wire::{Blob, NewIndexes, NoMemory, Rows, TextRef};
use std::alloc::Global;
use std::marker::Model;

/// The records of a message under construction, seen as their parts. Nothing is open in them: a part says that a record begins.
/// Their text has 2^59 bytes at most, and each text of a part fits into 32 bits of length: what would pass this answers out of memory.
#[derive(Drop)]
pub struct Records {
    kept: Kept,
}

impl Model for Records {
    ghost use Rattle.std.specs.Prelude.{List};
    ghost use Rattle.parts.specs.Parts.{RecordPart};
    ghost use Rattle.draft_records.specs.Kept.{IsKept, parts_of};

    ghost Value = { List RecordPart };

    ghost view = { λ r. parts_of r.kept };

    ghost invariant = { λ r. IsKept r.kept };
}

impl Records {
    /// No records. It takes no memory.
    pub fn begin(alloc: Global) -> Records
        ensures { result ≡ [] }
    {
        Records { kept: none(alloc) }
    }

    /// A resource record begins, with this head, written with new indexes, and this schema URL.
    ///
    /// # Errors
    ///
    /// Out of memory. The records are as before.
    pub fn begin_resource<T: Rows, I: NewIndexes>(
        &mut self,
        head: &T,
        schema_url: &TextRef<'_>,
        indexes: &I,
    ) -> Result<(), NoMemory>
        requires room { length (spell T.shape (moved (I.to indexes.now) T.shape (T.view head.now))) < 2 ^ 62 }
        ensures ok { OnOk result (self.new ≡ self.old ++ ResourceBegins (bytes_field 1 (spell T.shape (moved (I.to indexes.now) T.shape (T.view head.now)))) (bytes_field 3 schema_url.now) ∷ []) }
        ensures same { OnErr result (self.new ≡ self.old) }
    {
        begin_resource(&mut self.kept, head, schema_url, indexes)
    }

    /// A scope record begins, with this head, written with new indexes, and this schema URL. It is one of the last resource record,
    /// where the caller has begun one.
    ///
    /// # Errors
    ///
    /// Out of memory. The records are as before.
    pub fn begin_scope<T: Rows, I: NewIndexes>(
        &mut self,
        head: &T,
        schema_url: &TextRef<'_>,
        indexes: &I,
    ) -> Result<(), NoMemory>
        requires room { length (spell T.shape (moved (I.to indexes.now) T.shape (T.view head.now))) < 2 ^ 62 }
        ensures ok { OnOk result (self.new ≡ self.old ++ ScopeBegins (bytes_field 1 (spell T.shape (moved (I.to indexes.now) T.shape (T.view head.now)))) (bytes_field 3 schema_url.now) ∷ []) }
        ensures same { OnErr result (self.new ≡ self.old) }
    {
        begin_scope(&mut self.kept, head, schema_url, indexes)
    }

    /// Adds a profile, written with new indexes. It is one of the last scope record, where the caller has begun one and no resource
    /// record after it.
    ///
    /// # Errors
    ///
    /// Out of memory. The records are as before.
    pub fn add_profile<T: Rows, I: NewIndexes>(
        &mut self,
        profile: &T,
        indexes: &I,
    ) -> Result<(), NoMemory>
        requires room { length (spell T.shape (moved (I.to indexes.now) T.shape (T.view profile.now))) < 2 ^ 62 }
        ensures ok { OnOk result (self.new ≡ self.old ++ ProfileText (spell T.shape (moved (I.to indexes.now) T.shape (T.view profile.now))) ∷ []) }
        ensures same { OnErr result (self.new ≡ self.old) }
    {
        add_profile(&mut self.kept, profile, indexes)
    }

    /// Whether the last resource record has this head, written with new indexes, and this schema URL: `false` where there is none.
    /// The head is written at the end, compared as bytes, and dropped: it costs the length of the head, however many records there
    /// are. The records stay as they are, also after an error.
    ///
    /// # Errors
    ///
    /// Out of memory.
    pub fn is_last_resource<T: Rows, I: NewIndexes>(
        &mut self,
        head: &T,
        schema_url: &TextRef<'_>,
        indexes: &I,
    ) -> Result<bool, NoMemory>
        requires room { length (bytes_field 1 (spell T.shape (moved (I.to indexes.now) T.shape (T.view head.now)))) < 2 ^ 63 }
        ensures is { IfOk result (λ b. b ≡ is_head (last_heads self.old).resource (bytes_field 1 (spell T.shape (moved (I.to indexes.now) T.shape (T.view head.now)))) (bytes_field 3 schema_url.now)) }
        ensures same { self.new ≡ self.old }
    {
        is_last_resource(&mut self.kept, head, schema_url, indexes)
    }

    /// Whether the last scope record of the last resource record has this head and this schema URL: `false` where that has none
    /// yet. It costs what `is_last_resource` does. The records stay as they are, also after an error.
    ///
    /// # Errors
    ///
    /// Out of memory.
    pub fn is_last_scope<T: Rows, I: NewIndexes>(
        &mut self,
        head: &T,
        schema_url: &TextRef<'_>,
        indexes: &I,
    ) -> Result<bool, NoMemory>
        requires room { length (bytes_field 1 (spell T.shape (moved (I.to indexes.now) T.shape (T.view head.now)))) < 2 ^ 63 }
        ensures is { IfOk result (λ b. b ≡ is_head (last_heads self.old).scope (bytes_field 1 (spell T.shape (moved (I.to indexes.now) T.shape (T.view head.now)))) (bytes_field 3 schema_url.now)) }
        ensures same { self.new ≡ self.old }
    {
        is_last_scope(&mut self.kept, head, schema_url, indexes)
    }

    /// Takes memory for so many more bytes of fronts and profiles at once. The records stay as they are.
    ///
    /// # Errors
    ///
    /// Out of memory.
    pub fn reserve(&mut self, more: usize) -> Result<(), NoMemory>
        ensures { self.new ≡ self.old }
    {
        reserve(&mut self.kept, more)
    }

    /// The sums of the records, to which those of more parts can be added before they are written. It takes no memory.
    pub fn totals(&self) -> Totals
        ensures { result ≡ sums_of self.now }
    {
        self.kept.totals
    }

    /// The length of the records' text, in bytes. Nothing is counted anew, and it takes no memory.
    pub fn text_len(&self) -> u64
        ensures is { result ≡ length (parts_text self.now) }
        ensures most { result ≤ 2 ^ 59 }
    {
        text_len(&self.kept)
    }

    /// A mark of the records as they are, for `back_to`. It takes no memory.
    pub fn mark(&self) -> RecordsMark
        ensures { IsMark result self.now }
    {
        mark(&self.kept)
    }

    /// Drops what came after the mark. It takes no memory.
    pub fn back_to(&mut self, mark: RecordsMark)
        requires { CanBeCut mark self.old }
        ensures { self.new ≡ take mark.extents self.old }
    {
        back_to(&mut self.kept, mark);
    }

    /// The text of the records and the ending after it, in the memory of the records' texts, which are moved in place.
    ///
    /// # Errors
    ///
    /// Out of memory. The records come back as they were.
    pub fn finish<E: Ending>(self, ending: &E) -> Result<Blob, (Records, NoMemory)>
        ensures ok { IfOk result (λ text. text ≡ parts_text self ++ E.text ending.now) }
        ensures same { IfErr result (λ back. back.0 ≡ self) }
    {
        match finish(self.kept, ending) {
            Ok(text) => Ok(text),
            Err(kept) => Err((Records { kept }, NoMemory)),
        }
    }

    /// The text of the records and the ending after it, in memory of its own. The records stay as they are.
    ///
    /// # Errors
    ///
    /// Out of memory.
    pub fn text<E: Ending>(&self, alloc: Global, ending: &E) -> Result<Blob, NoMemory>
        ensures { IfOk result (λ text. text ≡ parts_text self.now ++ E.text ending.now) }
    {
        text(&self.kept, alloc, ending)
    }
}
