//! The test of a record's indexes.
ghost use Rattle.std.specs.Prelude.{◌≡◌, ◌<◌, ◌^◌, [], ◌∷◌, length, map};
ghost use Rattle.schema.specs.Each.{Each};
ghost use Rattle.schema.specs.Spell.{spell};
ghost use Rattle.dict_rec.specs.Views.{indexes_view};
ghost use Rattle.otlp_msg.specs.Lengths.{lengths_view};
ghost use Rattle.otlp_msg.specs.Walk.{entered, entry_holder, spot, within};
ghost use Rattle.otlp_msg.specs.Within.{each_within, value_within, HasPlaces};

use crate::table_lengths::TableLengths;
use crate::{Holder, Refusal};
use dict_rec::TableKind;
use pb_wire::{List, Rows};

/// A record that may hold indexes. An implementation gives one line for each row that holds some.
pub(crate) trait Indexed: Rows {
    /// Tests each index of the record, and answers the refusal of the first that is in no table. It takes no memory.
    fn indexes_within(&self, lengths: &TableLengths, holder: Holder) -> Result<(), Refusal>
        requires { HasPlaces Self.shape (Self.view self.now) }
        ensures { result ≡ value_within Self.shape (lengths_view lengths.now) holder (Self.view self.now) };
}

impl TableLengths {
    /// Tests the indexes of a repeated field.
    pub fn test_indexes(
        &self,
        table: TableKind,
        indexes: &[i32],
        holder: Holder,
        field: u32,
    ) -> Result<(), Refusal>
        requires { length indexes.now < 2 ^ 32 }
        ensures { result ≡ each_within (λ i z. within (lengths_view self.now) (spot table z holder field i ∷ [])) 0 (indexes_view indexes.now) }
    {
        for (item, index) in indexes.iter().enumerate() {
            if let Err(refusal) = self.test(table, *index, holder, field, item as u32) {
                return Err(refusal);
            }
        }
        Ok(())
    }

    /// Tests the indexes of a repeated field that is a list.
    pub fn test_list(
        &self,
        table: TableKind,
        indexes: &List<i32>,
        holder: Holder,
        field: u32,
    ) -> Result<(), Refusal>
        requires { length indexes.now < 2 ^ 32 }
        ensures { result ≡ each_within (λ i z. within (lengths_view self.now) (spot table z holder field i ∷ [])) 0 (indexes_view indexes.now) }
    {
        self.test_indexes(table, indexes.as_slice(), holder, field)
    }

    /// Tests the indexes of the elements of a repeated message.
    pub fn test_each<T: Indexed>(
        &self,
        elements: &List<T>,
        holder: Holder,
        field: u32,
    ) -> Result<(), Refusal>
        requires few { length elements.now < 2 ^ 32 }
        requires each { Each (λ x. HasPlaces T.shape x × (length (spell T.shape x) < 2 ^ 32)) (map T.view elements.now) }
        ensures { result ≡ each_within (λ i. value_within T.shape (lengths_view self.now) (entered holder field i)) 0 (map T.view elements.now) }
    {
        for (item, element) in elements.as_slice().iter().enumerate() {
            let holder = holder.entered(field, item as u32);
            if let Err(refusal) = element.indexes_within(self, holder) {
                return Err(refusal);
            }
        }
        Ok(())
    }

    /// Tests the indexes of the entries of a table.
    pub fn test_entries<T: Indexed>(
        &self,
        table: TableKind,
        entries: &List<T>,
    ) -> Result<(), Refusal>
        requires few { length entries.now < 2 ^ 32 }
        requires each { Each (λ x. HasPlaces T.shape x × (length (spell T.shape x) < 2 ^ 32)) (map T.view entries.now) }
        ensures { result ≡ each_within (λ i. value_within T.shape (lengths_view self.now) (entry_holder table i)) 0 (map T.view entries.now) }
    {
        for (entry, record) in entries.as_slice().iter().enumerate() {
            let holder = Holder::of_entry(table, entry as u32);
            if let Err(refusal) = record.indexes_within(self, holder) {
                return Err(refusal);
            }
        }
        Ok(())
    }
}
