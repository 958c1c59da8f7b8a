//! The indexes of the entries of tables.
use crate::indexed::Indexed;
use crate::table_lengths::TableLengths;
use crate::{Holder, Refusal};
use dict_rec::{Attr, Function, Line, Location, Mapping, Stack, TableKind};

impl Indexed for Mapping {
    fn indexes_within(&self, lengths: &TableLengths, holder: Holder) -> Result<(), Refusal> {
        lengths.test(TableKind::String, self.filename_strindex, holder, 4, 0)?;
        lengths.test_list(TableKind::Attribute, &self.attribute_indices, holder, 5)?;
        Ok(())
    }
}

impl Indexed for Location {
    fn indexes_within(&self, lengths: &TableLengths, holder: Holder) -> Result<(), Refusal> {
        lengths.test(TableKind::Mapping, self.mapping_index, holder, 1, 0)?;
        lengths.test_each(&self.lines, holder, 3)?;
        lengths.test_list(TableKind::Attribute, &self.attribute_indices, holder, 4)?;
        Ok(())
    }
}

impl Indexed for Line {
    fn indexes_within(&self, lengths: &TableLengths, holder: Holder) -> Result<(), Refusal> {
        lengths.test(TableKind::Function, self.function_index, holder, 1, 0)?;
        Ok(())
    }
}

impl Indexed for Function {
    fn indexes_within(&self, lengths: &TableLengths, holder: Holder) -> Result<(), Refusal> {
        lengths.test(TableKind::String, self.name_strindex, holder, 1, 0)?;
        lengths.test(TableKind::String, self.system_name_strindex, holder, 2, 0)?;
        lengths.test(TableKind::String, self.filename_strindex, holder, 3, 0)?;
        Ok(())
    }
}

impl<'a> Indexed for Attr<'a> {
    fn indexes_within(&self, lengths: &TableLengths, holder: Holder) -> Result<(), Refusal> {
        lengths.test(TableKind::String, self.key_strindex, holder, 1, 0)?;
        lengths.test(TableKind::String, self.unit_strindex, holder, 3, 0)?;
        Ok(())
    }
}

impl Indexed for Stack {
    fn indexes_within(&self, lengths: &TableLengths, holder: Holder) -> Result<(), Refusal> {
        lengths.test_list(TableKind::Location, &self.location_indices, holder, 1)?;
        Ok(())
    }
}
