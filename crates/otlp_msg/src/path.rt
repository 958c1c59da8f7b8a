//! Where an index is in a message.
ghost use Rattle.std.specs.Prelude.{◌≡◌};
ghost use Rattle.otlp_msg.specs.Walk.{entered, entry_holder};

use dict_rec::TableKind;

/// The place of a profile: its resource record, its scope record there, and itself there. Each is counted from 0.
#[derive(Clone, Copy, Debug, PartialEq, Eq)]
pub struct ProfilePos {
    pub resource: u32,
    pub scope: u32,
    pub profile: u32,
}

/// Who holds an index: an entry of a table, or a part of a profile. Each number is a place in a list, counted from 0.
#[derive(Clone, Copy, Debug, PartialEq, Eq)]
pub enum Holder {
    Mapping { entry: u32 },
    Location { entry: u32 },
    Line { location: u32, line: u32 },
    Function { entry: u32 },
    Attr { entry: u32 },
    Stack { entry: u32 },
    SampleType { pos: ProfilePos },
    Sample { pos: ProfilePos, sample: u32 },
    PeriodType { pos: ProfilePos },
    Profile { pos: ProfilePos },
}

/// Where an index is: its holder, the number of its field, and its place in that field's list, 0 in a singular field.
#[derive(Clone, Copy, Debug, PartialEq, Eq)]
pub struct Path {
    pub holder: Holder,
    pub field: u32,
    pub item: u32,
}

impl Holder {
    /// The holder that an entry of a table is. Links and strings hold no index.
    pub(crate) fn of_entry(table: TableKind, entry: u32) -> Holder
        ensures { result ≡ entry_holder table entry }
    {
        match table {
            TableKind::Mapping => Holder::Mapping { entry },
            TableKind::Location => Holder::Location { entry },
            TableKind::Function => Holder::Function { entry },
            TableKind::Attribute => Holder::Attr { entry },
            TableKind::Stack | TableKind::Link | TableKind::String => Holder::Stack { entry },
        }
    }

    /// The holder of the message that is in a field of this one, at a place of the field's list.
    pub(crate) fn entered(self, field: u32, item: u32) -> Holder
        ensures { result ≡ entered self field item }
    {
        match (self, field) {
            (Holder::Location { entry }, 3) => Holder::Line {
                location: entry,
                line: item,
            },
            (Holder::Profile { pos }, 1) => Holder::SampleType { pos },
            (Holder::Profile { pos }, 2) => Holder::Sample { pos, sample: item },
            (Holder::Profile { pos }, 5) => Holder::PeriodType { pos },
            _ => self,
        }
    }
}
