//! The texts of entries, by index.
ghost use Rattle.std.specs.Prelude.{◌≡◌};
ghost use Rattle.schema.specs.Messages.{entry};
ghost use Rattle.schema.specs.Shape.{Index};
ghost use Rattle.meaning.specs.Tables.{Tables};
ghost use Rattle.shown.specs.Direct.{meant};
ghost use Rattle.entry_text.specs.EntryTexts.{entry_text};

use crate::Entry;
use line_text::TextOut;

/// The tables that indexes point into.
pub trait Meanings {
    ghost tables: { Self → Tables };
}

/// Puts the text of an entry, which its index names.
pub trait EntryTexts<'a, E: Entry<'a>, T, O: TextOut<T>>: Meanings {
    /// Puts the text of the entry.
    fn put_entry(&self, out: &mut O, to: &mut T, index: &i32)
        ensures { O.Puts (out.old, to.old) (entry_text E.table (meant (Self.tables self.now) (Index E.table (entry E.table)) index.now)) (out.new, to.new) };
}

/// An entry that puts its text, where the entries that it names have theirs.
pub trait EntryText<'a, D: Meanings, T, O: TextOut<T>>: Entry<'a> {
    /// Puts the text of the entry.
    fn put_text(&self, texts: &D, out: &mut O, to: &mut T)
        ensures { O.Puts (out.old, to.old) (entry_text Self.table (meant (D.tables texts.now) (entry Self.table) (Self.view self.now))) (out.new, to.new) };
}
