//! Where the entries of a message's tables are held.
ghost use Rattle.std.specs.Prelude.{◌≡◌};
ghost use Rattle.meaning.specs.Message.{tables_in};
ghost use Rattle.dict_rec.specs.Views.{dictionary_view};

use crate::Meanings;
use dict_rec::Dictionary;
use std::marker::Model;

/// A holder of a dictionary.
pub trait HoldsTables<'a>: Meanings {
    /// The dictionary.
    fn dictionary(&self) -> &Dictionary<'a>
        ensures { tables_in (dictionary_view result.now) ≡ Self.tables self.now };
}

/// A dictionary that is held by reference, seen as its value.
#[derive(Drop)]
pub struct Held<'w, 'a> {
    dictionary: &'w Dictionary<'a>,
}

impl<'w, 'a> Model for Held<'w, 'a> {
    ghost use Rattle.std.specs.Coded.{codes};
    ghost use Rattle.any_value.specs.Codes.{any_code};
    ghost use Rattle.dict_rec.specs.Views.{dictionary_view};
    ghost use Rattle.entry_text.specs.DictionaryTexts.{DictionaryValue};

    ghost Value = { DictionaryValue };

    ghost coded = { Prim.hlevel (codes, any_code) };

    ghost view = { λ d. dictionary_view d.dictionary.now };
}

impl<'w, 'a> Held<'w, 'a> {
    /// Holds a dictionary.
    pub fn of(dictionary: &'w Dictionary<'a>) -> Held<'w, 'a>
        ensures { result ≡ dictionary_view dictionary.now }
    {
        Held { dictionary }
    }
}

impl<'w, 'a> Meanings for Held<'w, 'a> {
    ghost use Rattle.meaning.specs.Message.{tables_in};

    ghost tables = { λ d. tables_in d };
}

impl<'w, 'a> HoldsTables<'a> for Held<'w, 'a> {
    fn dictionary(&self) -> &Dictionary<'a> {
        self.dictionary
    }
}
