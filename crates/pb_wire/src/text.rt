//! Texts.
ghost use Rattle.std.specs.Prelude.{◌≡◌, ◌++◌, [], List, ℕ, IfOk, OnOk, OnErr, string_bytes, true};
ghost use Rattle.std.specs.Str.{is_utf8};

use crate::NoMemory;
use std::alloc::Global;
use std::marker::Model;

/// A text, seen as the list of its bytes, which are UTF-8 by the type's invariant.
#[derive(Debug, Drop)]
pub struct Text {
    inner: String,
}

impl Model for Text {
    ghost use Rattle.std.specs.Prelude.{◌≡◌, List, ℕ, string_bytes, true};
    ghost use Rattle.std.specs.Str.{is_utf8};

    ghost Value = { List ℕ };

    ghost view = { λ t. string_bytes t.inner };

    ghost invariant = { λ t. is_utf8 (string_bytes t.inner) ≡ true };
}

impl Text {
    /// The empty text. It takes no memory.
    #[tactic(auto, using(crate::proofs::Utf8::string_is_text))]
    pub fn begin(alloc: Global) -> Text
        ensures { result ≡ [] }
    {
        Text {
            inner: String::new(alloc),
        }
    }

    /// The text of a string, which is moved.
    #[tactic(auto, using(crate::proofs::Utf8::string_is_text))]
    pub fn from_string(inner: String) -> Text
        ensures { result ≡ string_bytes inner }
    {
        Text { inner }
    }

    /// A copy of a text.
    #[tactic(auto, using(crate::proofs::Utf8::string_is_text))]
    pub fn copy_of(alloc: Global, text: &str) -> Result<Text, NoMemory>
        ensures { IfOk result (λ t. t ≡ text.now) }
    {
        Ok(Text {
            inner: String::from_str(alloc, text)?,
        })
    }

    /// Puts a text at the end.
    #[tactic(auto, using(crate::proofs::Utf8::string_is_text))]
    pub fn append(&mut self, text: &str) -> Result<(), NoMemory>
        ensures ok { OnOk result (self.new ≡ self.old ++ text.now) }
        ensures err { OnErr result (self.new ≡ self.old) }
    {
        self.inner.push_str(text)?;
        Ok(())
    }

    /// The text as a string, which is moved.
    pub fn into_string(self) -> String
        ensures { string_bytes result ≡ self }
    {
        self.inner
    }

    pub fn as_str(&self) -> &str
        ensures { result.now ≡ self.now }
    {
        self.inner.as_str()
    }

    /// The bytes of the text, which are UTF-8.
    pub fn as_bytes(&self) -> &[u8]
        ensures same { result.now ≡ self.now }
        ensures utf8 { is_utf8 self.now ≡ true }
    {
        self.inner.as_bytes()
    }
}
