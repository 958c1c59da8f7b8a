//! Texts and bytes that are borrowed from the body of a message.
ghost use Rattle.std.specs.Prelude.{◌≡◌, [], List, ℕ, true, length, ◌==◌};
ghost use Rattle.std.specs.Str.{is_utf8};

use std::marker::Model;

/// A text of a body, seen as the list of its bytes, which are UTF-8 by its type. `Text` owns its bytes.
#[derive(Debug, Drop)]
pub struct TextRef<'a> {
    inner: &'a str,
}

impl<'a> Model for TextRef<'a> {
    ghost Value = { List ℕ };

    ghost view = { λ t. t.inner.now };

    ghost invariant = { λ t. is_utf8 t.inner.now ≡ true };
}

impl<'a> TextRef<'a> {
    /// The empty text.
    pub fn empty() -> TextRef<'a>
        ensures { result ≡ [] }
    {
        TextRef::of("")
    }

    /// The text of a string slice.
    pub fn of(inner: &'a str) -> TextRef<'a>
        ensures { result ≡ inner.now }
    {
        TextRef { inner }
    }

    /// The same text once more. None of it is copied.
    pub fn again(&self) -> TextRef<'a>
        ensures { result ≡ self.now }
    {
        TextRef { inner: self.inner }
    }

    pub fn as_str(&self) -> &'a str
        ensures { result.now ≡ self.now }
    {
        self.inner
    }

    /// The bytes of the text, which are UTF-8.
    pub fn as_bytes(&self) -> &'a [u8]
        ensures same { result.now ≡ self.now }
        ensures utf8 { is_utf8 self.now ≡ true }
    {
        self.inner.as_bytes()
    }
}

/// Bytes of a body, seen as their list. `Blob` owns its bytes.
#[derive(Debug, Drop)]
pub struct BytesRef<'a> {
    inner: &'a [u8],
}

impl<'a> Model for BytesRef<'a> {
    ghost Value = { List ℕ };

    ghost view = { λ b. b.inner.now };
}

impl<'a> BytesRef<'a> {
    /// No bytes.
    pub fn empty() -> BytesRef<'a>
        ensures { result ≡ [] }
    {
        BytesRef { inner: &[] }
    }

    /// The bytes of a slice.
    pub fn of(inner: &'a [u8]) -> BytesRef<'a>
        ensures { result ≡ inner.now }
    {
        BytesRef { inner }
    }

    /// The same bytes once more. None is copied.
    pub fn again(&self) -> BytesRef<'a>
        ensures { result ≡ self.now }
    {
        BytesRef { inner: self.inner }
    }

    pub fn as_slice(&self) -> &'a [u8]
        ensures { result.now ≡ self.now }
    {
        self.inner
    }

    pub fn len(&self) -> usize
        ensures { result ≡ length self.now }
    {
        self.inner.len()
    }

    pub fn is_empty(&self) -> bool
        ensures { result ≡ (length self.now == 0) }
    {
        self.inner.is_empty()
    }
}
