//! Texts.

ghost use Rattle.std.specs.Prelude.{◌≡◌, IfOk, string_bytes};

use std::alloc::{AllocError, Global};
use std::marker::Model;

/// A text of its own, which contracts see as its bytes in UTF-8.
#[derive(Debug)]
pub struct Text {
    inner: String,
}

impl Drop for Text {
    fn drop(self) {
        let Text { inner: _inner } = self;
    }
}

impl Model for Text {
    ghost use Rattle.std.specs.Prelude.{ℕ, List, string_bytes};

    ghost Value = { List ℕ };

    ghost view = { λ t. string_bytes t.inner };
}

impl Text {
    /// The text of a `String`.
    pub fn of(inner: String) -> Text
        ensures { result ≡ string_bytes inner }
    {
        Text { inner }
    }

    /// A copy of these characters.
    pub fn copy_of(alloc: Global, characters: &str) -> Result<Text, AllocError>
        ensures { IfOk result (λ text. text ≡ characters.now) }
    {
        let inner = String::from_str(alloc, characters)?;
        Ok(Text { inner })
    }

    /// The characters.
    pub fn as_str(&self) -> &str
        ensures { result.now ≡ self.now }
    {
        self.inner.as_str()
    }

    /// The characters in UTF-8.
    pub fn as_bytes(&self) -> &[u8]
        ensures { result.now ≡ self.now }
    {
        self.inner.as_bytes()
    }

    /// The text as a `String` again.
    pub fn into_string(self) -> String
        ensures { string_bytes result ≡ self }
    {
        let Text { inner } = self;
        inner
    }
}
