//! Lists of words.

ghost use Rattle.std.specs.Prelude.{◌≡◌, IfOk};
ghost use Rattle.road_base.specs.Words.{is_among};

use crate::texts::Text;
use std::alloc::{AllocError, Global};
use std::marker::Model;

/// Words in order, as the values of a tag or the names of classes. Contracts see a list of texts.
#[derive(Debug)]
pub struct Words {
    inner: Vec<Text>,
}

impl Drop for Words {
    fn drop(self) {
        let Words { inner: _inner } = self;
    }
}

impl Model for Words {
    ghost use Rattle.std.specs.Prelude.{ℕ, List};

    ghost Value = { List (List ℕ) };

    ghost view = { λ words. words.inner.items };
}

impl Words {
    /// The list of a `Vec`.
    pub fn of(inner: Vec<Text>) -> Words
        ensures { result ≡ inner.items }
    {
        Words { inner }
    }

    /// The words, in their order.
    pub fn as_slice(&self) -> &[Text]
        ensures { result.now ≡ self.now }
    {
        &self.inner
    }

    /// Whether this text is one of the words, byte for byte.
    pub fn has(&self, text: &str) -> bool
        ensures { result ≡ is_among self.now text.now }
    {
        self.inner.iter().any(|word| text == word.as_str())
    }

    /// Another list of the same words.
    pub fn try_clone(&self, alloc: Global) -> Result<Words, AllocError>
        ensures { IfOk result (λ copy. copy ≡ self.now) }
    {
        let mut inner = Vec::with_capacity(alloc, self.inner.len())?;
        for word in &self.inner {
            inner.push(Text::copy_of(alloc, word.as_str())?)?;
        }
        Ok(Words { inner })
    }
}
