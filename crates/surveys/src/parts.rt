//! Numbers of lists of words, in the order in which they are met first.

ghost use Rattle.std.specs.Prelude.{◌≡◌, ◌+◌, ◌<◌, ◌≤◌, [], length, slice_get, Ok, None, Some, IfOk, IfSome, OnOk, OnErr, All};
ghost use Rattle.std.specs.List.{Contains};
ghost use Rattle.surveys.specs.inner.Compact.{IsCompact};

use crate::compact::{push_bytes, push_words};
use indexmap::IndexSet;
use std::alloc::{AllocError, Global};
use std::marker::Model;

/// Lists of words by number; seen as the list of them, each once.
#[derive(Drop)]
pub struct Parts {
    /// Each list's words as bytes.
    parts: IndexSet<Vec<u8>>,
    /// Room for the bytes of the list that is looked up.
    bytes: Vec<u8>,
    ghost compact: { All IsCompact parts.keys },
}

impl Model for Parts {
    ghost use Rattle.std.specs.Prelude.{ℕ, List, map};
    ghost use Rattle.surveys.specs.inner.Compact.{position_words};

    ghost Value = { List (List ℕ) };

    ghost view = { λ s. map position_words s.parts.keys };
}

impl Parts {
    ghost use Rattle.states.specs.States.{IsNumbered, words_at};

    /// None is numbered yet.
    pub fn new(alloc: Global) -> Self
        ensures { result ≡ [] }
    {
        Parts {
            parts: IndexSet::new(alloc),
            bytes: Vec::new(alloc),
        }
    }

    /// How many are numbered, which is the number of the next new one.
    pub fn len(&self) -> usize
        ensures { result ≡ length self.now }
    {
        self.parts.len()
    }

    /// The number of these words: their old one, else the next. An error changes nothing.
    pub fn number(&mut self, words: &[u32]) -> Result<usize, AllocError>
        ensures numbered { IfOk result (IsNumbered self.old words.now self.new) }
        ensures within { IfOk result (λ number. number < length self.new) }
        ensures kept { length self.old ≤ length self.new }
        ensures next { length self.new ≤ length self.old + 1 }
        ensures err { OnErr result (self.new ≡ self.old) }
    {
        self.bytes.clear();
        push_bytes(&mut self.bytes, words)?;
        if let Some(number) = self.parts.get_index_of(self.bytes.as_slice()) {
            return Ok(number);
        }
        let number = self.parts.len();
        let part = Vec::from_slice(*self.bytes.allocator(), &self.bytes)?;
        self.parts.insert(part)?;
        Ok(number)
    }

    /// The number of these words, if they are numbered. `bytes` is room for their bytes.
    pub fn find(&self, words: &[u32], bytes: &mut Vec<u8>) -> Result<Option<usize>, AllocError>
        ensures known { IfOk result (λ found. IfSome found (λ number. slice_get self.now number ≡ Some words.now)) }
        ensures unknown { result ≡ Ok None → Contains self.now words.now → ⊥ }
    {
        bytes.clear();
        push_bytes(bytes, words)?;
        Ok(self.parts.get_index_of(bytes.as_slice()))
    }

    /// Writes the words of this number in the place of what `words` holds.
    pub fn words_into(&self, number: usize, words: &mut Vec<u32>) -> Result<(), AllocError>
        ensures { OnOk result (words.new.items ≡ words_at self.now number) }
    {
        words.clear();
        if let Some(part) = self.parts.get_index(number) {
            push_words(words, part)?;
        }
        Ok(())
    }
}
