//! The stores of one hart that other harts don't see yet.

ghost use Rattle.std.specs.Prelude.{◌≡◌, ℕ, ◌<◌, ◌≤◌, ◌==◌, [], ◌∷◌, ◌++◌, Option, None, length, drop, slice_get, unwrap_or};
ghost use Rattle.std.specs.Int.{byte_at};
ghost use Rattle.memory.specs.Writes.{write, newest_of, overlaid, IsInWord};

use crate::writes::Write;
use arrayvec::ArrayVec;
use std::marker::Model;

/// Up to `B` pending stores, each of some bytes of one word; seen as their list, oldest first.
#[derive(Drop)]
pub struct StoreBuffer<const B: usize> {
    stores: ArrayVec<Write, B>,
}

impl<const B: usize> Model for StoreBuffer<B> {
    ghost use Rattle.std.specs.Prelude.{ℕ, List};
    ghost use Rattle.memory.specs.Words.{IsBuffer};
    ghost use Rattle.memory.specs.declared.writes.Write.{Write};

    ghost Value = { List Write };

    ghost view = { λ b. b.stores.items };

    ghost invariant = { λ b. IsBuffer B b.stores.items };
}

impl<const B: usize> StoreBuffer<B> {
    /// A buffer with no store.
    pub fn new() -> Self
        requires { B ≤ 64 }
        ensures { result ≡ [] }
    {
        StoreBuffer {
            stores: ArrayVec::new(),
        }
    }

    /// How many stores are pending, at most `B`.
    pub fn len(&self) -> usize
        ensures value { result ≡ length self.now }
        ensures within { length self.now ≤ B }
    {
        self.stores.len()
    }

    /// Whether no store is pending, so that the hart reads what memory has.
    pub fn is_empty(&self) -> bool
        ensures { result ≡ (length self.now == 0) }
    {
        self.stores.is_empty()
    }

    /// The pending stores, oldest first.
    pub fn as_slice(&self) -> &[Write]
        ensures { result.now ≡ self.now }
    {
        self.stores.as_slice()
    }

    /// Appends a store of `width` bytes, the newest from now on.
    pub fn push(&mut self, addr: u32, width: u32, value: u32)
        requires room { length self.old < B }
        requires in_word { IsInWord width addr }
        ensures { self.new ≡ self.old ++ write addr width value ∷ [] }
    {
        self.stores.push(Write { addr, width, value });
    }

    /// The byte that the newest store to cover byte address `addr` puts there.
    pub fn newest(&self, addr: u32) -> Option<u8>
        ensures { result ≡ newest_of addr None self.now }
    {
        let mut found = None;
        for store in self.stores.as_slice() {
            if store.covers(addr) {
                found = Some(store.byte(addr));
            }
        }
        found
    }

    /// The word around byte address `addr` as a load of the same hart finds it, where memory has `word`.
    pub fn over(&self, addr: u32, word: u32) -> u32
        ensures { result ≡ overlaid addr word self.now }
    {
        let mut found = word;
        for store in self.stores.as_slice() {
            if store.addr / 4 == addr / 4 {
                found = store.over(found);
            }
        }
        found
    }

    /// Takes the oldest store out, which is the one that reaches the memory.
    pub fn land(&mut self) -> Option<Write>
        ensures value { result ≡ slice_get self.old 0 }
        ensures rest { self.new ≡ drop 1 self.old }
    {
        self.stores.pop_at(0)
    }

    /// Takes all stores out, and none of them reaches the memory.
    pub fn clear(&mut self)
        ensures { self.new ≡ [] }
    {
        self.stores.clear();
    }

    /// A copy, which takes no memory.
    pub fn save(&self) -> Self
        ensures { result ≡ self.now }
    {
        // the proof knows from here on what holds of the fields (`invariant`)
        let _ = &self.stores;
        let mut saved = StoreBuffer::new();
        saved.restore(self);
        saved
    }

    /// Makes the pending stores those of a copy. It takes no memory.
    pub fn restore(&mut self, saved: &Self)
        ensures { self.new ≡ saved.now }
    {
        self.stores.clear();
        for store in saved.stores.as_slice() {
            self.stores.push(*store);
        }
    }
}
