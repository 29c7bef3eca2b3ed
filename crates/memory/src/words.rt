//! The words that all harts share.

ghost use Rattle.std.specs.Prelude.{◌≡◌, ◌+◌, ◌*◌, ◌/◌, ◌<◌, ◌≤◌, ◌++◌, length, take, drop, replicate, slice_index, slice_set, IfOk};
ghost use Rattle.memory.specs.Words.{IsAddress, opened_words, opened_memory, written_since};
ghost use Rattle.memory.specs.Writes.{write, over, byte_of, IsInWord};

use crate::writes::{Write, byte_at};
use std::alloc::{AllocError, Global};
use std::marker::Model;

/// `M` words of 32 bits, at the byte addresses 0, 4, .. below `4 * M`; seen as the list of the words,
/// and the list of those with which it opened.
#[derive(Drop)]
pub struct Memory<const M: usize> {
    words: Vec<u32>,
    first: Vec<u32>,
    /// From this index on no word was written since the opening.
    untouched: usize,
}

impl<const M: usize> Model for Memory<M> {
    ghost use Rattle.memory.specs.Words.{MemoryView, IsMemory};

    ghost Value = { MemoryView };

    ghost view = { λ m. record { words = m.words.items; first = m.first.items } };

    ghost invariant = { λ m. IsMemory M m.words.items m.first.items m.untouched };
}

impl<const M: usize> Memory<M> {
    /// A memory that opens with these words, and 0 after them.
    pub fn open(alloc: Global, words: &[u32]) -> Result<Self, AllocError>
        requires size { M ≤ 65536 }
        requires fits { length words.now ≤ M }
        ensures { IfOk result (λ m. m ≡ opened_memory M words.now) }
    {
        let first = padded::<M>(alloc, words)?;
        let words = Vec::from_slice(alloc, &first)?;
        Ok(Memory {
            words,
            first,
            untouched: 0,
        })
    }

    /// The words in order, that at byte address `4 * i` at index `i`.
    pub fn words(&self) -> &[u32]
        ensures value { result.now ≡ self.now.words }
        ensures len { length self.now.words ≡ M }
    {
        &self.words
    }

    /// The word at byte address `addr`.
    pub fn load(&self, addr: u32) -> u32
        requires { IsAddress M addr }
        ensures { result ≡ slice_index self.now.words (addr / 4) }
    {
        self.words[(addr / 4) as usize]
    }

    /// The byte at address `addr`.
    pub fn load_byte(&self, addr: u32) -> u8
        requires { addr < 4 * M }
        ensures { result ≡ byte_of self.now.words addr }
    {
        byte_at(self.words[(addr / 4) as usize], addr % 4)
    }

    /// Makes the `width` bytes from `addr` on, all of one word, those of `value`, the lowest first.
    pub fn store_bytes(&mut self, addr: u32, width: u32, value: u32)
        requires within { addr < 4 * M }
        requires in_word { IsInWord width addr }
        ensures { self.new ≡ record self.old {
          words = slice_set self.old.words (addr / 4)
              (over (write addr width value) (slice_index self.old.words (addr / 4)));
        } }
    {
        let index = (addr / 4) as usize;
        let write = Write { addr, width, value };
        self.words[index] = write.over(self.words[index]);
        if self.untouched <= index {
            self.untouched = index + 1;
        }
    }

    /// Puts the words back with which the memory opened. It goes over those up to the last that was
    /// written since, and over no other.
    pub fn restart(&mut self)
        ensures { self.new ≡ record self.old { words = self.old.first } }
    {
        put_first(&mut self.words, &self.first[..self.untouched]);
        self.untouched = 0;
    }

    /// A copy of the words up to the last that differs from the opening's.
    pub fn save(&self, alloc: Global) -> Result<Vec<u32>, AllocError>
        ensures { IfOk result (λ saved. saved.items ≡ written_since self.now.first self.now.words) }
    {
        Vec::from_slice(alloc, self.written())
    }

    /// The words up to the last that differs from the opening's.
    pub fn written(&self) -> &[u32]
        ensures value { result.now ≡ written_since self.now.first self.now.words }
        ensures few { length result.now ≤ M }
    {
        let len = written_len(&self.words, &self.first, self.untouched);
        &self.words[..len]
    }

    /// Makes the words these, and the opening's after them. It takes no memory.
    pub fn restore(&mut self, saved: &[u32])
        requires { length saved.now ≤ M }
        ensures { self.new ≡ record self.old { words = saved.now ++ drop (length saved.now) self.old.first } }
    {
        self.restart();
        put_first(&mut self.words, saved);
        self.untouched = saved.len();
    }
}

/// How many words there are up to the last that differs from the opening's, where from `untouched` on none does.
fn written_len(words: &[u32], first: &[u32], untouched: usize) -> usize
    requires len { length words.now ≡ length first.now }
    requires place { untouched ≤ length words.now }
    requires same { drop untouched words.now ≡ drop untouched first.now }
    ensures value { take result words.now ≡ written_since first.now words.now }
    ensures within { result ≤ untouched }
{
    let mut len = untouched;
    while len > 0 && words[len - 1] == first[len - 1] {
        len -= 1;
    }
    len
}

/// These words, and zeros up to `M` words.
fn padded<const M: usize>(alloc: Global, words: &[u32]) -> Result<Vec<u32>, AllocError>
    requires { length words.now ≤ M }
    ensures { IfOk result (λ all. all.items ≡ opened_words M words.now) }
{
    let mut all = vec![in alloc; 0; M]?;
    put_first(&mut all, words);
    Ok(all)
}

/// Puts some words in the place of the first ones.
fn put_first(words: &mut [u32], first: &[u32])
    requires { length first.now ≤ length words.old }
    ensures { words.new ≡ first.now ++ drop (length first.now) words.old }
{
    let (front, _) = words.split_at_mut(first.len());
    front.copy_from_slice(first);
}
