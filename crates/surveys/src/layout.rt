//! Fields of keys: where a key has the number of each part of a state.

ghost use Rattle.std.specs.Prelude.{◌≡◌, ◌↔◌, ℕ, ◌≤◌, ◌<◌, ◌+◌, ◌*◌, ◌/◌, ◌%◌, ◌^◌, ◌-◌, All, length};
ghost use Rattle.std.specs.Prelude.{IfOk, IfSome, OnOk, IsTrue};
ghost use Rattle.surveys.specs.inner.Fields.{digits_in, with_field};

use std::alloc::{AllocError, Global};
use std::marker::Model;

/// The bits of one word of a key that hold one part's number.
#[derive(Clone, Copy)]
pub struct Field {
    word: u32,
    shift: u32,
    width: u32,
    ghost some: { 1 ≤ width },
    ghost few: { width ≤ 32 },
    ghost in_word: { shift + width ≤ 64 },
}

impl Field {
    /// The number that it holds in this word.
    #[inline(always)]
    fn number_in(self, word: u64) -> u32
        ensures { result ≡ digits_in word (2 ^ self.shift) (2 ^ self.width) }
    {
        let above = 64 - self.width - self.shift;
        let number = (word << above) >> (64 - self.width);
        (number % 4_294_967_296) as u32
    }

    /// The word with another number in it, which must be one that the field can hold.
    #[inline(always)]
    fn with(self, word: u64, number: u32) -> u64
        ensures { number < 2 ^ self.width → result ≡ with_field word (2 ^ self.shift) (2 ^ self.width) number }
    {
        let without = word.wrapping_sub(u64::from(self.number_in(word)) << self.shift);
        without.wrapping_add(u64::from(number) << self.shift)
    }

    /// Whether it can hold the numbers below this one.
    fn holds(self, count: usize) -> bool
        ensures { IsTrue result ↔ (count ≤ 2 ^ self.width) }
    {
        count as u64 <= 1u64 << self.width
    }
}

/// Where each part's number stands in a key of `N` words.
#[derive(Drop)]
pub struct Layout<const N: usize> {
    fields: Vec<Field>,
}

impl<const N: usize> Model for Layout<N> {
    ghost use Rattle.std.specs.Prelude.{List, map};
    ghost use Rattle.surveys.specs.inner.Digits.{AreOfWords, Digits, digits_of};

    ghost Value = { List Digits };

    ghost view = { λ l. map digits_of l.fields.items };

    ghost invariant = { λ l. AreOfWords N (map digits_of l.fields.items) };
}

/// How many bits hold the numbers below this one and a quarter more, 32 at most.
fn width_for(count: usize) -> u32
    ensures some { 1 ≤ result }
    ensures few { result ≤ 32 }
    ensures enough { result < 32 → count + count / 4 ≤ 2 ^ result }
    ensures least { (fewer : ℕ) → 1 ≤ fewer → fewer < result → 2 ^ fewer < count + count / 4 }
{
    let wanted = count.saturating_add(count / 4) as u64;
    for width in 1..32 {
        if wanted <= 1u64 << width {
            return width;
        }
    }
    32
}

impl<const N: usize> Layout<N> {
    ghost use Rattle.std.specs.Prelude.{Ok, None, slice_get, slice_index, slice_set};
    ghost use Rattle.surveys.specs.inner.Digits.{HasRoomBelow, HasRoomFor, numbers_of_key};

    /// Fields for the numbers below these counts, and a quarter more. It is `None` where `N` words have no room, of which
    /// each has room for two numbers at least, and for counts of more than 32 bits.
    pub fn of(alloc: Global, counts: &[usize]) -> Result<Option<Self>, AllocError>
        ensures holds { IfOk result (λ made. IfSome made (λ layout. HasRoomBelow layout counts.now)) }
        ensures room { result ≡ Ok None → N < 2 ^ 32 → All (λ count. count ≤ 2 ^ 32) counts.now → 2 * N < length counts.now }
    {
        let mut fields = Vec::with_capacity(alloc, counts.len())?;
        let mut word = 0u32;
        let mut shift = 0;
        for count in counts {
            let width = width_for(*count);
            if shift + width > 64 {
                word += 1;
                shift = 0;
            }
            let field = Field { word, shift, width };
            if word as usize >= N || word == u32::MAX || !field.holds(*count) {
                return Ok(None);
            }
            fields.push(field)?;
            shift += width;
        }
        Ok(Some(Layout { fields }))
    }

    /// Whether each field can hold the numbers below the count of its place.
    pub fn holds(&self, counts: &[usize]) -> bool
        ensures { length counts.now ≡ length self.now → (IsTrue result ↔ HasRoomBelow self.now counts.now) }
    {
        for (field, count) in self.fields.iter().zip(counts) {
            if !field.holds(*count) {
                return false;
            }
        }
        true
    }

    /// The last place. If there is none, it is beyond all.
    #[inline(always)]
    pub fn last(&self) -> usize
        ensures last { 0 < length self.now → result + 1 ≡ length self.now }
        ensures beyond { length self.now ≡ 0 → result ≡ usize.MAX }
    {
        self.fields.len().wrapping_sub(1)
    }

    /// The number that a key has at a place, and 0 at a place beyond.
    #[inline(always)]
    pub fn number(&self, key: &[u64; N], place: usize) -> u32
        ensures { result ≡ slice_index (numbers_of_key self.now key.now) place }
    {
        match self.fields.get(place) {
            Some(field) => match key.get(field.word as usize) {
                Some(word) => field.number_in(*word),
                None => 0,
            },
            None => 0,
        }
    }

    /// Makes the number at a place this one, and leaves the others. It must be one that the field can hold. At a place beyond
    /// nothing changes.
    #[inline(always)]
    pub fn set(&self, key: &mut [u64; N], place: usize, number: u32)
        ensures { IfSome (slice_get self.now place) (λ digits. number < 2 ^ digits.width)
            → numbers_of_key self.now key.new ≡ slice_set (numbers_of_key self.now key.old) place number }
    {
        if let Some(field) = self.fields.get(place) {
            let at = field.word as usize;
            if at < N {
                key[at] = field.with(key[at], number);
            }
        }
    }

    /// Writes the number at each place in the place of what `row` holds.
    #[inline(always)]
    pub fn row_into(&self, key: &[u64; N], row: &mut Vec<u32>) -> Result<(), AllocError>
        ensures { OnOk result (row.new.items ≡ numbers_of_key self.now key.now) }
    {
        row.clear();
        for place in 0..self.fields.len() {
            row.push(self.number(key, place))?;
        }
        Ok(())
    }

    /// The key that has the same numbers by another layout, which must hold them.
    pub fn moved(&self, key: &[u64; N], other: &Layout<N>) -> [u64; N]
        ensures { HasRoomFor other.now (numbers_of_key self.now key.now) → numbers_of_key other.now result ≡ numbers_of_key self.now key.now }
    {
        let mut new = [0; N];
        for place in 0..self.fields.len() {
            other.set(&mut new, place, self.number(key, place));
        }
        new
    }
}
