//! Keys of states in the order in which they are met first, and a table by which each is found.

ghost use Rattle.std.specs.Prelude.{◌≡◌, ◌↔◌, ◌≤◌, ◌<◌, ◌++◌, ◌*◌, ◌/◌, ◌^◌, ◌≢◌, max, All, [], ◌∷◌, Some, false, map, length, replicate, slice_get, IsTrue};
ghost use Rattle.std.specs.Prelude.{IfOk, IfSome, OnOk, OnErr, if◌then◌else◌};
ghost use Rattle.std.specs.List.{AllZip, Contains, slice_index_or};
ghost use Rattle.surveys.specs.inner.Digits.{HasRoomFor, numbers_of_key};

use crate::layout::Layout;
use std::alloc::{AllocError, Global};
use std::marker::Model;

/// How many keys there are at most: numbers have 24 bits.
pub const MOST_KEYS: usize = 16_777_216;

/// How many slots a table has first. Up to 1,024 keys at once are looked up, and so the next larger has room for them.
const FIRST_SLOTS: usize = 4096;

/// Keys of `N` words by number.
#[derive(Drop)]
pub struct Keys<const N: usize> {
    keys: Vec<[u64; N]>,
    /// A slot is 0, or has a key's number in 24 bits and some of its hash, of which one is set, in those above. The
    /// slots of a key begin at its hash.
    slots: Vec<u32>,
    ghost small: { N ≤ 64 },
}

impl<const N: usize> Model for Keys<N> {
    ghost use Rattle.std.specs.Prelude.{ℕ, List};

    ghost Value = { List (List ℕ) };

    ghost view = { λ k. k.keys.items };
}

/// A key that is looked up, and its hash.
#[derive(Clone, Copy)]
pub struct Draft<const N: usize> {
    pub key: [u64; N],
    hash: u64,
}

impl<const N: usize> Draft<N> {
    #[inline(always)]
    pub fn new(key: [u64; N]) -> Self
        ensures { result.key ≡ key.entry }
    {
        Draft {
            key,
            hash: hash_of(&key),
        }
    }
}

/// A key's hash. It says where a search for the key begins and nothing of what it finds, since keys are compared: so no clause
/// is about its value, nor about the slots.
#[inline(always)]
fn hash_of<const N: usize>(key: &[u64; N]) -> u64 {
    let mut hash = 0u64;
    for word in key {
        hash = (hash ^ *word).wrapping_mul(0x9E37_79B9_7F4A_7C15);
        hash ^= hash >> 32;
    }
    hash
}

/// The bits of a hash that stand beside a key's number. One is set, so that the slot of a key isn't 0.
#[inline(always)]
fn tag_of(hash: u64) -> u32
    ensures { result ≡ max (hash / 2 ^ 56) 1 * 2 ^ 24 }
{
    ((hash >> 56) as u32).max(1) << 24
}

/// The first slot from that of a hash on that is free.
fn free_slot(slots: &[u32], hash: u64) -> usize
    ensures { 0 < length slots.now → result < length slots.now }
{
    let mask = slots.len().wrapping_sub(1);
    let mut at = (hash % 4_294_967_296) as u32 as usize & mask;
    for _ in 0..slots.len() {
        match slots.get(at) {
            Some(slot) if *slot != 0 => at = at.wrapping_add(1) & mask,
            _ => return at,
        }
    }
    at
}

impl<const N: usize> Keys<N> {
    /// This key alone.
    pub fn new(alloc: Global, first: [u64; N]) -> Result<Self, AllocError>
        requires { N ≤ 64 }
        ensures { IfOk result (λ keys. keys ≡ first.entry ∷ []) }
    {
        let mut keys = Keys {
            keys: vec![in alloc; first; 1]?,
            slots: Vec::new(alloc),
        };
        keys.fill_table(FIRST_SLOTS)?;
        Ok(keys)
    }

    /// How many there are, which is the number of the next new one.
    #[inline(always)]
    pub fn len(&self) -> usize
        ensures { result ≡ length self.now }
    {
        self.keys.len()
    }

    /// The key of a number, and zeros where there is none.
    #[inline(always)]
    pub fn key(&self, number: usize) -> [u64; N]
        ensures { result ≡ slice_index_or self.now number (replicate N 0) }
    {
        match self.keys.get(number) {
            Some(key) => *key,
            None => [0; N],
        }
    }

    /// The first slot from that of a hash on that is free or may be that of its key.
    #[inline(always)]
    fn look(&self, hash: u64) -> u32
        ensures { result ≢ 0 → result / 2 ^ 24 ≡ max (hash / 2 ^ 56) 1 }
    {
        let mask = self.slots.len().wrapping_sub(1);
        let tag = tag_of(hash);
        let mut at = (hash % 4_294_967_296) as u32 as usize & mask;
        for _ in 0..self.slots.len() {
            match self.slots.get(at) {
                Some(slot) if *slot != 0 && *slot & 0xFF00_0000 != tag => at = at.wrapping_add(1)
                    & mask,
                Some(slot) => return *slot,
                None => return 0,
            }
        }
        0
    }

    /// Whether this is the key of a number.
    #[inline(always)]
    fn is_at(&self, number: u32, key: &[u64; N]) -> bool
        ensures { IsTrue result ↔ (slice_get self.now number ≡ Some key.now) }
    {
        match self.keys.get(number as usize) {
            Some(other) => *other == *key,
            None => false,
        }
    }

    /// Writes for each draft whether its key was found at once, in the place of what `known` holds. A key that wasn't may
    /// be there all the same.
    pub fn look_up(
        &self,
        drafts: &[Draft<N>],
        looks: &mut Vec<u32>,
        known: &mut Vec<bool>,
    ) -> Result<(), AllocError>
        ensures { OnOk result (AllZip (λ draft is_known. IsTrue is_known → Contains self.now draft.key) drafts.now known.new.items) }
    {
        looks.clear();
        for draft in drafts {
            looks.push(self.look(draft.hash))?;
        }
        known.clear();
        for (draft, slot) in drafts.iter().zip(looks.iter()) {
            known.push(*slot != 0 && self.is_at(*slot & 0xFF_FFFF, &draft.key))?;
        }
        Ok(())
    }

    /// The number of a key, or else a slot for it: the first from that of its hash on that is free.
    #[inline(always)]
    fn seek(&self, draft: &Draft<N>) -> Result<u32, usize>
        ensures { IfOk result (λ number. slice_get self.now number ≡ Some draft.now.key) }
    {
        let mask = self.slots.len().wrapping_sub(1);
        let tag = tag_of(draft.hash);
        let mut at = (draft.hash % 4_294_967_296) as u32 as usize & mask;
        for _ in 0..self.slots.len() {
            match self.slots.get(at) {
                Some(slot) if *slot != 0 => {
                    let number = *slot & 0xFF_FFFF;
                    if *slot & 0xFF00_0000 == tag && self.is_at(number, &draft.key) {
                        return Ok(number);
                    }
                    at = at.wrapping_add(1) & mask;
                }
                _ => return Err(at),
            }
        }
        Err(at)
    }

    /// The number of a key, if it is found: one that isn't may be there all the same.
    #[inline(always)]
    pub fn find(&self, draft: &Draft<N>) -> Option<u32>
        ensures { IfSome result (λ number. slice_get self.now number ≡ Some draft.now.key) }
    {
        self.seek(draft).ok()
    }

    /// Appends a key, unless it is there, and answers whether it did.
    #[inline(always)]
    pub fn insert(&mut self, draft: &Draft<N>) -> Result<bool, AllocError>
        ensures added { IfOk result (λ is_new. self.new ≡ (if is_new then self.old ++ draft.now.key ∷ [] else self.old)) }
        ensures known { IfOk result (λ is_new. is_new ≡ false → Contains self.old draft.now.key) }
        ensures err { OnErr result (self.new ≡ self.old) }
    {
        let Err(at) = self.seek(draft) else {
            return Ok(false);
        };
        let number = self.keys.len();
        if number >= MOST_KEYS {
            return Err(AllocError);
        }
        self.keys.push(draft.key)?;
        if let Some(slot) = self.slots.get_mut(at) {
            *slot = number as u32 | tag_of(draft.hash);
        }
        Ok(true)
    }

    /// Makes room in the table for some more keys. The old table is given back before there is a new one.
    pub fn make_room(&mut self, more: usize) -> Result<(), AllocError>
        ensures { self.new ≡ self.old }
    {
        let size = self.slots.len();
        if size / 4 * 3 < self.keys.len().saturating_add(more) {
            self.fill_table(size.saturating_mul(2))?;
        }
        Ok(())
    }

    fn fill_table(&mut self, size: usize) -> Result<(), AllocError>
        ensures { self.new ≡ self.old }
    {
        let alloc = *self.keys.allocator();
        self.slots = Vec::new(alloc);
        self.slots = vec![in alloc; 0; size]?;
        for (number, key) in self.keys.iter().enumerate() {
            let hash = hash_of(key);
            let at = free_slot(&self.slots, hash);
            if let Some(slot) = self.slots.get_mut(at) {
                *slot = (number % MOST_KEYS) as u32 | tag_of(hash);
            }
        }
        Ok(())
    }

    /// Writes each key by another layout, which must hold the numbers of all. After an error the keys are written all the same.
    pub fn move_to(&mut self, old: &Layout<N>, new: &Layout<N>) -> Result<(), AllocError>
        ensures count { length self.new ≡ length self.old }
        ensures rows { All (λ key. HasRoomFor new.now (numbers_of_key old.now key)) self.old
            → map (numbers_of_key new.now) self.new ≡ map (numbers_of_key old.now) self.old }
    {
        let size = self.slots.len();
        for index in 0..self.keys.len() {
            let key = old.moved(&self.keys[index], new);
            self.keys[index] = key;
        }
        self.fill_table(size)
    }
}
