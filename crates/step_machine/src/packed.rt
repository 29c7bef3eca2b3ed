//! Entries in few bytes: a head of four bytes for each row of equal entries, and beside the heads the numbers
//! that don't fit there.

ghost use Rattle.std.specs.Prelude.{◌≡◌, ◌+◌, ◌≤◌, ◌<◌, [], ◌∷◌, ◌++◌, true, false, length, take, ◌-◌, IfOk, IfSome};
ghost use Rattle.std.specs.Prelude.{is_some, MatchOption, IsErr, OnOk, OnErr, vec_len, vec_capacity, if◌then◌else◌};
ghost use Rattle.step_machine.specs.inner.Packed.{IsSingle, IsLonger, entry_of, further_of, longer, longer_last};

use crate::events::{Entry, Event};
use std::alloc::{AllocError, Global};
use std::marker::Model;

/// A row of equal entries, in four bytes. Landings and inner entries come in rows of up to 65,536; `further`
/// is how many follow the first.
#[derive(Clone, Copy, PartialEq, Eq)]
pub(crate) enum Head {
    Inner { hart: u8, further: u16 },
    Land { hart: u8, further: u16 },
    /// Of a whole word; the value is among the numbers.
    Load { hart: u8, addr: u16 },
    /// Of a whole word; the value is among the numbers.
    Store { hart: u8, addr: u16 },
    /// Both words are among the numbers.
    Amo { hart: u8, addr: u16 },
    Fence { hart: u8, full: bool },
    /// A word came, which is among the numbers.
    Next { hart: u8 },
    /// The word is among the numbers.
    Took { hart: u8, sender: u16 },
    /// Any entry, which is among the plain ones.
    Plain,
}

impl Head {
    ghost use Rattle.step_machine.specs.inner.Packed.{numbers_of, plain_of, further_of, entry_of};

    /// How many numbers belong to it.
    fn numbers(self) -> usize
        ensures { result ≡ numbers_of self }
    {
        match self {
            Head::Amo { .. } => 2,
            Head::Load { .. } | Head::Store { .. } | Head::Next { .. } | Head::Took { .. } => 1,
            _ => 0,
        }
    }

    /// How many plain entries belong to it.
    fn plain(self) -> usize
        ensures { result ≡ plain_of self }
    {
        match self {
            Head::Plain => 1,
            _ => 0,
        }
    }

    /// How many equal entries follow its first.
    fn further(self) -> u16
        ensures { result ≡ further_of self }
    {
        match self {
            Head::Inner { further, .. } => further,
            Head::Land { further, .. } => further,
            _ => 0,
        }
    }

    /// The entry that its row repeats. `numbers` and `plain` are the list's from this head's own on.
    fn entry(self, numbers: &[u32], plain: &[Entry]) -> Entry
        requires numbers { numbers_of self ≤ length numbers.now }
        requires plain { plain_of self ≤ length plain.now }
        ensures { result ≡ entry_of self numbers.now plain.now }
    {
        match self {
            Head::Inner { hart, .. } => Entry::Inner {
                hart: u32::from(hart),
            },
            Head::Land { hart, .. } => Entry::Land {
                hart: u32::from(hart),
            },
            Head::Load { hart, addr } => Entry::Load {
                hart: u32::from(hart),
                addr: u32::from(addr),
                width: 4,
                value: numbers[0],
            },
            Head::Store { hart, addr } => Entry::Store {
                hart: u32::from(hart),
                addr: u32::from(addr),
                width: 4,
                value: numbers[0],
            },
            Head::Amo { hart, addr } => Entry::Amo {
                hart: u32::from(hart),
                addr: u32::from(addr),
                old: numbers[0],
                new: numbers[1],
            },
            Head::Fence { hart, full } => Entry::Fence {
                hart: u32::from(hart),
                full,
            },
            Head::Next { hart } => Entry::Next {
                hart: u32::from(hart),
                word: Some(numbers[0]),
            },
            Head::Took { hart, sender } => Entry::Took {
                hart: u32::from(hart),
                sender: u32::from(sender),
                word: numbers[0],
            },
            Head::Plain => plain[0],
        }
    }
}

/// A list of entries in few bytes. A contract sees the list, the last head, and for how many more entries there
/// is room.
#[derive(Drop)]
pub(crate) struct PackedEntries {
    heads: Vec<Head>,
    numbers: Vec<u32>,
    plain: Vec<Entry>,
    count: usize,
    room: usize,
}

impl Model for PackedEntries {
    ghost use Rattle.std.specs.Prelude.{◌≡◌, ◌+◌, ◌≤◌, ◌<◌, ◌^◌, ◌*◌, length, vec_len, vec_capacity};
    ghost use Rattle.step_machine.specs.inner.Packed.{Packing, IsBalanced, last_of, unpacked};

    ghost Value = { Packing };

    ghost view = { λ p. record { entries = unpacked p.heads.items p.numbers.items p.plain.items; last = last_of p.heads.items; room = p.room } };

    ghost invariant = { λ p. IsBalanced p.heads.items p.numbers.items p.plain.items
        × (p.count ≡ length (unpacked p.heads.items p.numbers.items p.plain.items))
        × (p.count + p.room < 2 ^ 64)
        × (vec_len p.heads + p.room ≤ vec_capacity p.heads)
        × (vec_len p.numbers + 2 * p.room ≤ vec_capacity p.numbers)
        × (vec_len p.plain + p.room ≤ vec_capacity p.plain) };
}

impl PackedEntries {
    /// No entry, and no room.
    pub fn new(alloc: Global) -> Self
        ensures entries { result.entries ≡ [] }
        ensures room { result.room ≡ 0 }
    {
        PackedEntries {
            heads: Vec::new(alloc),
            numbers: Vec::new(alloc),
            plain: Vec::new(alloc),
            count: 0,
            room: 0,
        }
    }

    /// How many entries there are, counting each of a row.
    pub fn len(&self) -> usize
        ensures { result ≡ length self.now.entries }
    {
        self.count
    }

    /// Makes room for `n` entries. Neither outcome changes the list.
    pub fn reserve(&mut self, n: usize) -> Result<(), AllocError>
        ensures entries { self.new.entries ≡ self.old.entries }
        ensures room { OnOk result (n ≤ self.new.room) }
        ensures kept { self.old.room ≤ self.new.room }
        ensures err { OnErr result (self.new ≡ self.old) }
        ensures few { IsErr result → self.old.room < n }
    {
        if self.room < n {
            if n > usize::MAX / 2 || n > usize::MAX - self.count {
                return Err(AllocError);
            }
            self.heads.reserve(n)?;
            self.numbers.reserve(2 * n)?;
            self.plain.reserve(n)?;
            self.room = n;
        }
        Ok(())
    }

    /// Adds an entry, for which there is room: to the last row where that may have it.
    #[inline(always)]
    pub fn push(&mut self, entry: Entry)
        requires { 0 < self.old.room }
        ensures entries { self.new.entries ≡ self.old.entries ++ entry ∷ [] }
        ensures longest { IfSome (longer_last self.old.last entry) (λ row. self.new.last ≡ Some row) }
        ensures room { self.new.room + 1 ≡ self.old.room }
    {
        if !self.lengthen(entry) {
            self.begin(entry);
        }
    }

    /// Adds an entry as a row of its own.
    #[inline(always)]
    fn begin(&mut self, entry: Entry)
        requires { 0 < self.old.room }
        ensures entries { self.new.entries ≡ self.old.entries ++ entry ∷ [] }
        ensures room { self.new.room + 1 ≡ self.old.room }
    {
        match entry {
            Entry::Inner { hart } if hart < 256 => {
                let head = Head::Inner {
                    hart: hart as u8,
                    further: 0,
                };
                self.add(head, &[], &[]);
            }
            Entry::Land { hart } if hart < 256 => {
                let head = Head::Land {
                    hart: hart as u8,
                    further: 0,
                };
                self.add(head, &[], &[]);
            }
            Entry::Load {
                hart,
                addr,
                width: 4,
                value,
            } if hart < 256 && addr < 65536 => {
                let head = Head::Load {
                    hart: hart as u8,
                    addr: addr as u16,
                };
                self.add(head, &[value], &[]);
            }
            Entry::Store {
                hart,
                addr,
                width: 4,
                value,
            } if hart < 256 && addr < 65536 => {
                let head = Head::Store {
                    hart: hart as u8,
                    addr: addr as u16,
                };
                self.add(head, &[value], &[]);
            }
            Entry::Amo {
                hart,
                addr,
                old,
                new,
            } if hart < 256 && addr < 65536 => {
                let head = Head::Amo {
                    hart: hart as u8,
                    addr: addr as u16,
                };
                self.add(head, &[old, new], &[]);
            }
            Entry::Fence { hart, full } if hart < 256 => {
                let head = Head::Fence {
                    hart: hart as u8,
                    full,
                };
                self.add(head, &[], &[]);
            }
            Entry::Next {
                hart,
                word: Some(word),
            } if hart < 256 => {
                self.add(Head::Next { hart: hart as u8 }, &[word], &[]);
            }
            Entry::Took { hart, sender, word } if hart < 256 && sender < 65536 => {
                let head = Head::Took {
                    hart: hart as u8,
                    sender: sender as u16,
                };
                self.add(head, &[word], &[]);
            }
            _ => self.add(Head::Plain, &[], &[entry]),
        }
    }

    /// Adds an entry to the last row, if that is a row of it and may grow.
    #[inline(always)]
    fn lengthen(&mut self, entry: Entry) -> bool
        requires { 0 < self.old.room }
        ensures value { result ≡ is_some (longer_last self.old.last entry) }
        ensures entries { self.new.entries ≡ (if result then self.old.entries ++ entry ∷ [] else self.old.entries) }
        ensures last { self.new.last ≡ (if result then longer_last self.old.last entry else self.old.last) }
        ensures room { self.old.room ≡ (if result then self.new.room + 1 else self.new.room) }
    {
        let Some(last) = self.heads.pop() else {
            return false;
        };
        match lengthened(last, entry) {
            Some(longer) => {
                self.heads.push_reserved(longer);
                self.count += 1;
                self.room -= 1;
                true
            }
            None => {
                self.heads.push_reserved(last);
                false
            }
        }
    }

    /// Adds a head of one entry, with its numbers and its plain entries.
    #[inline(always)]
    fn add(&mut self, head: Head, numbers: &[u32], plain: &[Entry])
        requires single { IsSingle head (length numbers.now) (length plain.now) }
        requires room { 0 < self.old.room }
        ensures entries { self.new.entries ≡ self.old.entries ++ entry_of head numbers.now plain.now ∷ [] }
        ensures last { self.new.last ≡ Some head }
        ensures room { self.new.room + 1 ≡ self.old.room }
    {
        self.heads.push_reserved(head);
        extend_reserved(&mut self.numbers, numbers);
        extend_reserved(&mut self.plain, plain);
        self.count += 1;
        self.room -= 1;
    }

    /// Drops the last entry; the room stays.
    fn pop(&mut self)
        requires { 0 < length self.old.entries }
        ensures entries { self.new.entries ≡ take (length self.old.entries - 1) self.old.entries }
        ensures room { self.new.room ≡ self.old.room }
    {
        let Some(last) = self.heads.pop() else {
            return;
        };
        self.count -= 1;
        if let Some(shorter) = shortened(last) {
            self.heads.push_reserved(shorter);
        } else {
            let numbers = self.numbers.len() - last.numbers();
            self.numbers.truncate(numbers);
            let plain = self.plain.len() - last.plain();
            self.plain.truncate(plain);
        }
    }

    /// Drops what comes after the first `n` entries; the room stays.
    pub fn truncate(&mut self, n: u128)
        ensures entries { self.new.entries ≡ take n self.old.entries }
        ensures room { self.new.room ≡ self.old.room }
    {
        while self.len() as u128 > n {
            self.pop();
        }
    }

    /// The entries, oldest first.
    pub fn iter(&self) -> Entries<'_>
        ensures { result ≡ self.now.entries }
    {
        Entries {
            heads: &self.heads,
            numbers: &self.numbers,
            plain: &self.plain,
            again: Entry::Inner { hart: 0 },
            further: 0,
        }
    }

    /// Leaves no entry; the room stays.
    pub fn clear(&mut self)
        ensures entries { self.new.entries ≡ [] }
        ensures room { self.new.room ≡ self.old.room }
    {
        self.heads.clear();
        self.numbers.clear();
        self.plain.clear();
        self.count = 0;
    }
}

/// Adds items for which the list has room.
#[inline(always)]
fn extend_reserved<T: Copy>(list: &mut Vec<T>, items: &[T])
    requires { vec_len list.old + length items.now ≤ vec_capacity list.old }
    ensures items { list.new.items ≡ list.old.items ++ items.now }
    ensures len { vec_len list.new ≡ vec_len list.old + length items.now }
    ensures capacity { vec_capacity list.new ≡ vec_capacity list.old }
{
    for item in items {
        list.push_reserved(*item);
    }
}

/// The head with one entry more, if the entry is that of its row and the row may grow.
#[inline(always)]
fn lengthened(head: Head, entry: Entry) -> Option<Head>
    ensures value { result ≡ longer head entry }
    ensures row { IfSome result (IsLonger head entry) }
{
    match (head, entry) {
        (Head::Inner { hart, further }, Entry::Inner { hart: number })
            if u32::from(hart) == number && further < u16::MAX => {
            Some(Head::Inner {
                hart,
                further: further + 1,
            })
        }
        (Head::Land { hart, further }, Entry::Land { hart: number })
            if u32::from(hart) == number && further < u16::MAX => {
            Some(Head::Land {
                hart,
                further: further + 1,
            })
        }
        _ => None,
    }
}

/// The head with one entry less, if its row has more than one.
fn shortened(head: Head) -> Option<Head>
    ensures { MatchOption result (further_of head ≡ 0) (λ shorter. IsLonger shorter (entry_of head [] []) head) }
{
    match head {
        Head::Inner { hart, further } if further > 0 => Some(Head::Inner {
            hart,
            further: further - 1,
        }),
        Head::Land { hart, further } if further > 0 => Some(Head::Land {
            hart,
            further: further - 1,
        }),
        _ => None,
    }
}

/// The entries of a history, oldest first. A contract sees those that are still to come.
#[derive(Drop)]
pub struct Entries<'a> {
    heads: &'a [Head],
    numbers: &'a [u32],
    plain: &'a [Entry],
    again: Entry,
    further: u16,
}

impl<'a> Model for Entries<'a> {
    ghost use Rattle.std.specs.Prelude.{List, ◌++◌, replicate};
    ghost use Rattle.step_machine.specs.declared.events.Entry.{Entry};
    ghost use Rattle.step_machine.specs.inner.Packed.{IsBalanced, unpacked};

    ghost Value = { List Entry };

    ghost view = { λ e. replicate e.further e.again ++ unpacked e.heads.now e.numbers.now e.plain.now };

    ghost invariant = { λ e. IsBalanced e.heads.now e.numbers.now e.plain.now };
}

impl<'a> Entries<'a> {
    ghost use Rattle.std.specs.Prelude.{map};
    ghost use Rattle.step_machine.specs.Runs.{event_of};

    /// The events by which the entries that are still to come came about, in a list.
    pub fn into_events(self, alloc: Global) -> Result<Vec<Event>, AllocError>
        ensures { IfOk result (λ list. list.items ≡ map event_of self.entry) }
    {
        self.map(|entry| entry.event()).collect(alloc)
    }

    /// The entries that are still to come, in a list.
    pub fn into_vec(self, alloc: Global) -> Result<Vec<Entry>, AllocError>
        ensures { IfOk result (λ list. list.items ≡ self.entry) }
    {
        self.collect(alloc)
    }
}

impl<'a> Iterator for Entries<'a> {
    ghost use Rattle.std.specs.Iterator.{YieldsFirst, item_count};

    type Item = Entry;

    ghost next_gives = { YieldsFirst (λ rest. rest) };

    ghost remaining = { item_count (λ rest. rest) };

    fn next(&mut self) -> Option<Entry> {
        if self.further > 0 {
            self.further -= 1;
            return Some(self.again);
        }
        let (head, heads) = self.heads.split_first()?;
        let entry = head.entry(self.numbers, self.plain);
        self.numbers = &self.numbers[head.numbers()..];
        self.plain = &self.plain[head.plain()..];
        self.heads = heads;
        self.again = entry;
        self.further = head.further();
        Some(entry)
    }
}
