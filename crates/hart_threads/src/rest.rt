//! A diary as it is read.

ghost use Rattle.std.specs.Prelude.{◌≡◌, drop, slice_get};
ghost use Rattle.hart_threads.specs.inner.{counting_entries};

use std::marker::Model;
use step_machine::Entry;

/// What is left of a diary. Contracts see the entries that are left.
#[derive(Drop)]
pub(crate) struct Rest<'a> {
    pub(crate) left: &'a [Entry],
}

impl<'a> Model for Rest<'a> {
    ghost use Rattle.std.specs.Prelude.{List};
    ghost use Rattle.step_machine.specs.declared.events.Entry.{Entry};

    ghost Value = { List Entry };

    ghost view = { λ r. r.left.now };
}

impl<'a> Rest<'a> {
    /// Takes the first entry that is left.
    pub(crate) fn next(&mut self) -> Option<Entry>
        ensures value { result ≡ slice_get self.old 0 }
        ensures rest { self.new ≡ drop 1 self.old }
    {
        let (entry, left) = self.left.split_first()?;
        self.left = left;
        Some(*entry)
    }

    /// Takes what is left up to the next entry that counts, and that: for an acting seat a memory entry, for a
    /// landing seat any.
    pub(crate) fn next_counted(&mut self, acts: bool) -> Option<Entry>
        ensures value { result ≡ slice_get (counting_entries acts self.old) 0 }
        ensures rest { counting_entries acts self.new ≡ drop 1 (counting_entries acts self.old) }
    {
        while let Some(entry) = self.next() {
            if !acts || entry.is_memory() {
                return Some(entry);
            }
        }
        None
    }
}
