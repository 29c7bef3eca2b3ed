//! Operations of a trace, and what an entry is to the memory model.

ghost use Rattle.std.specs.Prelude.{◌≡◌, ℕ, slice_get};
ghost use Rattle.std.specs.Int.{byte_at};
ghost use Rattle.ztso_axioms.specs.Operations.{is_load, is_store, is_operation, is_at, read_of, byte_in, written_to, hart_at, written_at};
ghost use Rattle.ztso_axioms.specs.Axioms.{is_barrier};

use memory::writes::Write;
use std::marker::Model;
use step_machine::Entry;

/// A memory operation of a trace: the place of a load, a store or an AMO among the entries, from 0.
#[derive(Clone, Copy, Debug, PartialEq, Eq)]
pub struct Op {
    pub place: usize,
}

impl Model for Op {
    ghost Value = { ℕ };

    ghost view = { λ op. op.place };

    ghost inverse = { λ p. record { place = p } };
}

/// The entry that an operation names, if there is one.
pub(crate) fn entry_at(entries: &[Entry], op: Op) -> Option<Entry>
    ensures { result ≡ slice_get entries.now op }
{
    entries.get(op.place).copied()
}

/// The hart of the entry that an operation names.
pub(crate) fn hart_named(entries: &[Entry], op: Op) -> u32
    ensures { result ≡ hart_at entries.now op }
{
    match entry_at(entries, op) {
        Some(entry) => entry.hart(),
        None => 0,
    }
}

pub(crate) fn is_plain_load(entry: Entry) -> bool
    ensures { result ≡ is_load entry }
{
    matches!(entry, Entry::Load { .. })
}

pub(crate) fn is_plain_store(entry: Entry) -> bool
    ensures { result ≡ is_store entry }
{
    matches!(entry, Entry::Store { .. })
}

pub(crate) fn is_memory_operation(entry: Entry) -> bool
    ensures { result ≡ is_operation entry }
{
    matches!(
        entry,
        Entry::Load { .. } | Entry::Store { .. } | Entry::Amo { .. }
    )
}

/// Whether the entry is an AMO or a full fence of this hart.
pub(crate) fn orders(entry: Entry, by: u32) -> bool
    ensures { result ≡ is_barrier by entry }
{
    match entry {
        Entry::Amo { hart, .. } => hart == by,
        Entry::Fence { hart, full } => full && hart == by,
        _ => false,
    }
}

/// The address, the width and the value that a load reads, or an AMO for its old word.
pub(crate) fn value_read(entry: Entry) -> Option<(u32, u32, u32)>
    ensures { result ≡ read_of entry }
{
    match entry {
        Entry::Load {
            addr,
            width,
            value,
            ..
        } => Some((addr, width, value)),
        Entry::Amo { addr, old, .. } => Some((addr, 4, old)),
        _ => None,
    }
}

/// The byte that a store, or an AMO by its new word, writes to this address.
fn byte_written(entry: Entry, to: usize) -> Option<u8>
    ensures { result ≡ written_to to entry }
{
    match entry {
        Entry::Store {
            addr,
            width,
            value,
            ..
        } => byte_of_write(Write { addr, width, value }, to),
        Entry::Amo { addr, new, .. } => {
            let width = 4;
            let value = new;
            byte_of_write(Write { addr, width, value }, to)
        }
        _ => None,
    }
}

/// The byte that a write puts at this address, where it covers it.
fn byte_of_write(write: Write, to: usize) -> Option<u8>
    ensures { result ≡ byte_in write to }
{
    let start = write.addr as usize;
    if start <= to && to - start < write.width as usize {
        Some(byte_at(write.value, to - start))
    } else {
        None
    }
}

/// A byte of a number, the lowest first; past its four they are 0.
#[tactic(auto, using(memory::proofs::Joined::byte_past))]
pub(crate) fn byte_at(number: u32, place: usize) -> u8
    ensures { result ≡ byte_at place number }
{
    if place < 4 {
        number.to_le_bytes()[place]
    } else {
        0
    }
}

/// Whether the list's entry is a load, a store or an AMO.
pub(crate) fn is_operation_named(entries: &[Entry], op: Op) -> bool
    ensures { result ≡ is_at is_operation entries.now op }
{
    match entry_at(entries, op) {
        Some(entry) => is_memory_operation(entry),
        None => false,
    }
}

/// The byte that the entry that an operation names writes to this address.
pub(crate) fn byte_named(entries: &[Entry], op: Op, to: usize) -> Option<u8>
    ensures { result ≡ written_at entries.now to op }
{
    match entry_at(entries, op) {
        Some(entry) => byte_written(entry, to),
        None => None,
    }
}
