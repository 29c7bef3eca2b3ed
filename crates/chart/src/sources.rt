//! Writes with their rows, and which of them a byte comes from.

ghost use Rattle.std.specs.Prelude.{◌≡◌, ◌++◌, ◌∷◌, ◌≤◌, [], if◌then◌else◌, None, Some, option_to_list, IfOk, OnOk};
ghost use Rattle.std.specs.List.{slice_get};
ghost use Rattle.step_machine.specs.Entries.{own_store as stored_by_entry, lands as landings, write_of};
ghost use Rattle.memory.specs.Writes.{covers as write_covers};
ghost use Rattle.chart.specs.Sources.{at_row, stores_by_row as stores_of_rows, pending_by_row as pending_of_rows};
ghost use Rattle.chart.specs.Sources.{newest as newest_of_rows, source_named};

use memory::writes::Write;
use std::alloc::{AllocError, Global};
use step_machine::Entry;

/// A write and its row, from 0: a pending store has the row that made it, and what is in memory the row of the
/// landing or of the AMO.
#[derive(Clone, Copy, PartialEq, Eq)]
pub struct RowWrite {
    pub row: usize,
    pub write: Write,
}

/// Where a byte comes from that a hart reads. Rows are the places of a run's entries, from 0.
#[derive(Clone, Copy, PartialEq, Eq)]
pub enum Source {
    /// The hart's own pending store of this row.
    Own { row: usize },
    /// The landing or the AMO of this row.
    Memory { row: usize },
    /// The opening of the machine.
    Opening,
}

fn store_of(hart: u32, entry: Entry) -> Option<Write>
    ensures { option_to_list result ≡ stored_by_entry hart entry }
{
    match entry {
        Entry::Store {
            hart: own,
            addr,
            width,
            value,
        } => {
            if own == hart {
                Some(Write { addr, width, value })
            } else {
                None
            }
        }
        _ => None,
    }
}

/// Adds a write that this row made, if it made one.
pub(crate) fn push_write(
    writes: &mut Vec<RowWrite>,
    row: usize,
    write: Option<Write>,
) -> Result<(), AllocError>
    ensures { OnOk result (writes.new.items ≡ writes.old.items ++ at_row row (option_to_list write)) }
{
    match write {
        Some(write) => Ok(writes.push(RowWrite { row, write })?),
        None => Ok(()),
    }
}

#[tactic(auto, using(crate::proofs::ByRow::stores_next))]
fn stores_by_row(alloc: Global, entries: &[Entry], hart: u32) -> Result<Vec<RowWrite>, AllocError>
    ensures { IfOk result (λ stores. stores.items ≡ stores_of_rows hart 0 entries.now) }
{
    let mut stores = Vec::new(alloc);
    for row in 0..entries.len() {
        push_write(&mut stores, row, store_of(hart, entries[row]))?;
    }
    Ok(stores)
}

/// How many stores land by this entry: one by a landing of the hart.
fn land_of(hart: u32, entry: Entry) -> usize
    ensures value { result ≡ landings hart (entry ∷ []) }
    ensures most { result ≤ 1 }
{
    if entry.is_land() && entry.hart() == hart {
        1
    } else {
        0
    }
}

/// How many of the hart's stores landed.
#[tactic(auto, using(crate::proofs::ByRow::lands_next))]
fn lands(entries: &[Entry], hart: u32) -> usize
    ensures { result ≡ landings hart entries.now }
{
    let mut count = 0;
    for entry in entries {
        count += land_of(hart, *entry);
    }
    count
}

/// The hart's stores that have not landed, oldest first, each with its row.
pub(crate) fn pending_by_row(
    alloc: Global,
    entries: &[Entry],
    hart: u32,
) -> Result<Vec<RowWrite>, AllocError>
    ensures { IfOk result (λ pending. pending.items ≡ pending_of_rows hart entries.now) }
{
    let stores = stores_by_row(alloc, entries, hart)?;
    let landed = lands(entries, hart).min(stores.len());
    let pending = Vec::from_slice(alloc, &stores[landed..])?;
    Ok(pending)
}

pub(crate) fn oldest_pending(
    alloc: Global,
    entries: &[Entry],
    hart: u32,
) -> Result<Option<RowWrite>, AllocError>
    ensures { IfOk result (λ oldest. oldest ≡ slice_get (pending_of_rows hart entries.now) 0) }
{
    let pending = pending_by_row(alloc, entries, hart)?;
    Ok(pending.first().copied())
}

/// What an entry writes to memory after these.
#[tactic(auto, using(crate::proofs::ByRow::oldest_written))]
pub(crate) fn written_by(
    alloc: Global,
    before: &[Entry],
    entry: Entry,
) -> Result<Option<Write>, AllocError>
    ensures { IfOk result (λ write. option_to_list write ≡ write_of before.now entry) }
{
    match entry {
        Entry::Amo { addr, new, .. } => Ok(Some(Write {
            addr,
            width: 4,
            value: new,
        })),
        Entry::Land { hart } => match oldest_pending(alloc, before, hart)? {
            Some(oldest) => Ok(Some(oldest.write)),
            None => Ok(None),
        },
        _ => Ok(None),
    }
}

fn covers(write: Write, addr: u64) -> bool
    ensures { result ≡ write_covers write addr }
{
    let first = u64::from(write.addr);
    first <= addr && addr < first + u64::from(write.width)
}

/// The later one of two writes to cover an address, of which the first does if it is there.
fn newer(found: Option<RowWrite>, next: RowWrite, addr: u64) -> Option<RowWrite>
    ensures { result ≡ (if write_covers next.write addr then Some next else found) }
{
    if covers(next.write, addr) {
        Some(next)
    } else {
        found
    }
}

/// The last of these writes to cover an address.
#[tactic(auto, using(crate::proofs::ByRow::newest_next))]
fn newest(writes: &[RowWrite], addr: u64) -> Option<RowWrite>
    ensures { result ≡ newest_of_rows addr writes.now }
{
    let mut found = None;
    for write in writes {
        found = newer(found, *write, addr);
    }
    found
}

fn named(own: Option<RowWrite>, memory: Option<RowWrite>) -> Source
    ensures { result ≡ source_named own memory }
{
    match own {
        Some(own) => Source::Own { row: own.row },
        None => match memory {
            Some(memory) => Source::Memory { row: memory.row },
            None => Source::Opening,
        },
    }
}

/// Where a byte comes from, of these pending stores and of what was written to memory.
pub(crate) fn source_of_byte(pending: &[RowWrite], landed: &[RowWrite], addr: u64) -> Source
    ensures { result ≡ source_named (newest_of_rows addr pending.now) (newest_of_rows addr landed.now) }
{
    named(newest(pending, addr), newest(landed, addr))
}
