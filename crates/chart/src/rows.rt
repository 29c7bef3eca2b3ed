//! The rows of a run.

ghost use Rattle.std.specs.Prelude.{◌≡◌, IfOk};
ghost use Rattle.step_machine.specs.Access.{access_of};
ghost use Rattle.step_machine.specs.Entries.{hart_of};
ghost use Rattle.chart.specs.Sources.{landed_by_row, landed_store as store_landed};
ghost use Rattle.chart.specs.Rows.{sources_at as sources_from, sources_of as sources_by, row_after as row_of_entry, rows_of as rows_of_entries};

use crate::sources::{
    RowWrite, Source, oldest_pending, pending_by_row, push_write, source_of_byte, written_by,
};
use std::alloc::{AllocError, Global};
use std::marker::Model;
use step_machine::Entry;

/// What a row of the picture says: its entry, where each byte that it read came from (the lowest first),
/// and for a landing the row of the store that landed.
#[derive(Drop)]
pub struct Row {
    pub entry: Entry,
    pub sources: Vec<Source>,
    pub landed: Option<usize>,
}

impl Model for Row {
    ghost use Rattle.chart.specs.Rows.{RowOf};

    ghost Value = { RowOf };

    ghost view = { λ r. record { entry = r.entry; sources = r.sources.items; landed = r.landed } };
}

/// The sources of `count` bytes that a hart reads from an address on, lowest first.
fn sources_at(
    alloc: Global,
    before: &[Entry],
    landed: &[RowWrite],
    hart: u32,
    addr: u32,
    count: u32,
) -> Result<Vec<Source>, AllocError>
    requires { landed.now ≡ landed_by_row before.now }
    ensures { IfOk result (λ sources. sources.items ≡ sources_from before.now hart addr count) }
{
    let pending = pending_by_row(alloc, before, hart)?;
    let mut sources = Vec::new(alloc);
    for i in 0..count {
        sources.push(source_of_byte(&pending, landed, u64::from(addr) + u64::from(i)))?;
    }
    Ok(sources)
}

/// The sources of the bytes that an entry reads after these.
fn sources_of(
    alloc: Global,
    before: &[Entry],
    landed: &[RowWrite],
    entry: Entry,
) -> Result<Vec<Source>, AllocError>
    requires { landed.now ≡ landed_by_row before.now }
    ensures { IfOk result (λ sources. sources.items ≡ sources_by before.now (hart_of entry) (access_of entry)) }
{
    match entry {
        Entry::Load {
            hart,
            addr,
            width,
            ..
        } => sources_at(alloc, before, landed, hart, addr, width),
        Entry::Amo { hart, addr, .. } => sources_at(alloc, before, landed, hart, addr, 4),
        _ => Ok(Vec::new(alloc)),
    }
}

/// For a landing, the row of the store that lands.
fn landed_store(alloc: Global, before: &[Entry], entry: Entry) -> Result<Option<usize>, AllocError>
    ensures { IfOk result (λ row. row ≡ store_landed before.now entry) }
{
    if !entry.is_land() {
        return Ok(None);
    }
    match oldest_pending(alloc, before, entry.hart())? {
        Some(oldest) => Ok(Some(oldest.row)),
        None => Ok(None),
    }
}

fn row_after(
    alloc: Global,
    before: &[Entry],
    landed: &[RowWrite],
    entry: Entry,
) -> Result<Row, AllocError>
    requires { landed.now ≡ landed_by_row before.now }
    ensures { IfOk result (λ row. row ≡ row_of_entry before.now entry) }
{
    let sources = sources_of(alloc, before, landed, entry)?;
    let landed = landed_store(alloc, before, entry)?;
    Ok(Row {
        entry,
        sources,
        landed,
    })
}

/// The rows of a run: one for each of its entries, in their order.
#[tactic(auto, using(crate::proofs::StepLaws::rows_next, crate::proofs::ByRow::landed_next))]
pub fn rows_of(alloc: Global, entries: &[Entry]) -> Result<Vec<Row>, AllocError>
    ensures { IfOk result (λ rows. rows.items ≡ rows_of_entries entries.now) }
{
    let mut rows = Vec::new(alloc);
    let mut landed = Vec::new(alloc);
    for i in 0..entries.len() {
        let before = &entries[..i];
        rows.push(row_after(alloc, before, &landed, entries[i])?)?;
        push_write(&mut landed, i, written_by(alloc, before, entries[i])?)?;
    }
    Ok(rows)
}
