//! Whether the entries of a run keep a queue's protocol.

ghost use Rattle.std.specs.Prelude.{◌≡◌, ◌<◌, ◌+◌, ◌-◌, ◌^◌, ℕ, option_map, Ok, IfOk};
ghost use Rattle.ownership_runs.specs.Violations.{judged_store, judged_exchange, judged_entry, first_ownership_violation};
ghost use Rattle.ownership_runs.specs.inner.Bounds.{STEP, ROOM, AreCountsWithin};
ghost use Rattle.ownership_runs.specs.inner.Noting.{nothing_noted, noted_more, AreNotesWithin};
ghost use Rattle.queue_layouts.specs.Sides.{the_party};

use crate::counts::{Counts, RunCounts, at_start};
use crate::protocols::{after_load, after_store, is_load_alone, party_for};
use crate::stores::{is_described, keeps_store, owned_by};
use crate::violations::Violation;
use memory::writes::Write;
use queue_layouts::{AnyQueue, Party};
use step_machine::Entry;

/// The counts after a store of a hart, or that it may not make it.
fn note_store(
    queue: &AnyQueue,
    place: usize,
    hart: u32,
    party: Option<Party>,
    counts: RunCounts,
    write: Write,
) -> Result<RunCounts, Violation>
    requires { AreCountsWithin ROOM (ROOM + STEP) counts }
    ensures value { result ≡ judged_store queue.now place hart (option_map the_party party) counts write }
    ensures within { (n m : ℕ) → AreCountsWithin n m counts → IfOk result (AreCountsWithin (n + STEP) m) }
{
    if keeps_store(queue, party, counts, write) {
        Ok(after_store(queue, party, write, counts))
    } else {
        Err(Violation {
            place,
            hart,
            addr: write.addr,
            width: write.width,
            value: write.value,
            owned: owned_by(queue, party, counts),
            described: is_described(queue, party, counts, write),
        })
    }
}

/// The counts after an AMO of a hart, or that it may not make it.
fn note_exchange(
    queue: &AnyQueue,
    place: usize,
    hart: u32,
    party: Option<Party>,
    counts: RunCounts,
    old: u32,
    write: Write,
) -> Result<RunCounts, Violation>
    requires { AreCountsWithin ROOM (ROOM + STEP) counts }
    ensures value { result ≡ judged_exchange queue.now place hart (option_map the_party party) counts old write }
    ensures within { (n m : ℕ) → AreCountsWithin n m counts → IfOk result (AreCountsWithin (n + STEP) m) }
{
    if is_load_alone(queue, old, write.value) {
        Ok(after_store(queue, party, write, counts))
    } else {
        note_store(queue, place, hart, party, counts, write)
    }
}

/// The counts after the entry of a run before which `place` others come, or that it breaks the protocol.
pub(crate) fn note_entry(
    queue: &AnyQueue,
    place: usize,
    counts: RunCounts,
    entry: Entry,
) -> Result<RunCounts, Violation>
    requires { AreCountsWithin ROOM ROOM counts }
    ensures value { result ≡ judged_entry queue.now place counts entry }
    ensures within { (n : ℕ) → AreCountsWithin n n counts → IfOk result (AreCountsWithin (n + STEP) (n + STEP)) }
{
    let hart = entry.hart();
    let party = party_for(queue, hart);
    match entry {
        Entry::Load {
            addr,
            width,
            value,
            ..
        } => Ok(after_load(queue, party, addr, width, value, counts)),
        Entry::Store {
            addr,
            width,
            value,
            ..
        } => {
            let write = Write { addr, width, value };
            note_store(queue, place, hart, party, counts, write)
        }
        Entry::Amo { addr, old, new, .. } => {
            let write = Write {
                addr,
                width: 4,
                value: new,
            };
            let loaded = after_load(queue, party, addr, 4, old, counts);
            note_exchange(queue, place, hart, party, loaded, old, write)
        }
        _ => Ok(counts),
    }
}

/// What is noted of a run: its first violation, if there is one. While there is none, the counts, and how many entries there were.
#[derive(Clone, Copy)]
pub(crate) struct RunNotes {
    pub(crate) found: Option<Violation>,
    pub(crate) counts: RunCounts,
    pub(crate) place: usize,
}

/// What is noted before the first entry of a run that begins where the parties have come as far as `start`.
pub(crate) fn nothing_noted(start: Counts) -> RunNotes
    ensures value { result ≡ nothing_noted start }
    ensures within { AreNotesWithin 0 result }
{
    RunNotes {
        found: None,
        counts: at_start(start),
        place: 0,
    }
}

/// Takes in an entry.
pub(crate) fn note_more(queue: &AnyQueue, notes: RunNotes, entry: Entry) -> RunNotes
    requires counts { AreCountsWithin ROOM ROOM notes.counts }
    requires place { notes.place < 2 ^ 64 - 1 }
    ensures value { result ≡ noted_more queue.now notes entry }
    ensures within { (i : ℕ) → AreNotesWithin i notes → AreNotesWithin (i + 1) result }
{
    match notes.found {
        Some(_) => notes,
        None => match note_entry(queue, notes.place, notes.counts, entry) {
            Ok(after) => RunNotes {
                found: None,
                counts: after,
                place: notes.place + 1,
            },
            Err(violation) => RunNotes {
                found: Some(violation),
                ..notes
            },
        },
    }
}

/// The first entry of a run that breaks a queue's protocol, if there is one. The run begins where the parties have come
/// as far as `start`. Loads are free.
pub fn first_violation(queue: &AnyQueue, start: Counts, entries: &[Entry]) -> Option<Violation>
    ensures { result ≡ first_ownership_violation queue.now start entries.now }
{
    let mut notes = nothing_noted(start);
    for entry in entries {
        notes = note_more(queue, notes, *entry);
    }
    notes.found
}
