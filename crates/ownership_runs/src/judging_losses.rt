//! The first loss of a run, as its entries come.

ghost use Rattle.std.specs.Prelude.{◌≡◌, ◌≤◌, ◌<◌, ◌+◌, ◌-◌, ◌*◌, ◌^◌, ◌++◌, ◌∷◌, ℕ, List, [], None, length, IfOk, OnOk};
ghost use Rattle.step_machine.specs.declared.events.Entry.{Entry};
ghost use Rattle.step_machine.specs.Access.{access_of};
ghost use Rattle.step_machine.specs.Entries.{hart_of};
ghost use Rattle.step_machine.specs.Runs.{Run};
ghost use Rattle.queue_parties.specs.Parties.{QueueCounts};
ghost use Rattle.ownership_runs.specs.Protocols.{HasSlot};
ghost use Rattle.ownership_runs.specs.Losses.{last_of_slot, position_told, byte_lost, first_byte, is_after, loss_at, loss_since, first_loss};
ghost use Rattle.ownership_runs.specs.inner.Bounds.{STEP, ROOM, AreCountsWithin};
ghost use Rattle.ownership_runs.specs.inner.Logging.{answered, IsAccessWithin};
ghost use Rattle.ownership_runs.specs.inner.LossNoting.{AreLossNotes, AreLossNotesWithin, HasHappened, IsSeenIn};

use crate::counts::{Counts, RunCounts, at_start};
use crate::losses::Loss;
use crate::numbers::{byte_at, position_from};
use crate::protocols::{after_entry, after_load, party_for};
use crate::sent::{ByteLog, landing, log_entry, logged, open_log};
use crate::stores::{is_record_byte, slot_number, slots_in};
use memory::writes::Write;
use queue_layouts::{AnyQueue, Party};
use std::alloc::AllocError;
use step_machine::{Entry, Event, Machine, Outcome};

/// The last of the positions below `known` that lie in a slot of `size`, if there is one among the last `size` of them.
fn last_of_slot(size: u32, known: u128, slot: u128) -> Option<u128>
    requires known { known ≤ ROOM + STEP }
    requires slot { slot < 2 ^ 64 }
    ensures { result ≡ last_of_slot size known slot }
{
    let position = position_from(size, known.saturating_sub(u128::from(size)), slot);
    if position < known {
        Some(position)
    } else {
        None
    }
}

/// The last position whose record has the byte at x and of which the receiver was told.
fn position_told(queue: &AnyQueue, counts: RunCounts, x: u64) -> Option<u128>
    requires { AreCountsWithin ROOM (ROOM + STEP) counts }
    ensures { result ≡ position_told queue.now counts x }
{
    if is_record_byte(queue, x) {
        last_of_slot(
            slots_in(queue),
            counts.known_published,
            slot_number(queue, x),
        )
    } else {
        None
    }
}

/// What the receiver loads: a number of `width` bytes from an address on.
#[derive(Clone, Copy)]
struct Loaded {
    addr: u32,
    width: u32,
    value: u32,
}

/// Whether a byte of a load of the receiver's isn't what was sent. A tag may be the record, of which its own load tells.
fn byte_lost(
    queue: &AnyQueue,
    place: usize,
    hart: u32,
    counts: RunCounts,
    log: &[ByteLog],
    load: Loaded,
    number: u32,
) -> Option<Loss>
    requires counts { AreCountsWithin ROOM ROOM counts }
    requires address { load.addr + number < 2 ^ 32 }
    ensures { result ≡ byte_lost queue.now place hart counts (answered queue.now counts log.now) load.addr load.width load.value number }
{
    let byte = load.addr + number;
    let receiver = Some(Party::Receiver);
    let told = after_load(queue, receiver, load.addr, load.width, load.value, counts);
    let Some(position) = position_told(queue, told, u64::from(byte)) else {
        return None
    };
    if position >= counts.published {
        return None;
    }
    let Some(sent) = logged(queue, log, position, u64::from(byte)) else {
        return None
    };
    if sent == byte_at(load.value, number) {
        return None;
    }
    Some(Loss {
        place,
        hart,
        addr: load.addr,
        width: load.width,
        value: load.value,
        position,
        byte,
        sent,
    })
}

/// The first byte of a load of the receiver's that isn't what was sent.
fn first_lost(
    queue: &AnyQueue,
    place: usize,
    hart: u32,
    counts: RunCounts,
    log: &[ByteLog],
    load: Loaded,
) -> Option<Loss>
    requires counts { AreCountsWithin ROOM ROOM counts }
    requires address { load.addr + load.width ≤ 2 ^ 32 }
    ensures { result ≡ first_byte (byte_lost queue.now place hart counts (answered queue.now counts log.now) load.addr load.width load.value) load.width }
{
    for number in 0..load.width {
        if let Some(loss) = byte_lost(queue, place, hart, counts, log, load, number) {
            return Some(loss);
        }
    }
    None
}

/// The loss that an entry is, before which `place` others come, and what they logged.
fn loss_at(
    queue: &AnyQueue,
    place: usize,
    counts: RunCounts,
    log: &[ByteLog],
    entry: Entry,
) -> Option<Loss>
    requires counts { AreCountsWithin ROOM ROOM counts }
    requires within { IsAccessWithin (2 ^ 30) (access_of entry) }
    ensures { result ≡ loss_at queue.now place counts (answered queue.now counts log.now) entry }
{
    let hart = entry.hart();
    let Some(Party::Receiver) = party_for(queue, hart) else {
        return None
    };
    let load = match entry {
        Entry::Load {
            addr,
            width,
            value,
            ..
        } => Loaded { addr, width, value },
        Entry::Amo { addr, old, .. } => Loaded {
            addr,
            width: 4,
            value: old,
        },
        _ => return None,
    };
    first_lost(queue, place, hart, counts, log, load)
}

/// Whether a place comes after the given one, if there is one.
fn is_after(since: Option<usize>, place: usize) -> bool
    ensures { result ≡ is_after since place }
{
    match since {
        None => true,
        Some(first) => first < place,
    }
}

/// The loss that an entry is, if it counts.
fn loss_since(
    since: Option<usize>,
    queue: &AnyQueue,
    place: usize,
    counts: RunCounts,
    log: &[ByteLog],
    entry: Entry,
) -> Option<Loss>
    requires counts { AreCountsWithin ROOM ROOM counts }
    requires within { IsAccessWithin (2 ^ 30) (access_of entry) }
    ensures { result ≡ loss_since since queue.now place counts (answered queue.now counts log.now) entry }
{
    if is_after(since, place) {
        loss_at(queue, place, counts, log, entry)
    } else {
        None
    }
}

/// What is noted of a run: its first loss that counts, if there is one. While there is none, the counts, and how many entries there were.
#[derive(Clone, Copy)]
pub(crate) struct LossNotes {
    pub(crate) found: Option<Loss>,
    pub(crate) counts: RunCounts,
    pub(crate) place: usize,
}

/// What is noted before the first entry of a run that begins where the parties have come as far as `start`.
fn no_loss_noted(start: Counts) -> LossNotes
    ensures found { result.found ≡ None }
    ensures counts { result.counts ≡ start }
    ensures place { result.place ≡ 0 }
    ensures within { AreLossNotesWithin 0 result }
{
    LossNotes {
        found: None,
        counts: at_start(start),
        place: 0,
    }
}

/// Takes in an entry of a run that has lost nothing before. The machine stands after it.
fn note_next<const B: usize, const M: usize>(
    since: Option<usize>,
    queue: &AnyQueue,
    machine: &Machine<B, M>,
    notes: LossNotes,
    landing: Write,
    entry: Entry,
    log: &mut Vec<ByteLog>,
) -> Result<LossNotes, AllocError>
    requires size { M ≤ 65536 }
    requires some_slot { HasSlot queue.now }
    requires hart { hart_of entry < length machine.now.history.opening.harts }
    requires within { IsAccessWithin M (access_of entry) }
    requires counts { AreCountsWithin ROOM ROOM notes.counts }
    requires place { notes.place < 2 ^ 64 - 1 }
    requires none { notes.found ≡ None }
    ensures noted { IfOk result (λ new. (start : QueueCounts) (es : List Entry) → machine.now.history.entries ≡ es ++ entry ∷ []
        → IsSeenIn queue.now machine.now.history.opening es landing entry
        → AreLossNotes since M queue.now machine.now.history.opening start es log.old.items notes
        → AreLossNotes since M queue.now machine.now.history.opening start machine.now.history.entries log.new.items new) }
    ensures within { IfOk result (λ new. (i : ℕ) → AreLossNotesWithin i notes → AreLossNotesWithin (i + 1) new) }
{
    let found = loss_since(since, queue, notes.place, notes.counts, log, entry);
    let counts = after_entry(queue, notes.counts, entry);
    log_entry(queue, machine, notes.counts, landing, entry, log)?;
    Ok(LossNotes {
        found,
        counts,
        place: notes.place + 1,
    })
}

/// Takes in an entry, after which the machine stands.
fn note_entry<const B: usize, const M: usize>(
    since: Option<usize>,
    queue: &AnyQueue,
    machine: &Machine<B, M>,
    notes: LossNotes,
    landing: Write,
    entry: Entry,
    log: &mut Vec<ByteLog>,
) -> Result<LossNotes, AllocError>
    requires size { M ≤ 65536 }
    requires some_slot { HasSlot queue.now }
    requires hart { hart_of entry < length machine.now.history.opening.harts }
    requires within { IsAccessWithin M (access_of entry) }
    requires counts { AreCountsWithin ROOM ROOM notes.counts }
    requires place { notes.place < 2 ^ 64 - 1 }
    ensures noted { IfOk result (λ new. (start : QueueCounts) (es : List Entry) → machine.now.history.entries ≡ es ++ entry ∷ []
        → IsSeenIn queue.now machine.now.history.opening es landing entry
        → AreLossNotes since M queue.now machine.now.history.opening start es log.old.items notes
        → AreLossNotes since M queue.now machine.now.history.opening start machine.now.history.entries log.new.items new) }
    ensures within { IfOk result (λ new. (i : ℕ) → AreLossNotesWithin i notes → AreLossNotesWithin (i + 1) new) }
{
    match notes.found {
        Some(_) => Ok(notes),
        None => note_next(since, queue, machine, notes, landing, entry, log),
    }
}

/// Lets an event happen, and takes in what it did.
fn note_event<const B: usize, const M: usize>(
    since: Option<usize>,
    queue: &AnyQueue,
    machine: &mut Machine<B, M>,
    notes: LossNotes,
    event: Event,
    log: &mut Vec<ByteLog>,
) -> Result<LossNotes, AllocError>
    requires size { M ≤ 65536 }
    requires some_slot { HasSlot queue.now }
    requires counts { AreCountsWithin ROOM ROOM notes.counts }
    requires place { notes.place < 2 ^ 64 - 1 }
    ensures happened { OnOk result (HasHappened B M event machine.old.history machine.new.history) }
    ensures opening { machine.new.history.opening ≡ machine.old.history.opening }
    ensures noted { IfOk result (λ new. (start : QueueCounts)
        → AreLossNotes since M queue.now machine.old.history.opening start machine.old.history.entries log.old.items notes
        → AreLossNotes since M queue.now machine.old.history.opening start machine.new.history.entries log.new.items new) }
    ensures within { IfOk result (λ new. (i : ℕ) → AreLossNotesWithin i notes → AreLossNotesWithin (i + 1) new) }
{
    let landing = landing(machine, event);
    match machine.step(event)? {
        Outcome::Did(entry) => note_entry(since, queue, machine, notes, landing, entry, log),
        Outcome::Waited => Ok(notes),
        Outcome::NothingToLand => Ok(notes),
        Outcome::Over => Ok(notes),
        Outcome::NoHart => Ok(notes),
    }
}

/// The first loss of the run of these events after the entry at a place, if that is given. The machine ends at its end, whatever it did before,
/// and the log has what was sent.
pub(crate) fn first_loss<const B: usize, const M: usize>(
    since: Option<usize>,
    queue: &AnyQueue,
    start: Counts,
    machine: &mut Machine<B, M>,
    log: &mut Vec<ByteLog>,
    events: &[Event],
) -> Result<Option<Loss>, AllocError>
    requires size { M ≤ 65536 }
    requires some_slot { HasSlot queue.now }
    ensures run { OnOk result (Run B M machine.old.history.opening events.now machine.new.history) }
    ensures found { IfOk result (λ found. found ≡ first_loss since queue.now machine.old.history.opening start machine.new.history.entries) }
    ensures opening { machine.new.history.opening ≡ machine.old.history.opening }
{
    machine.restart();
    open_log(queue, machine, u128::from(start.published), log)?;
    let mut notes = no_loss_noted(start);
    for event in events {
        notes = note_event(since, queue, machine, notes, *event, log)?;
    }
    Ok(notes.found)
}
