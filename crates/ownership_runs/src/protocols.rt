//! What differs between the kinds of queues, decided for a queue of either: each function hands on to that of the queue's kind.

ghost use Rattle.std.specs.Prelude.{◌≡◌, ◌+◌, ℕ, option_map};
ghost use Rattle.step_machine.specs.Access.{load, store};
ghost use Rattle.ownership_runs.specs.Protocols.{party_for, end_in, access_counts, entry_counts};
ghost use Rattle.ownership_runs.specs.Keeping.{is_load_alone, moves_on};
ghost use Rattle.ownership_runs.specs.inner.Bounds.{STEP, ROOM, AreCountsWithin};
ghost use Rattle.queue_layouts.specs.Sides.{the_party};

use crate::counts::RunCounts;
use crate::{indexed_moves, tagged_moves};
use memory::writes::Write;
use queue_layouts::{AnyQueue, Party, party_among};
use step_machine::Entry;

/// Which party a hart is.
pub fn party_for(queue: &AnyQueue, hart: u32) -> Option<Party>
    ensures { option_map the_party result ≡ party_for queue.now hart }
{
    match queue {
        AnyQueue::Indexed(queue) => party_among(queue.sender, queue.receiver, hart),
        AnyQueue::Tagged(queue) => party_among(queue.sender, queue.receiver, hart),
    }
}

/// The first position from its own count on that a party doesn't own.
pub(crate) fn end_in(queue: &AnyQueue, party: Party, counts: RunCounts) -> u128
    requires { AreCountsWithin ROOM (ROOM + STEP) counts }
    ensures { result ≡ end_in queue.now (the_party party) counts }
{
    match queue {
        AnyQueue::Indexed(queue) => indexed_moves::end(queue, party, counts),
        AnyQueue::Tagged(queue) => tagged_moves::owned_end(queue, party, counts),
    }
}

/// The counts after a load of a hart.
pub(crate) fn after_load(
    queue: &AnyQueue,
    party: Option<Party>,
    address: u32,
    width: u32,
    value: u32,
    counts: RunCounts,
) -> RunCounts
    requires { AreCountsWithin ROOM ROOM counts }
    ensures value { result ≡ access_counts queue.now (option_map the_party party) (load address width value) counts }
    ensures within { (n : ℕ) → AreCountsWithin n n counts → AreCountsWithin n (n + STEP) result }
{
    let Some(party) = party else { return counts };
    match queue {
        AnyQueue::Indexed(queue) => {
            indexed_moves::after_load(queue, party, address, width, value, counts)
        }
        AnyQueue::Tagged(queue) => {
            tagged_moves::after_load(queue, party, address, width, value, counts)
        }
    }
}

/// The counts after a store of a hart.
pub(crate) fn after_store(
    queue: &AnyQueue,
    party: Option<Party>,
    write: Write,
    counts: RunCounts,
) -> RunCounts
    requires { AreCountsWithin ROOM (ROOM + STEP) counts }
    ensures value { result ≡ access_counts queue.now (option_map the_party party) (store write) counts }
    ensures within { (n m : ℕ) → AreCountsWithin n m counts → AreCountsWithin (n + STEP) m result }
{
    let Some(party) = party else { return counts };
    match queue {
        AnyQueue::Indexed(queue) => indexed_moves::after_store(queue, party, write, counts),
        AnyQueue::Tagged(queue) => tagged_moves::after_store(queue, party, write, counts),
    }
}

/// Whether a write moves a party's own count on, by no more than it owns.
pub(crate) fn moves_on(
    queue: &AnyQueue,
    party: Option<Party>,
    counts: RunCounts,
    write: Write,
) -> bool
    requires { AreCountsWithin ROOM (ROOM + STEP) counts }
    ensures { result ≡ moves_on queue.now (option_map the_party party) counts write }
{
    let Some(party) = party else { return false };
    match queue {
        AnyQueue::Indexed(queue) => indexed_moves::moves_index(queue, party, counts, write),
        AnyQueue::Tagged(queue) => tagged_moves::hands_on(queue, party, counts, write),
    }
}

/// Whether an AMO stores nothing: to a queue with indices, where it writes the word that it read.
pub(crate) fn is_load_alone(queue: &AnyQueue, old: u32, new: u32) -> bool
    ensures { result ≡ is_load_alone queue.now old new }
{
    match queue {
        AnyQueue::Indexed(_) => new == old,
        AnyQueue::Tagged(_) => false,
    }
}

/// The counts after an entry.
pub(crate) fn after_entry(queue: &AnyQueue, counts: RunCounts, entry: Entry) -> RunCounts
    requires { AreCountsWithin ROOM ROOM counts }
    ensures value { result ≡ entry_counts queue.now counts entry }
    ensures within { (n : ℕ) → AreCountsWithin n n counts → AreCountsWithin (n + STEP) (n + STEP) result }
{
    let party = party_for(queue, entry.hart());
    match entry {
        Entry::Load {
            addr,
            width,
            value,
            ..
        } => after_load(queue, party, addr, width, value, counts),
        Entry::Store {
            addr,
            width,
            value,
            ..
        } => after_store(queue, party, Write { addr, width, value }, counts),
        Entry::Amo { addr, old, new, .. } => {
            let write = Write {
                addr,
                width: 4,
                value: new,
            };
            let loaded = after_load(queue, party, addr, 4, old, counts);
            after_store(queue, party, write, loaded)
        }
        _ => counts,
    }
}
