//! Queues with indices: how accesses to the indices move the counts on.

ghost use Rattle.std.specs.Prelude.{◌≡◌, ◌≤◌, ◌<◌, ◌+◌, ◌/◌, ◌^◌, ◌==◌, ℕ};
ghost use Rattle.queue_parties.specs.Parties.{other};
ghost use Rattle.slot_queue.specs.Queues.{index_word, least_count};
ghost use Rattle.step_machine.specs.Access.{load, store};
ghost use Rattle.slot_queue.specs.Ownership.{index, end, after_load, after_store, is_index_store};
ghost use Rattle.ownership_runs.specs.Keeping.{moves_index};
ghost use Rattle.ownership_runs.specs.inner.Bounds.{STEP, ROOM, AreCountsWithin};
ghost use Rattle.queue_layouts.specs.Sides.{the_party};

use crate::counts::RunCounts;
use crate::numbers::{quotient, remainder};
use crate::parties::{count, known, with_count, with_known};
use memory::writes::Write;
use queue_layouts::{Party, Queue, other};

/// Where the index lies that a party stores and the other loads.
fn index(queue: &Queue, party: Party) -> u32
    ensures { result ≡ index queue.now (the_party party) }
{
    match party {
        Party::Sender => queue.head,
        Party::Receiver => queue.tail,
    }
}

/// The first position from its own count on that a party doesn't own.
pub(crate) fn end(queue: &Queue, party: Party, counts: RunCounts) -> u128
    requires { counts.known_taken + 2 ^ 32 ≤ 2 ^ 128 }
    ensures { result ≡ end queue.now (the_party party) counts }
{
    match party {
        Party::Sender => counts.known_taken + u128::from(queue.capacity),
        Party::Receiver => counts.known_published,
    }
}

/// The least count from `n` on that an index's word stands for.
fn least_count(queue: &Queue, n: u128, word: u32) -> u128
    requires { n ≤ ROOM }
    ensures value { result ≡ least_count queue.now n word }
    ensures step { result ≤ n + STEP }
{
    let modulus = u128::from(queue.modulus);
    let given = quotient(
        u128::from(word.saturating_sub(queue.base)),
        u128::from(queue.scale),
    );
    let from = remainder(n + u128::from(queue.offset), modulus);
    n + remainder(given + modulus.saturating_sub(from), modulus)
}

/// Whether a word is the one that stands for count `n`.
fn is_index_word(queue: &Queue, n: u128, word: u32) -> bool
    requires { n ≤ ROOM + STEP }
    ensures { result ≡ (word == index_word queue.now n) }
{
    let turned = remainder(n + u128::from(queue.offset), u128::from(queue.modulus));
    // `turned` is as large as a count where the modulus is 0, so that the product may be too large for any word
    let index = u128::from(queue.scale)
        .checked_mul(turned)
        .and_then(|scaled| scaled.checked_add(u128::from(queue.base)));
    index == Some(u128::from(word))
}

/// The counts after a load of a party's. One of the other's index, whole, moves on what the party knows.
pub(crate) fn after_load(
    queue: &Queue,
    party: Party,
    address: u32,
    width: u32,
    value: u32,
    counts: RunCounts,
) -> RunCounts
    requires { AreCountsWithin ROOM ROOM counts }
    ensures value { result ≡ after_load queue.now (the_party party) address width value counts }
    ensures within { (n : ℕ) → AreCountsWithin n n counts → AreCountsWithin n (n + STEP) result }
{
    if address == index(queue, other(party)) && width == queue.index_width {
        let now = least_count(queue, known(party, counts), value);
        with_known(party, now, counts)
    } else {
        counts
    }
}

/// Whether a write is to the party's own index, whole.
pub(crate) fn is_index_store(queue: &Queue, party: Party, write: Write) -> bool
    ensures { result ≡ is_index_store queue.now (the_party party) write }
{
    write.addr == index(queue, party) && write.width == queue.index_width
}

/// The counts after a store of a party's. One to its own index, whole, moves on its count.
pub(crate) fn after_store(queue: &Queue, party: Party, write: Write, counts: RunCounts) -> RunCounts
    requires { AreCountsWithin ROOM (ROOM + STEP) counts }
    ensures value { result ≡ after_store queue.now (the_party party) write counts }
    ensures within { (n m : ℕ) → AreCountsWithin n m counts → AreCountsWithin (n + STEP) m result }
{
    if is_index_store(queue, party, write) {
        let now = least_count(queue, count(party, counts), write.value);
        with_count(party, now, counts)
    } else {
        counts
    }
}

/// Whether a write moves the party's own index on by no more than it owns.
pub(crate) fn moves_index(queue: &Queue, party: Party, counts: RunCounts, write: Write) -> bool
    requires { AreCountsWithin ROOM (ROOM + STEP) counts }
    ensures { result ≡ moves_index queue.now (the_party party) counts write }
{
    if !is_index_store(queue, party, write) {
        return false;
    }
    let now = least_count(queue, count(party, counts), write.value);
    is_index_word(queue, now, write.value) && now <= end(queue, party, counts)
}
