//! Which stores a hart may make.

ghost use Rattle.std.specs.Prelude.{◌≡◌, ◌≤◌, ◌+◌, ◌*◌, option_map, Some};
ghost use Rattle.ownership_runs.specs.Keeping.{is_in_bytes, is_outside, is_of_owned, is_to_fill, may_fill, fills, owned_by, keeps_store};
ghost use Rattle.ownership_runs.specs.Keeping.{slots_in, owning_all, is_described};
ghost use Rattle.ownership_runs.specs.Losses.{slots_from, slot_width, slot_number, is_record_byte};
ghost use Rattle.ownership_runs.specs.inner.Bounds.{STEP, ROOM, AreCountsWithin};
ghost use Rattle.queue_layouts.specs.Sides.{the_party};

use crate::counts::RunCounts;
use crate::numbers::{is_in_bytes, position_from, quotient};
use crate::parties::{count, with_known};
use crate::protocols::{end_in, moves_on};
use crate::tagged_moves::is_tag_byte;
use crate::violations::Owned;
use memory::writes::Write;
use queue_layouts::{AnyQueue, Party};

/// Whether x is a byte of `size` slots, or other elements, of `width` bytes from an address on.
fn is_in_slots(slots: u32, size: u32, width: u32, x: u64) -> bool
    ensures { result ≡ is_in_bytes slots (size * width) x }
{
    let bytes = u64::from(size) * u64::from(width);
    is_in_bytes(u128::from(slots), bytes, x)
}

/// Where the slots begin.
pub(crate) fn slots_from(queue: &AnyQueue) -> u32
    ensures { result ≡ slots_from queue.now }
{
    match queue {
        AnyQueue::Indexed(queue) => queue.slots,
        AnyQueue::Tagged(queue) => queue.slots,
    }
}

/// How many bytes a slot has.
pub(crate) fn slot_width(queue: &AnyQueue) -> u32
    ensures { result ≡ slot_width queue.now }
{
    match queue {
        AnyQueue::Indexed(queue) => queue.width,
        AnyQueue::Tagged(queue) => queue.width,
    }
}

/// In which slot x lies.
pub(crate) fn slot_number(queue: &AnyQueue, x: u64) -> u128
    ensures value { result ≡ slot_number queue.now x }
    ensures small { result ≤ x }
{
    let place = x.saturating_sub(u64::from(slots_from(queue)));
    quotient(u128::from(place), u128::from(slot_width(queue)))
}

/// Whether x is a byte of a slot.
pub(crate) fn is_record_byte(queue: &AnyQueue, x: u64) -> bool
    ensures { result ≡ is_record_byte queue.now x }
{
    is_in_slots(slots_from(queue), slots_in(queue), slot_width(queue), x)
}

/// Whether x is no byte of the queue.
fn is_outside(queue: &AnyQueue, x: u64) -> bool
    ensures { result ≡ is_outside queue.now x }
{
    match queue {
        AnyQueue::Indexed(queue) => {
            let index_width = u64::from(queue.index_width);
            !is_in_bytes(u128::from(queue.head), index_width, x)
                && !is_in_bytes(u128::from(queue.tail), index_width, x)
                && !is_in_slots(queue.slots, queue.size, queue.width, x)
        }
        AnyQueue::Tagged(queue) => {
            !is_in_slots(queue.slots, queue.size, queue.width, x)
                && !is_in_slots(queue.tags, queue.size, queue.tag_stride, x)
        }
    }
}

/// Whether x is a byte of the slot of an owned position.
fn is_of_owned(slots: u32, size: u32, width: u32, owned: Owned, x: u64) -> bool
    requires { owned.from ≤ ROOM }
    ensures { result ≡ is_of_owned slots size width owned x }
{
    if !is_in_slots(slots, size, width, x) {
        return false;
    }
    let place = x - u64::from(slots);
    let slot = quotient(u128::from(place), u128::from(width));
    position_from(size, owned.from, slot) < owned.end
}

/// Whether x is a byte that a party may fill that owns this.
fn is_to_fill(queue: &AnyQueue, owned: Option<Owned>, x: u64) -> bool
    requires { (o : _) → owned ≡ Some o → o.from ≤ ROOM }
    ensures { result ≡ is_to_fill queue.now owned x }
{
    let Some(owned) = owned else { return false };
    match queue {
        AnyQueue::Indexed(queue) => is_of_owned(queue.slots, queue.size, queue.width, owned, x),
        AnyQueue::Tagged(queue) => {
            is_of_owned(queue.slots, queue.size, queue.width, owned, x) && !is_tag_byte(queue, x)
        }
    }
}

/// Whether the byte at x may be stored to.
fn may_fill(queue: &AnyQueue, owned: Option<Owned>, x: u64) -> bool
    requires { (o : _) → owned ≡ Some o → o.from ≤ ROOM }
    ensures { result ≡ may_fill queue.now owned x }
{
    is_outside(queue, x) || is_to_fill(queue, owned, x)
}

/// Whether each byte of a write may be stored to.
fn fills(queue: &AnyQueue, owned: Option<Owned>, address: u32, width: u32) -> bool
    requires { (o : _) → owned ≡ Some o → o.from ≤ ROOM }
    ensures { result ≡ fills queue.now owned address width }
{
    for place in 0..width {
        if !may_fill(queue, owned, u64::from(address) + u64::from(place)) {
            return false;
        }
    }
    true
}

/// What a hart owns.
pub(crate) fn owned_by(queue: &AnyQueue, party: Option<Party>, counts: RunCounts) -> Option<Owned>
    requires { AreCountsWithin ROOM (ROOM + STEP) counts }
    ensures value { result ≡ owned_by queue.now (option_map the_party party) counts }
    ensures within { (o : _) → result ≡ Some o → o.from ≤ ROOM }
{
    match party {
        None => None,
        Some(party) => Some(Owned {
            from: count(party, counts),
            end: end_in(queue, party, counts),
        }),
    }
}

/// Whether a hart may make a store.
pub(crate) fn keeps_store(
    queue: &AnyQueue,
    party: Option<Party>,
    counts: RunCounts,
    write: Write,
) -> bool
    requires { AreCountsWithin ROOM (ROOM + STEP) counts }
    ensures { result ≡ keeps_store queue.now (option_map the_party party) counts write }
{
    moves_on(queue, party, counts, write)
        || fills(
            queue,
            owned_by(queue, party, counts),
            write.addr,
            write.width,
        )
}

/// How many slots there are.
pub fn slots_in(queue: &AnyQueue) -> u32
    ensures { result ≡ slots_in queue.now }
{
    match queue {
        AnyQueue::Indexed(queue) => queue.size,
        AnyQueue::Tagged(queue) => queue.size,
    }
}

/// The counts of a party that knows of as many more of the other's positions as there are slots.
fn owning_all(queue: &AnyQueue, party: Option<Party>, counts: RunCounts) -> RunCounts
    requires { AreCountsWithin ROOM (ROOM + STEP) counts }
    ensures value { result ≡ owning_all queue.now (option_map the_party party) counts }
    ensures within { AreCountsWithin ROOM (ROOM + STEP) result }
{
    let Some(party) = party else { return counts };
    let end = count(party, counts) + u128::from(slots_in(queue));
    with_known(party, end, counts)
}

/// Whether a hart might make a store if it knew of all that `owning_all` lets a party know of.
pub(crate) fn is_described(
    queue: &AnyQueue,
    party: Option<Party>,
    counts: RunCounts,
    write: Write,
) -> bool
    requires { AreCountsWithin ROOM (ROOM + STEP) counts }
    ensures { result ≡ is_described queue.now (option_map the_party party) counts write }
{
    keeps_store(queue, party, owning_all(queue, party, counts), write)
}
