//! Queues with tags: how accesses to the tags move the counts on.

ghost use Rattle.std.specs.Prelude.{◌≡◌, ◌≤◌, ◌<◌, ◌+◌, ◌-◌, ◌%◌, ◌^◌, ◌==◌, ℕ, bit_and};
ghost use Rattle.queue_parties.specs.Parties.{other};
ghost use Rattle.slots_that_tell.specs.Slots.{gap, tag_of, element_at, is_tag};
ghost use Rattle.slots_that_tell.specs.Telling.{owned_end, told, after_load, after_store};
ghost use Rattle.slots_that_tell.specs.Codecs.{bits_under};
ghost use Rattle.queue_layouts.specs.Tagged.{tells_by, slots_of};
ghost use Rattle.ownership_runs.specs.Keeping.{is_tag_byte, is_tag_store, hands_on};
ghost use Rattle.ownership_runs.specs.inner.Bounds.{STEP, ROOM, AreCountsWithin};
ghost use Rattle.queue_layouts.specs.Sides.{the_party};

use crate::counts::RunCounts;
use crate::numbers::{is_in_bytes, position_from, quotient, remainder};
use crate::parties::{count, known, with_count, with_known};
use memory::writes::Write;
use queue_layouts::{Codec, Party, TaggedQueue, other};

/// How far after its own position the one is that a party's tag hands to the other: the sender hands over the position itself, the
/// receiver the slot's next one.
fn gap(queue: &TaggedQueue, party: Party) -> u128
    ensures value { result ≡ gap (slots_of queue.now) (the_party party) }
    ensures small { result < 2 ^ 32 }
{
    match party {
        Party::Sender => 0,
        Party::Receiver => u128::from(queue.size),
    }
}

/// The first position from its own count on that a party doesn't own.
pub(crate) fn owned_end(queue: &TaggedQueue, party: Party, counts: RunCounts) -> u128
    requires { AreCountsWithin ROOM (ROOM + STEP) counts }
    ensures { result ≡ owned_end (slots_of queue.now) (the_party party) counts }
{
    known(party, counts) + gap(queue, other(party))
}

/// Whether these bits are the ones that tell a party: `free` the sender, `full` the receiver.
fn are_bits(party: Party, bits: u32, free: u32, full: u32) -> bool
    ensures { (mask position value : ℕ) → bit_and value mask ≡ bits → result ≡ bits_under mask free full (the_party party) position value }
{
    match party {
        Party::Sender => bits == free,
        Party::Receiver => bits == full,
    }
}

/// Whether a tag of this value tells a party that it has a position.
fn tells(queue: &TaggedQueue, party: Party, position: u128, value: u32) -> bool
    requires { position < 2 ^ 128 - 1 }
    ensures { result ≡ tells_by queue.now.size queue.now.codec (the_party party) position value }
{
    match queue.codec {
        Codec::Zero => match party {
            Party::Sender => value == 0,
            Party::Receiver => value != 0,
        },
        Codec::Number => {
            let number = match party {
                Party::Sender => position,
                Party::Receiver => position + 1,
            };
            u128::from(value) == number % 4_294_967_296
        }
        Codec::Bit { mask, free, full } => are_bits(party, value & mask, free, full),
        Codec::Phases {
            mask,
            free,
            full,
            odd_free,
            odd_full,
        } => {
            if quotient(position, u128::from(queue.size)) % 2 == 0 {
                are_bits(party, value & mask, free, full)
            } else {
                are_bits(party, value & mask, odd_free, odd_full)
            }
        }
    }
}

/// Whether the tag of position `n` begins at an address.
pub(crate) fn is_tag_of(queue: &TaggedQueue, n: u128, address: u32) -> bool
    ensures { result ≡ (address == tag_of (slots_of queue.now) n) }
{
    let first = u128::from(queue.tags) + u128::from(queue.tag_offset);
    // a remainder is as large as a position where the queue has no slot, so that the product may be too large for any address
    let tag = u128::from(queue.tag_stride)
        .checked_mul(remainder(n, u128::from(queue.size)))
        .and_then(|far| far.checked_add(first));
    tag == Some(u128::from(address))
}

/// The number of the element in which an address lies.
fn element_at(queue: &TaggedQueue, x: u64) -> u128
    ensures value { result ≡ element_at (slots_of queue.now) x }
    ensures small { result ≤ x }
{
    let place = x.saturating_sub(u64::from(queue.tags));
    quotient(u128::from(place), u128::from(queue.tag_stride))
}

/// Whether a whole tag lies at an address.
pub(crate) fn is_tag(queue: &TaggedQueue, address: u32, width: u32) -> bool
    ensures { result ≡ is_tag (slots_of queue.now) address width }
{
    is_tag_of(queue, element_at(queue, u64::from(address)), address) && width == queue.tag_width
}

/// Whether x is a byte of the tag of its slot.
pub(crate) fn is_tag_byte(queue: &TaggedQueue, x: u64) -> bool
    ensures { result ≡ is_tag_byte (slots_of queue.now) x }
{
    let place = x.saturating_sub(u64::from(queue.slots));
    let number = quotient(u128::from(place), u128::from(queue.width));
    let slot = remainder(number, u128::from(queue.size));
    let first = u128::from(queue.tags) + u128::from(queue.tag_stride) * slot;
    is_in_bytes(
        first + u128::from(queue.tag_offset),
        u64::from(queue.tag_width),
        x,
    )
}

/// What a party knows of the other's count once a tag has handed it a position.
fn told(queue: &TaggedQueue, party: Party, position: u128) -> u128
    requires { position < 2 ^ 128 - 1 }
    ensures { result ≡ told (slots_of queue.now) (the_party party) position }
{
    (position + 1).saturating_sub(gap(queue, other(party)))
}

/// The counts after a load of a party's. One of a whole tag that tells it of a position moves on what the party knows.
pub(crate) fn after_load(
    queue: &TaggedQueue,
    party: Party,
    address: u32,
    width: u32,
    value: u32,
    counts: RunCounts,
) -> RunCounts
    requires { AreCountsWithin ROOM ROOM counts }
    ensures value { result ≡ after_load (slots_of queue.now) (the_party party) address width value counts }
    ensures within { (n : ℕ) → AreCountsWithin n n counts → AreCountsWithin n (n + STEP) result }
{
    if !is_tag(queue, address, width) {
        return counts;
    }
    let element = element_at(queue, u64::from(address));
    let position = position_from(queue.size, count(party, counts), element);
    if tells(queue, party, position, value) {
        let knows = known(party, counts);
        let more = told(queue, party, position).saturating_sub(knows);
        with_known(party, knows + more, counts)
    } else {
        counts
    }
}

/// The counts after a store of a party's. One to a whole tag is one more of its own.
pub(crate) fn after_store(
    queue: &TaggedQueue,
    party: Party,
    write: Write,
    counts: RunCounts,
) -> RunCounts
    requires { AreCountsWithin ROOM (ROOM + STEP) counts }
    ensures value { result ≡ after_store (slots_of queue.now) (the_party party) write counts }
    ensures within { (n m : ℕ) → AreCountsWithin n m counts → AreCountsWithin (n + STEP) m result }
{
    if is_tag(queue, write.addr, write.width) {
        with_count(party, count(party, counts) + 1, counts)
    } else {
        counts
    }
}

/// The number in the lowest `count` bytes of a value.
fn low_bytes(value: u32, count: u32) -> u32
    ensures { result ≡ value % 256 ^ count }
{
    match count {
        0 => 0,
        1 => value % 256,
        2 => value % 65_536,
        3 => value % 16_777_216,
        _ => value,
    }
}

/// Whether a write is one to the tag of position `n`, whole, that hands it over.
fn is_tag_store(queue: &TaggedQueue, party: Party, n: u128, write: Write) -> bool
    requires { n ≤ ROOM }
    ensures { result ≡ is_tag_store (slots_of queue.now) (the_party party) n write }
{
    let value = low_bytes(write.value, queue.tag_width);
    is_tag_of(queue, n, write.addr)
        && write.width == queue.tag_width
        && tells(queue, other(party), n + gap(queue, party), value)
}

/// Whether a write hands the party's own position over, which it owns.
pub(crate) fn hands_on(queue: &TaggedQueue, party: Party, counts: RunCounts, write: Write) -> bool
    requires { AreCountsWithin ROOM (ROOM + STEP) counts }
    ensures { result ≡ hands_on (slots_of queue.now) (the_party party) counts write }
{
    let own = count(party, counts);
    is_tag_store(queue, party, own, write) && own < owned_end(queue, party, counts)
}
