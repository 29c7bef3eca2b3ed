//! Where an access lies among the parts of a queue.

ghost use Rattle.std.specs.Prelude.{◌≡◌, ◌+◌, ◌*◌, ◌/◌, ◌%◌, IfOk, ◌==◌, ◌||◌, not, nat_lt};
ghost use Rattle.queue_parties.specs.Parties.{other};
ghost use Rattle.slot_queue.specs.Ownership.{party_of};
ghost use Rattle.queue_certificates.specs.Steps.{is_apart, is_off, position_at, offset_at, anywhere, is_one, is_whole, misses, back_of};

use known_values::lack::{product, remainder_by, sum};
use known_values::{Bounds, Lack, Queue};

const WORDS: u64 = 1 << 32;

/// Whether `width` bytes from somewhere among these addresses on meet none of `count` bytes at `address`.
pub(crate) fn is_apart(bounds: Bounds, width: u64, address: u64, count: u64) -> Result<bool, Lack>
    ensures { IfOk result (λ apart. apart ≡ is_apart bounds width address count) }
{
    let before = sum(bounds.high, width)? <= address;
    let after = sum(address, count)? <= bounds.low;
    Ok(before || after)
}

/// How many bytes the slots have.
pub(crate) fn slot_bytes(queue: Queue) -> Result<u64, Lack>
    ensures { IfOk result (λ count. count ≡ queue.size * queue.width) }
{
    product(u64::from(queue.size), u64::from(queue.width))
}

/// Whether `width` bytes from somewhere among these addresses on are none of the slots.
pub(crate) fn misses_slots(queue: Queue, bounds: Bounds, width: u64) -> Result<bool, Lack>
    ensures { IfOk result (λ misses. misses ≡ is_apart bounds width queue.slots (queue.size * queue.width)) }
{
    is_apart(bounds, width, u64::from(queue.slots), slot_bytes(queue)?)
}

/// Whether the bytes are none of the queue's.
pub(crate) fn is_off(queue: Queue, bounds: Bounds, width: u64) -> Result<bool, Lack>
    ensures { IfOk result (λ off. off ≡ is_off queue bounds width) }
{
    let index_width = u64::from(queue.index_width);
    let head = is_apart(bounds, width, u64::from(queue.head), index_width)?;
    let tail = is_apart(bounds, width, u64::from(queue.tail), index_width)?;
    let slots = is_apart(bounds, width, u64::from(queue.slots), slot_bytes(queue)?)?;
    Ok(head && tail && slots)
}

fn quotient_by(n: u64, divisor: u64) -> u64
    ensures { result ≡ n / divisor }
{
    if divisor == 0 { 0 } else { n / divisor }
}

/// How much further than the own count the position is in whose slot `address` lies.
pub fn position_at(queue: Queue, own: u64, address: u64) -> Result<u64, Lack>
    ensures { IfOk result (λ position. position ≡ position_at queue own address) }
{
    let size = u64::from(queue.size);
    let slot = quotient_by(
        (address % WORDS).saturating_sub(u64::from(queue.slots)),
        u64::from(queue.width),
    );
    let back = size.saturating_sub(remainder_by(own, size));
    Ok(remainder_by(sum(slot, back)?, size))
}

/// How many bytes into its slot `address` lies.
pub fn offset_at(queue: Queue, address: u64) -> u64
    ensures { result ≡ offset_at queue address }
{
    remainder_by(
        (address % WORDS).saturating_sub(u64::from(queue.slots)),
        u64::from(queue.width),
    )
}

/// The bounds, where there are any, and else all of a word's.
pub fn anywhere(bounds: Option<Bounds>) -> Bounds
    ensures { result ≡ anywhere bounds }
{
    match bounds {
        None => Bounds {
            low: 0,
            high: WORDS - 1,
        },
        Some(bounds) => bounds,
    }
}

pub(crate) fn is_one(bounds: Bounds) -> bool
    ensures { result ≡ is_one bounds }
{
    bounds.low == bounds.high
}

/// Whether it is of the hart's own index, whole.
pub(crate) fn is_own(queue: Queue, hart: u32, address: u64, width: u64) -> bool
    ensures { result ≡ is_whole queue (party_of queue hart) (λ p. p) address width }
{
    let whole = width == u64::from(queue.index_width);
    if hart == queue.sender {
        address == u64::from(queue.head) && whole
    } else if hart == queue.receiver {
        address == u64::from(queue.tail) && whole
    } else {
        false
    }
}

/// Whether it is of the other's index, whole.
pub(crate) fn is_others(queue: Queue, hart: u32, address: u64, width: u64) -> bool
    ensures { result ≡ is_whole queue (party_of queue hart) other address width }
{
    let whole = width == u64::from(queue.index_width);
    if hart == queue.sender {
        address == u64::from(queue.tail) && whole
    } else if hart == queue.receiver {
        address == u64::from(queue.head) && whole
    } else {
        false
    }
}

fn misses_index(index: u32, index_width: u32, bounds: Bounds, width: u64) -> bool
    ensures { result ≡ (nat_lt bounds.high index || nat_lt index bounds.low || not (width == index_width)) }
{
    bounds.high < u64::from(index)
        || u64::from(index) < bounds.low
        || width != u64::from(index_width)
}

/// Whether it isn't of the other's index, whole.
pub(crate) fn misses(queue: Queue, hart: u32, bounds: Bounds, width: u64) -> bool
    ensures { result ≡ misses queue (party_of queue hart) bounds width }
{
    if hart == queue.sender {
        misses_index(queue.tail, queue.index_width, bounds, width)
    } else if hart == queue.receiver {
        misses_index(queue.head, queue.index_width, bounds, width)
    } else {
        true
    }
}

/// What the word of the other's index stands for is this much more than the own count and what is owned, as a remainder.
pub(crate) fn back_of(queue: Queue, hart: u32) -> u64
    ensures { result ≡ back_of queue (party_of queue hart) }
{
    if hart == queue.sender {
        queue
            .modulus
            .saturating_sub(remainder_by(u64::from(queue.capacity), queue.modulus))
    } else {
        0
    }
}
