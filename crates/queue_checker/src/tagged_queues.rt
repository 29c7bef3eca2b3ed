//! What of what a certificate says of a queue with tags doesn't hold.

ghost use Rattle.std.specs.Prelude.{◌≡◌, ◌+◌, ◌/◌, ◌%◌, ◌==◌, IfOk, [], length, get_or, option_map};
ghost use Rattle.store_buffers.specs.StoreBuffers.{memory_number};
ghost use Rattle.queue_parties.specs.Parties.{the_sender};
ghost use Rattle.slots_that_tell.specs.Slots.{tag_of};
ghost use Rattle.queue_layouts.specs.Sides.{the_party};
ghost use Rattle.queue_layouts.specs.Tagged.{slots_of, tells_by};
ghost use Rattle.queue_certificates.specs.Tags.{bare, elements, party_in, are_slots, are_apart_from_slots, are_bits_of, tells_both};
ghost use Rattle.queue_certificates.specs.Certificates.{no_tagged, opens_free};
ghost use Rattle.queue_checker.specs.Flaws.{codec_flaw, tag_flaw, tagged_flaw};

use crate::certificate::QueueCertificate;
use crate::flaws::TaggedFlaw;
use crate::opening::number_at;
use crate::places::slot_bytes;
use crate::queues::are_apart;
use crate::sites::small;
use known_values::lack::{product, remainder_by, sum};
use known_values::queues::words_of;
use known_values::{Lack, Queue};
use queue_layouts::{Codec, OpenedTagged, Party, TaggedQueue, party_among};
use step_machine::Opening;

const WORDS: u64 = 1 << 32;

/// How many queues with tags there are.
pub(crate) fn tagged_count(certificate: &QueueCertificate) -> Result<u32, Lack>
    ensures { IfOk result (λ n. n ≡ length certificate.now.tagged) }
{
    small(certificate.tagged.len())
}

/// Queue `t` with tags; one without slots, if there are fewer.
pub fn tagged_in(tagged: &[OpenedTagged], t: u32) -> TaggedQueue
    ensures { result ≡ (get_or tagged.now t no_tagged).queue }
{
    match tagged.get(t as usize) {
        Some(opened) => opened.queue,
        None => TaggedQueue {
            sender: 0,
            receiver: 0,
            slots: 0,
            size: 0,
            width: 0,
            tags: 0,
            tag_stride: 0,
            tag_offset: 0,
            tag_width: 0,
            codec: Codec::Zero,
        },
    }
}

/// Which party of a queue with tags a hart is.
pub(crate) fn party_in(queue: TaggedQueue, hart: u32) -> Option<Party>
    ensures { option_map the_party result ≡ party_in queue hart }
{
    party_among(queue.sender, queue.receiver, hart)
}

/// The position at which queue `t` with tags opens; 0, if there are fewer.
pub fn tagged_start_in(tagged: &[OpenedTagged], t: u32) -> u64
    ensures { result ≡ (get_or tagged.now t no_tagged).start }
{
    match tagged.get(t as usize) {
        Some(opened) => opened.start,
        None => 0,
    }
}

/// The same slots as those of a queue without indices.
pub fn bare(queue: TaggedQueue) -> Queue
    ensures { result ≡ bare queue }
{
    Queue {
        sender: queue.sender,
        receiver: queue.receiver,
        head: 0,
        tail: 0,
        index_width: 0,
        slots: queue.slots,
        size: queue.size,
        width: queue.width,
        capacity: queue.size,
        base: 0,
        scale: 0,
        offset: 0,
        modulus: 0,
    }
}

/// The elements with the tags, as slots of a queue without indices.
pub fn elements(queue: TaggedQueue) -> Queue
    ensures { result ≡ elements queue }
{
    Queue {
        slots: queue.tags,
        width: queue.tag_stride,
        ..bare(queue)
    }
}

/// Whether the elements with the tags are the slots.
pub fn are_slots(queue: TaggedQueue) -> bool
    ensures { result ≡ are_slots queue }
{
    queue.tags == queue.slots && queue.tag_stride == queue.width
}

/// Whether none of their bytes is a slot's.
fn are_apart_from_slots(queue: TaggedQueue) -> Result<bool, Lack>
    ensures { IfOk result (λ apart. apart ≡ are_apart_from_slots queue) }
{
    let slots = slot_bytes(bare(queue))?;
    let tags = slot_bytes(elements(queue))?;
    are_apart(u64::from(queue.slots), slots, u64::from(queue.tags), tags)
}

/// What is wrong with how the queue's tags tell.
fn codec_flaw(queue: TaggedQueue) -> Result<Option<TaggedFlaw>, Lack>
    ensures { IfOk result (λ flaw. flaw ≡ codec_flaw queue queue.codec) }
{
    match queue.codec {
        Codec::Zero => Ok(None),
        Codec::Number => {
            if queue.tag_width != 4 {
                Ok(Some(TaggedFlaw::NarrowNumber))
            } else if u64::from(queue.size) % WORDS == 1 {
                Ok(Some(TaggedFlaw::SameNumbers))
            } else {
                Ok(None)
            }
        }
        Codec::Bit { mask, free, full } => {
            if u64::from(mask) >= words_of(queue.tag_width)? {
                Ok(Some(TaggedFlaw::WideMask))
            } else if free == full {
                Ok(Some(TaggedFlaw::SameBits))
            } else {
                Ok(None)
            }
        }
        Codec::Phases {
            mask,
            free,
            full,
            odd_free,
            odd_full,
        } => {
            if u64::from(mask) >= words_of(queue.tag_width)? {
                Ok(Some(TaggedFlaw::WideMask))
            } else if free == full || full == odd_free || odd_free == odd_full || odd_full == free {
                Ok(Some(TaggedFlaw::SameBits))
            } else {
                Ok(None)
            }
        }
    }
}

/// Whether the mask has each of these bits.
fn are_bits_of(mask: u32, bits: u32) -> bool
    ensures { result ≡ are_bits_of mask bits }
{
    bits & mask == bits
}

/// Whether a slot may be free, and full.
fn tells_both(codec: Codec) -> bool
    ensures { result ≡ tells_both codec }
{
    match codec {
        Codec::Zero | Codec::Number => true,
        Codec::Bit { mask, free, full } => are_bits_of(mask, free) && are_bits_of(mask, full),
        Codec::Phases {
            mask,
            free,
            full,
            odd_free,
            odd_full,
        } => {
            are_bits_of(mask, free)
                && are_bits_of(mask, full)
                && are_bits_of(mask, odd_free)
                && are_bits_of(mask, odd_full)
        }
    }
}

/// What is wrong with a queue with tags by itself.
fn tag_flaw(queue: TaggedQueue) -> Result<Option<TaggedFlaw>, Lack>
    ensures { IfOk result (λ flaw. flaw ≡ tag_flaw queue) }
{
    if queue.sender == queue.receiver {
        return Ok(Some(TaggedFlaw::OneHart));
    }
    if queue.size == 0 {
        return Ok(Some(TaggedFlaw::NoSlot));
    }
    if queue.tag_width == 0 {
        return Ok(Some(TaggedFlaw::NoTag));
    }
    if queue.tag_width > 4 {
        return Ok(Some(TaggedFlaw::WideTag));
    }
    if u64::from(queue.tag_offset) + u64::from(queue.tag_width) > u64::from(queue.tag_stride) {
        return Ok(Some(TaggedFlaw::PastSlot));
    }
    if !are_slots(queue) && !are_apart_from_slots(queue)? {
        return Ok(Some(TaggedFlaw::Overlapping));
    }
    if let Some(flaw) = codec_flaw(queue)? {
        return Ok(Some(flaw));
    }
    if !tells_both(queue.codec) {
        return Ok(Some(TaggedFlaw::OutsideMask));
    }
    Ok(None)
}

/// Whether a position is of an even round; without slots each is.
fn is_even(size: u32, position: u64) -> bool
    ensures { result ≡ (position / size % 2 == 0) }
{
    size == 0 || position / u64::from(size) % 2 == 0
}

/// Whether a tag of this number tells the sender that its slot is free for a position.
fn tells_free(queue: TaggedQueue, position: u64, number: u64) -> bool
    ensures { result ≡ tells_by queue.size queue.codec the_sender position number }
{
    match queue.codec {
        Codec::Zero => number == 0,
        Codec::Number => number == position % WORDS,
        Codec::Bit {
            mask,
            free,
            full: _,
        } => number & u64::from(mask) == u64::from(free),
        Codec::Phases {
            mask,
            free,
            full: _,
            odd_free,
            odd_full: _,
        } => {
            let these = if is_even(queue.size, position) {
                free
            } else {
                odd_free
            };
            number & u64::from(mask) == u64::from(these)
        }
    }
}

/// Where a position's tag lies.
fn tag_of(queue: TaggedQueue, position: u64) -> Result<u64, Lack>
    ensures { IfOk result (λ address. address ≡ tag_of (slots_of queue) position) }
{
    let element = remainder_by(position, u64::from(queue.size));
    let before = product(u64::from(queue.tag_stride), element)?;
    sum(
        sum(u64::from(queue.tags), before)?,
        u64::from(queue.tag_offset),
    )
}

fn opens_free_at(opening: &Opening, queue: TaggedQueue, position: u64) -> Result<bool, Lack>
    ensures { IfOk result (λ free. free ≡ tells_by queue.size queue.codec the_sender position (memory_number opening.now [] (tag_of (slots_of queue) position)
        queue.tag_width)) }
{
    let number = number_at(&opening.words, tag_of(queue, position)?, queue.tag_width)?;
    Ok(tells_free(queue, position, number))
}

/// Whether each slot is free for its position of the round that begins at `start`, as the machine opens.
fn opens_free(opening: &Opening, queue: TaggedQueue, start: u64) -> Result<bool, Lack>
    ensures { IfOk result (λ free. free ≡ opens_free opening.now queue start) }
{
    let mut all = true;
    for d in 0..queue.size {
        let position = sum(start, u64::from(d))?;
        all = opens_free_at(opening, queue, position)? && all;
    }
    Ok(all)
}

/// Why queue `t` with tags is none, or opens otherwise than the certificate says.
pub(crate) fn tagged_flaw(
    opening: &Opening,
    certificate: &QueueCertificate,
    t: u32,
) -> Result<Option<TaggedFlaw>, Lack>
    ensures { IfOk result (λ flaw. flaw ≡ tagged_flaw opening.now certificate.now t) }
{
    let queue = tagged_in(&certificate.tagged, t);
    if let Some(flaw) = tag_flaw(queue)? {
        return Ok(Some(flaw));
    }
    if opens_free(opening, queue, tagged_start_in(&certificate.tagged, t))? {
        Ok(None)
    } else {
        Ok(Some(TaggedFlaw::NotFree))
    }
}
