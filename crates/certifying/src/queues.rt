//! The queues of a certificate by their numbers: first those with indices, and then those with tags.

ghost use Rattle.std.specs.Prelude.{ℕ, ◌≡◌, ◌+◌, IfOk, length, get_or};
ghost use Rattle.queue_certificates.specs.Certificates.{no_queue};
ghost use Rattle.record_bytes.specs.Ranges.{range_has};
ghost use Rattle.certifying.specs.Queues.{accesses_at, any_queue, any_start, is_tag_byte, number_in, queue_count, slots_at, tag_range, tagged_number};

use known_values::queues::queue_in;
use known_values::{Lack, OpenedQueue, Queue};
use queue_checker::tagged_queues::{are_slots, bare, tagged_in, tagged_start_in};
use queue_checker::{QueueCertificate, SlotAccess, slot_accesses, tagged_accesses};
use queue_layouts::AnyQueue;
use record_bytes::ByteRange;
use records_written::QueueNumber;
use std::alloc::Global;
use step_machine::Opening;

/// A count of queues, or the place of one, where it has 32 bits.
pub fn number_of(count: usize) -> Result<u32, Lack>
    ensures { IfOk result (λ number. number ≡ count) }
{
    match u32::try_from(count) {
        Ok(number) => Ok(number),
        Err(_) => Err(Lack::TooLarge),
    }
}

/// The number of the queue at this place among those with tags.
pub fn number_of_tagged(certificate: &QueueCertificate, place: usize) -> Result<u32, Lack>
    ensures { IfOk result (λ number. number ≡ length certificate.now.queues + place) }
{
    let indexed = number_of(certificate.queues.len())?;
    let tagged = number_of(place)?;
    indexed.checked_add(tagged).ok_or(Lack::TooLarge)
}

/// How many queues there are.
pub fn queue_count(certificate: &QueueCertificate) -> Result<u32, Lack>
    ensures { IfOk result (λ count. count ≡ queue_count certificate.now) }
{
    number_of_tagged(certificate, certificate.tagged.len())
}

/// Which one it is of the queues with tags; `None` of a queue with indices.
pub fn tagged_number(certificate: &QueueCertificate, index: u32) -> Option<u32>
    ensures { result ≡ tagged_number certificate.now index }
{
    let place = index as usize;
    if place < certificate.queues.len() {
        None
    } else {
        Some((place - certificate.queues.len()) as u32)
    }
}

/// The number of a queue among those of its kind.
pub fn number_in(certificate: &QueueCertificate, index: u32) -> QueueNumber
    ensures { result ≡ number_in certificate.now index }
{
    match tagged_number(certificate, index) {
        None => QueueNumber::Indexed(index),
        Some(t) => QueueNumber::Tagged(t),
    }
}

/// The bytes of a queue's slots that are tags; a range without a byte, if its slots have none.
pub fn tag_range(certificate: &QueueCertificate, index: u32) -> ByteRange
    ensures exact { result ≡ tag_range certificate.now index }
    ensures has { (b : ℕ) → range_has result b ≡ is_tag_byte certificate.now index b }
{
    match tagged_number(certificate, index) {
        None => ByteRange { first: 1, last: 0 },
        Some(t) => {
            let queue = tagged_in(&certificate.tagged, t);
            let first = u64::from(queue.tag_offset);
            let end = first + u64::from(queue.tag_width);
            if end == 0 || !are_slots(queue) {
                return ByteRange { first: 1, last: 0 };
            }
            ByteRange {
                first,
                last: end - 1,
            }
        }
    }
}

/// The count with which queue `i` with indices opens; 0, if there are fewer.
fn start_in(queues: &[OpenedQueue], i: u32) -> u64
    ensures { result ≡ (get_or queues.now i no_queue).start }
{
    match queues.get(i as usize) {
        Some(opened) => opened.start,
        None => 0,
    }
}

/// A queue of either kind.
pub fn any_queue(certificate: &QueueCertificate, index: u32) -> AnyQueue
    ensures { result ≡ any_queue certificate.now index }
{
    match tagged_number(certificate, index) {
        None => AnyQueue::Indexed(queue_in(&certificate.queues, index)),
        Some(t) => AnyQueue::Tagged(tagged_in(&certificate.tagged, t)),
    }
}

/// The count with which a queue of either kind opens.
pub fn any_start(certificate: &QueueCertificate, index: u32) -> u64
    ensures { result ≡ any_start certificate.now index }
{
    match tagged_number(certificate, index) {
        None => start_in(&certificate.queues, index),
        Some(t) => tagged_start_in(&certificate.tagged, t),
    }
}

/// The harts and the slots of a queue, which has no indices where it has tags.
pub fn slots_at(certificate: &QueueCertificate, index: u32) -> Queue
    ensures { result ≡ slots_at certificate.now index }
{
    match tagged_number(certificate, index) {
        None => queue_in(&certificate.queues, index),
        Some(t) => bare(tagged_in(&certificate.tagged, t)),
    }
}

/// The instructions that may access a queue's slots.
pub fn accesses_at(
    alloc: Global,
    opening: &Opening,
    certificate: &QueueCertificate,
    index: u32,
) -> Result<Vec<SlotAccess>, Lack>
    ensures { IfOk result (λ accesses. accesses.items ≡ accesses_at opening.now certificate.now index) }
{
    match tagged_number(certificate, index) {
        None => slot_accesses(alloc, opening, certificate, index),
        Some(t) => tagged_accesses(alloc, opening, certificate, t),
    }
}
