//! What of what a certificate says of a queue doesn't hold.

ghost use Rattle.std.specs.Prelude.{◌≡◌, ◌+◌, ◌*◌, ◌-◌, ◌^◌, IfOk, [], nat_lt, nat_le, ◌&&◌, ◌==◌};
ghost use Rattle.std.specs.List.{list_all};
ghost use Rattle.slot_queue.specs.Queues.{index_word};
ghost use Rattle.store_buffers.specs.StoreBuffers.{memory_number};
ghost use Rattle.queue_certificates.specs.Certificates.{are_apart};
ghost use Rattle.queue_certificates.specs.Fields.{is_field};
ghost use Rattle.queue_checker.specs.Flaws.{place_flaw, number_flaw, index_flaw, shape_flaw, opening_flaw, field_flaw, queue_flaw};

use crate::certificate::QueueCertificate;
use crate::flaws::QueueFlaw;
use crate::opening::{index_word, number_at, start_in};
use crate::places::slot_bytes;
use known_values::fields::is_field;
use known_values::lack::{product, sum};
use known_values::queues::{fields_in, queue_in};
use known_values::{Field, Lack, Queue};
use step_machine::Opening;

/// Whether `m` bytes at one address and `n` at another have none in common.
pub(crate) fn are_apart(a: u64, m: u64, b: u64, n: u64) -> Result<bool, Lack>
    ensures { IfOk result (λ apart. apart ≡ are_apart a m b n) }
{
    let before = sum(a, m)? <= b;
    let after = sum(b, n)? <= a;
    Ok(before || after)
}

/// Whether all numbers of the index lie in its bytes, of which there are at most 4.
fn is_small(queue: Queue) -> Result<bool, Lack>
    ensures { IfOk result (λ small. small ≡ (nat_lt (queue.base + queue.scale * (queue.modulus - 1)) (256 ^ queue.index_width) && nat_le
        queue.index_width 4)) }
{
    let last = product(queue.scale, queue.modulus.saturating_sub(1))?;
    let most = sum(u64::from(queue.base), last)?;
    Ok(match queue.index_width {
        0 => most < 1,
        1 => most < 1 << 8,
        2 => most < 1 << 16,
        3 => most < 1 << 24,
        4 => most < 1 << 32,
        _ => false,
    })
}

/// What is wrong with the queue's harts, or with where its parts lie.
fn place_flaw(queue: Queue) -> Result<Option<QueueFlaw>, Lack>
    ensures { IfOk result (λ flaw. flaw ≡ place_flaw queue) }
{
    let head = u64::from(queue.head);
    let tail = u64::from(queue.tail);
    let slots = u64::from(queue.slots);
    let width = u64::from(queue.index_width);
    let count = slot_bytes(queue)?;
    let indices = are_apart(head, width, tail, width)?;
    let head_slots = are_apart(head, width, slots, count)?;
    let tail_slots = are_apart(tail, width, slots, count)?;
    if queue.sender == queue.receiver {
        return Ok(Some(QueueFlaw::OneHart));
    }
    if !indices {
        return Ok(Some(QueueFlaw::IndicesMeet));
    }
    if !(head_slots && tail_slots) {
        return Ok(Some(QueueFlaw::IndexMeetsSlots));
    }
    Ok(None)
}

/// The flaw of a queue's number of slots, or of how its indices stand for counts.
fn number_flaw(queue: Queue) -> Option<QueueFlaw>
    ensures { result ≡ number_flaw queue }
{
    if queue.size == 0 {
        return Some(QueueFlaw::NoSlot);
    }
    if queue.capacity > queue.size {
        return Some(QueueFlaw::FewSlots);
    }
    if queue.modulus == 0 || queue.scale == 0 {
        return Some(QueueFlaw::NoCounts);
    }
    None
}

/// What is wrong with the queue's indices.
fn index_flaw(queue: Queue) -> Result<Option<QueueFlaw>, Lack>
    ensures { IfOk result (λ flaw. flaw ≡ index_flaw queue) }
{
    if queue.index_width == 0 {
        return Ok(Some(QueueFlaw::NoIndex));
    }
    if !is_small(queue)? {
        return Ok(Some(QueueFlaw::WideIndex));
    }
    if u64::from(queue.capacity) >= queue.modulus {
        return Ok(Some(QueueFlaw::FewCounts));
    }
    Ok(None)
}

/// Whether the index at an address stands for the count, as the machine opens.
fn opens_at(opening: &Opening, queue: Queue, start: u64, address: u32) -> Result<bool, Lack>
    ensures { IfOk result (λ opens. opens ≡ (memory_number opening.now [] address queue.index_width == index_word queue start)) }
{
    let word = index_word(queue, start)?;
    let number = number_at(&opening.words, u64::from(address), queue.index_width)?;
    Ok(number == word)
}

/// Which index doesn't stand for the count, as the machine opens.
fn opening_flaw(opening: &Opening, queue: Queue, start: u64) -> Result<Option<QueueFlaw>, Lack>
    ensures { IfOk result (λ flaw. flaw ≡ opening_flaw opening.now queue start) }
{
    let head = queue.head;
    let tail = queue.tail;
    let head_opens = opens_at(opening, queue, start, head)?;
    let tail_opens = opens_at(opening, queue, start, tail)?;
    if !head_opens {
        return Ok(Some(QueueFlaw::Head));
    }
    if !tail_opens {
        return Ok(Some(QueueFlaw::Tail));
    }
    Ok(None)
}

/// What is wrong with a queue by itself.
fn shape_flaw(queue: Queue) -> Result<Option<QueueFlaw>, Lack>
    ensures { IfOk result (λ flaw. flaw ≡ shape_flaw queue) }
{
    if let Some(flaw) = place_flaw(queue)? {
        return Ok(Some(flaw));
    }
    if let Some(flaw) = number_flaw(queue) {
        return Ok(Some(flaw));
    }
    index_flaw(queue)
}

/// Whether each of these fields lies in a slot of the queue, and its numbers fit its bytes.
fn are_fields(queue: Queue, mut fields: &[Field]) -> Result<bool, Lack>
    ensures { IfOk result (λ fit. fit ≡ list_all (is_field queue) fields.now) }
{
    'fields: loop {
        match fields {
            [] => return Ok(true),
            [field, others @ ..] => {
                if !is_field(queue, *field)? {
                    return Ok(false);
                }
                fields = others;
            }
        }
    }
}

/// What is wrong with the fields of the queue's records.
fn field_flaw(queue: Queue, fields: &[Field]) -> Result<Option<QueueFlaw>, Lack>
    ensures { IfOk result (λ flaw. flaw ≡ field_flaw queue fields.now) }
{
    if are_fields(queue, fields)? {
        Ok(None)
    } else {
        Ok(Some(QueueFlaw::WideField))
    }
}

/// Why queue `i` is none, or opens otherwise than the certificate says.
pub(crate) fn queue_flaw(
    opening: &Opening,
    certificate: &QueueCertificate,
    i: u32,
) -> Result<Option<QueueFlaw>, Lack>
    ensures { IfOk result (λ flaw. flaw ≡ queue_flaw opening.now certificate.now i) }
{
    let queue = queue_in(&certificate.queues, i);
    if let Some(flaw) = shape_flaw(queue)? {
        return Ok(Some(flaw));
    }
    if let Some(flaw) = opening_flaw(opening, queue, start_in(&certificate.queues, i))? {
        return Ok(Some(flaw));
    }
    field_flaw(queue, fields_in(&certificate.queues, i))
}
