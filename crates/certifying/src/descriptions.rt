//! What a certificate says of a queue, in lines, and which instructions use it.

ghost use Rattle.std.specs.Prelude.{◌≡◌, ◌<◌, ◌++◌, IfOk, OnOk, length};
ghost use Rattle.std.specs.List.{flat_map};
ghost use Rattle.std.specs.String.{string_bytes};
ghost use Rattle.engine_support.specs.OpeningTexts.{numbered};
ghost use Rattle.certifying.specs.Descriptions.{access_lines, all_queue_lines, bits_text, codec_text, count_end, count_front, count_line};
ghost use Rattle.certifying.specs.Descriptions.{field_end, field_front, field_line, form_by, form_lines, from_end, indices_line, load_line};
ghost use Rattle.certifying.specs.Descriptions.{odd_text, opens_end, parties_line, place_in_element, place_in_slot, queue_lines};
ghost use Rattle.certifying.specs.Descriptions.{slots_end, slots_front, slots_line, store_line, tag_bytes, tag_front, tag_line, tag_place};
ghost use Rattle.certifying.specs.Descriptions.{tagged_form_lines, tagged_lines, tagged_slots_line};
ghost use Rattle.certifying.specs.Queues.{queue_count, tagged_number};

use crate::instructions::push_place;
use crate::queues::{accesses_at, number_of, number_of_tagged, tagged_number};
use known_values::{Field, Lack, OpenedQueue, Queue};
use queue_checker::tagged_queues::are_slots;
use queue_checker::{QueueCertificate, SlotAccess, slot_accesses};
use queue_layouts::{Codec, OpenedTagged, TaggedQueue};
use std::alloc::{AllocError, Global};
use step_machine::Opening;

#[tactic(auto, unfolding(crate::specs::Descriptions::parties_line))]
fn push_parties(out: &mut String, index: u32, sender: u32, receiver: u32) -> Result<(), AllocError>
    ensures { OnOk result (string_bytes out.new ≡ string_bytes out.old ++ parties_line index sender receiver) }
{
    writeln!(
        out,
        "queue {index}: hart {sender} sends and hart {receiver} receives"
    )
}

#[tactic(auto, unfolding(crate::specs::Descriptions::indices_line))]
fn push_indices(out: &mut String, index: u32, queue: &Queue) -> Result<(), AllocError>
    ensures { OnOk result (string_bytes out.new ≡ string_bytes out.old ++ indices_line index queue.now) }
{
    let Queue {
        head,
        tail,
        index_width,
        ..
    } = queue;
    writeln!(
        out,
        "queue {index}: its head is the {index_width} bytes at {head}, its tail those at {tail}"
    )
}

#[tactic(auto, unfolding(crate::specs::Descriptions::slots_front))]
fn push_slots_front(out: &mut String, index: u32, size: u32, width: u32) -> Result<(), AllocError>
    ensures { OnOk result (string_bytes out.new ≡ string_bytes out.old ++ slots_front index size width) }
{
    write!(out, "queue {index}: it has {size} slots of {width} bytes")
}

#[tactic(auto, unfolding(crate::specs::Descriptions::slots_end))]
fn push_slots_end(out: &mut String, queue: &Queue) -> Result<(), AllocError>
    ensures { OnOk result (string_bytes out.new ≡ string_bytes out.old ++ slots_end queue.now) }
{
    let Queue {
        slots,
        capacity,
        ..
    } = queue;
    writeln!(out, " from {slots} on, of which {capacity} may be in use")
}

fn push_slots(out: &mut String, index: u32, queue: &Queue) -> Result<(), AllocError>
    ensures { OnOk result (string_bytes out.new ≡ string_bytes out.old ++ slots_line index queue.now) }
{
    push_slots_front(out, index, queue.size, queue.width)?;
    push_slots_end(out, queue)
}

#[tactic(auto, unfolding(crate::specs::Descriptions::count_front))]
fn push_count_front(out: &mut String, index: u32, queue: &Queue) -> Result<(), AllocError>
    ensures { OnOk result (string_bytes out.new ≡ string_bytes out.old ++ count_front index queue.now) }
{
    let Queue { base, scale, .. } = queue;
    write!(
        out,
        "queue {index}: count n is the word {base} + {scale} * "
    )
}

#[tactic(auto, unfolding(crate::specs::Descriptions::count_end))]
fn push_count_end(out: &mut String, opened: &OpenedQueue) -> Result<(), AllocError>
    ensures { OnOk result (string_bytes out.new ≡ string_bytes out.old ++ count_end opened.now) }
{
    let Queue {
        offset,
        modulus,
        ..
    } = opened.queue;
    let start = opened.start;
    writeln!(
        out,
        "((n + {offset}) mod {modulus}), and it opens at {start}"
    )
}

fn push_count(out: &mut String, index: u32, opened: &OpenedQueue) -> Result<(), AllocError>
    ensures { OnOk result (string_bytes out.new ≡ string_bytes out.old ++ count_line index opened.now) }
{
    push_count_front(out, index, &opened.queue)?;
    push_count_end(out, opened)
}

#[tactic(auto, unfolding(crate::specs::Descriptions::field_front))]
fn push_field_front(out: &mut String, index: u32, field: &Field) -> Result<(), AllocError>
    ensures { OnOk result (string_bytes out.new ≡ string_bytes out.old ++ field_front index field.now) }
{
    let Field { at, width, .. } = field;
    write!(
        out,
        "queue {index}: the {width} bytes from {at} on of each record are "
    )
}

#[tactic(auto, unfolding(crate::specs::Descriptions::field_end))]
fn push_field_end(out: &mut String, field: &Field) -> Result<(), AllocError>
    ensures { OnOk result (string_bytes out.new ≡ string_bytes out.old ++ field_end field.now) }
{
    let Field {
        low,
        step,
        count,
        ..
    } = field;
    writeln!(out, "{low} + {step} * j, with j from 0 to {count}")
}

/// The lines of the fields of a queue's records.
fn push_fields(out: &mut String, index: u32, fields: &[Field]) -> Result<(), AllocError>
    ensures { OnOk result (string_bytes out.new ≡ string_bytes out.old ++ flat_map (field_line index) fields.now) }
{
    for field in fields {
        push_field_front(out, index, field)?;
        push_field_end(out, field)?;
    }
    Ok(())
}

// ---- of a queue with tags

#[tactic(auto, unfolding(crate::specs::Descriptions::from_end))]
fn push_from(out: &mut String, slots: u32) -> Result<(), AllocError>
    ensures { OnOk result (string_bytes out.new ≡ string_bytes out.old ++ from_end slots) }
{
    writeln!(out, " from {slots} on")
}

fn push_tagged_slots(out: &mut String, index: u32, queue: TaggedQueue) -> Result<(), AllocError>
    ensures { OnOk result (string_bytes out.new ≡ string_bytes out.old ++ tagged_slots_line index queue) }
{
    push_slots_front(out, index, queue.size, queue.width)?;
    push_from(out, queue.slots)
}

#[tactic(auto, unfolding(crate::specs::Descriptions::tag_front))]
fn push_tag_front(out: &mut String, index: u32) -> Result<(), AllocError>
    ensures { OnOk result (string_bytes out.new ≡ string_bytes out.old ++ tag_front index) }
{
    write!(out, "queue {index}: its tag is the ")
}

fn push_tag_bytes(out: &mut String, width: u32) -> Result<(), AllocError>
    ensures { OnOk result (string_bytes out.new ≡ string_bytes out.old ++ tag_bytes width) }
{
    if width == 1 {
        write!(out, "byte")
    } else {
        write!(out, "{width} bytes")
    }
}

#[tactic(auto, unfolding(crate::specs::Descriptions::place_in_slot))]
fn push_place_in_slot(out: &mut String, offset: u32) -> Result<(), AllocError>
    ensures { OnOk result (string_bytes out.new ≡ string_bytes out.old ++ place_in_slot offset) }
{
    write!(out, " at {offset} of each slot, ")
}

#[tactic(auto, unfolding(crate::specs::Descriptions::place_in_element))]
fn push_place_in_element(
    out: &mut String,
    offset: u32,
    width: u32,
    elements: u32,
) -> Result<(), AllocError>
    ensures { OnOk result (string_bytes out.new ≡ string_bytes out.old ++ place_in_element offset width elements) }
{
    write!(
        out,
        " at {offset} of each element of {width} bytes from {elements} on, "
    )
}

fn push_tag_place(out: &mut String, queue: TaggedQueue) -> Result<(), AllocError>
    ensures { OnOk result (string_bytes out.new ≡ string_bytes out.old ++ tag_place queue) }
{
    if are_slots(queue) {
        push_place_in_slot(out, queue.tag_offset)
    } else {
        push_place_in_element(out, queue.tag_offset, queue.tag_stride, queue.tags)
    }
}

/// How bits of a tag tell.
#[tactic(auto, unfolding(crate::specs::Descriptions::bits_text))]
fn push_bits(out: &mut String, mask: u32, free: u32, full: u32) -> Result<(), AllocError>
    ensures { OnOk result (string_bytes out.new ≡ string_bytes out.old ++ bits_text mask free full) }
{
    write!(
        out,
        "free where its bits under {mask} are {free} and full where they are {full}"
    )
}

/// What they are in odd rounds, where they turn with these.
#[tactic(auto, unfolding(crate::specs::Descriptions::odd_text))]
fn push_odd(out: &mut String, free: u32, full: u32) -> Result<(), AllocError>
    ensures { OnOk result (string_bytes out.new ≡ string_bytes out.old ++ odd_text free full) }
{
    write!(out, ", in odd rounds {free} and {full}")
}

/// How a tag tells.
fn push_codec(out: &mut String, codec: Codec) -> Result<(), AllocError>
    ensures { OnOk result (string_bytes out.new ≡ string_bytes out.old ++ codec_text codec) }
{
    match codec {
        Codec::Zero => out.push_str("0 where it is free and any other number where it is full"),
        Codec::Number => out.push_str(
            "k where it is free for position k and k + 1 where it is full of it, modulo 4294967296",
        ),
        Codec::Bit { mask, free, full } => push_bits(out, mask, free, full),
        Codec::Phases {
            mask,
            free,
            full,
            odd_free,
            odd_full,
        } => {
            push_bits(out, mask, free, full)?;
            push_odd(out, odd_free, odd_full)
        }
    }
}

#[tactic(auto, unfolding(crate::specs::Descriptions::opens_end))]
fn push_opens(out: &mut String, start: u64) -> Result<(), AllocError>
    ensures { OnOk result (string_bytes out.new ≡ string_bytes out.old ++ opens_end start) }
{
    writeln!(out, ", and it opens at {start}")
}

fn push_tag(out: &mut String, index: u32, opened: OpenedTagged) -> Result<(), AllocError>
    ensures { OnOk result (string_bytes out.new ≡ string_bytes out.old ++ tag_line index opened) }
{
    push_tag_front(out, index)?;
    push_tag_bytes(out, opened.queue.tag_width)?;
    push_tag_place(out, opened.queue)?;
    push_codec(out, opened.queue.codec)?;
    push_opens(out, opened.start)
}

// ---- its use

/// The line of an instruction that may store to a slot.
fn push_store(
    out: &mut String,
    opening: &Opening,
    index: u32,
    access: SlotAccess,
) -> Result<(), AllocError>
    ensures { OnOk result (string_bytes out.new ≡ string_bytes out.old ++ store_line opening.now index access) }
{
    if !access.stores {
        return Ok(());
    }
    write!(out, "queue {index}: stored to by ")?;
    push_place(out, opening, access.hart, access.pc)?;
    writeln!(out, "")
}

/// The line of an instruction that may load from a slot.
fn push_load(
    out: &mut String,
    opening: &Opening,
    index: u32,
    access: SlotAccess,
) -> Result<(), AllocError>
    ensures { OnOk result (string_bytes out.new ≡ string_bytes out.old ++ load_line opening.now index access) }
{
    if !access.loads {
        return Ok(());
    }
    write!(out, "queue {index}: loaded from by ")?;
    push_place(out, opening, access.hart, access.pc)?;
    writeln!(out, "")
}

fn push_accesses(
    out: &mut String,
    opening: &Opening,
    index: u32,
    accesses: &[SlotAccess],
) -> Result<(), AllocError>
    ensures { OnOk result (string_bytes out.new ≡ string_bytes out.old ++ flat_map (access_lines opening.now index) accesses.now) }
{
    for access in accesses {
        push_store(out, opening, index, *access)?;
        push_load(out, opening, index, *access)?;
    }
    Ok(())
}

// ---- all of it

/// The lines of what a queue with indices is.
#[tactic(auto, unfolding(crate::specs::Descriptions::form_lines))]
fn push_indexed_form(out: &mut String, index: u32, opened: &OpenedQueue) -> Result<(), AllocError>
    ensures { OnOk result (string_bytes out.new ≡ string_bytes out.old ++ form_lines index opened.now) }
{
    push_parties(out, index, opened.queue.sender, opened.queue.receiver)?;
    push_indices(out, index, &opened.queue)?;
    push_slots(out, index, &opened.queue)?;
    push_count(out, index, opened)
}

/// The lines of what a queue with tags is.
#[tactic(auto, unfolding(crate::specs::Descriptions::tagged_form_lines))]
fn push_tagged_form(out: &mut String, index: u32, opened: OpenedTagged) -> Result<(), AllocError>
    ensures { OnOk result (string_bytes out.new ≡ string_bytes out.old ++ tagged_form_lines index opened) }
{
    push_parties(out, index, opened.queue.sender, opened.queue.receiver)?;
    push_tagged_slots(out, index, opened.queue)?;
    push_tag(out, index, opened)
}

/// The lines of what a queue is, of either kind.
pub fn push_form(
    out: &mut String,
    certificate: &QueueCertificate,
    index: u32,
) -> Result<(), AllocError>
    requires inside { index < queue_count certificate.now }
    ensures { OnOk result (string_bytes out.new ≡ string_bytes out.old ++ form_by certificate.now index (tagged_number certificate.now index)) }
{
    match tagged_number(certificate, index) {
        None => push_indexed_form(out, index, &certificate.queues[index as usize]),
        Some(t) => push_tagged_form(out, index, certificate.tagged[t as usize]),
    }
}

/// The lines of a queue with indices.
#[tactic(auto, unfolding(crate::specs::Descriptions::queue_lines))]
fn push_queue(
    alloc: Global,
    out: &mut String,
    opening: &Opening,
    certificate: &QueueCertificate,
    index: u32,
    opened: &OpenedQueue,
) -> Result<(), Lack>
    ensures { OnOk result (string_bytes out.new ≡ string_bytes out.old ++ queue_lines opening.now certificate.now index opened.now) }
{
    let accesses = slot_accesses(alloc, opening, certificate, index)?;
    push_indexed_form(out, index, opened)?;
    push_fields(out, index, &opened.fields)?;
    push_accesses(out, opening, index, &accesses)?;
    Ok(())
}

/// The lines of a queue with tags.
#[tactic(auto, unfolding(crate::specs::Descriptions::tagged_lines))]
fn push_tagged(
    alloc: Global,
    out: &mut String,
    opening: &Opening,
    certificate: &QueueCertificate,
    index: u32,
    opened: OpenedTagged,
) -> Result<(), Lack>
    ensures { OnOk result (string_bytes out.new ≡ string_bytes out.old ++ tagged_lines opening.now certificate.now index opened) }
{
    let accesses = accesses_at(alloc, opening, certificate, index)?;
    push_tagged_form(out, index, opened)?;
    push_accesses(out, opening, index, &accesses)?;
    Ok(())
}

/// The lines of all queues with indices.
fn push_indexed_queues(
    alloc: Global,
    out: &mut String,
    opening: &Opening,
    certificate: &QueueCertificate,
) -> Result<(), Lack>
    ensures { OnOk result (string_bytes out.new ≡ string_bytes out.old
        ++ numbered (queue_lines opening.now certificate.now) 0 certificate.now.queues) }
{
    for (place, opened) in certificate.queues.iter().enumerate() {
        let index = number_of(place)?;
        push_queue(alloc, out, opening, certificate, index, opened)?;
    }
    Ok(())
}

/// The lines of all queues with tags.
fn push_tagged_queues(
    alloc: Global,
    out: &mut String,
    opening: &Opening,
    certificate: &QueueCertificate,
) -> Result<(), Lack>
    ensures { OnOk result (string_bytes out.new ≡ string_bytes out.old
        ++ numbered (tagged_lines opening.now certificate.now) (length certificate.now.queues) certificate.now.tagged) }
{
    for (place, opened) in certificate.tagged.iter().enumerate() {
        let index = number_of_tagged(certificate, place)?;
        push_tagged(alloc, out, opening, certificate, index, *opened)?;
    }
    Ok(())
}

/// The lines of all queues of a certificate.
#[tactic(auto, unfolding(crate::specs::Descriptions::all_queue_lines))]
pub fn push_queues(
    alloc: Global,
    out: &mut String,
    opening: &Opening,
    certificate: &QueueCertificate,
) -> Result<(), Lack>
    ensures { OnOk result (string_bytes out.new ≡ string_bytes out.old ++ all_queue_lines opening.now certificate.now) }
{
    push_indexed_queues(alloc, out, opening, certificate)?;
    push_tagged_queues(alloc, out, opening, certificate)
}
