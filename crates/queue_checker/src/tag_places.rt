//! Where an access lies in the slots of a queue with tags.

ghost use Rattle.std.specs.Prelude.{◌≡◌, IfOk};
ghost use Rattle.queue_certificates.specs.Tags.{tag_position, is_of_rest, is_of_tag, is_beside_slots};

use crate::certificate::Share;
use crate::places::{misses_slots, offset_at, position_at};
use crate::slots::{is_of_slot, is_owned};
use crate::tagged_queues::{are_slots, bare, elements};
use known_values::lack::sum;
use known_values::{Bounds, Known, KnownValue, Lack};
use queue_layouts::TaggedQueue;
use std::alloc::Global;

/// How much further than the own count the position is of which these bytes are the tag, whole.
pub(crate) fn tag_position(
    alloc: Global,
    ranges: &[Option<u64>],
    queue: TaggedQueue,
    share: &Share,
    place: &KnownValue,
    width: u64,
) -> Result<Option<u64>, Lack>
    ensures { IfOk result (λ position. position ≡ tag_position ranges.now queue share.now place.now width) }
{
    match &place.known {
        Known::Any => Ok(None),
        Known::IndexFor(_, _) => Ok(None),
        Known::SignedFor(_, _) => Ok(None),
        Known::EndsAs(_, _) => Ok(None),
        Known::HasBits(_, _) => Ok(None),
        Known::Linear(form) => {
            let elements = elements(queue);
            let whole = width == u64::from(queue.tag_width);
            let there = offset_at(elements, form.constant) == u64::from(queue.tag_offset);
            let inside = is_of_slot(alloc, ranges, elements, share, form)?;
            let position = position_at(elements, share.own.constant, form.constant)?;
            if whole && there && inside {
                Ok(Some(position))
            } else {
                Ok(None)
            }
        }
    }
}

/// Whether these bytes are of an owned slot, and none of a tag.
pub(crate) fn is_of_rest(
    alloc: Global,
    ranges: &[Option<u64>],
    queue: TaggedQueue,
    share: &Share,
    place: &KnownValue,
    width: u64,
) -> Result<bool, Lack>
    ensures { IfOk result (λ rest. rest ≡ is_of_rest ranges.now queue share.now place.now width) }
{
    let slots = bare(queue);
    let owned = is_owned(alloc, ranges, slots, share, place, width)?;
    match &place.known {
        Known::Any => Ok(false),
        Known::IndexFor(_, _) => Ok(false),
        Known::SignedFor(_, _) => Ok(false),
        Known::EndsAs(_, _) => Ok(false),
        Known::HasBits(_, _) => Ok(false),
        Known::Linear(form) => {
            let from = offset_at(slots, form.constant);
            let tag = u64::from(queue.tag_offset);
            let before = sum(from, width)? <= tag;
            let after = sum(tag, u64::from(queue.tag_width))? <= from;
            Ok((!are_slots(queue) || before || after) && owned)
        }
    }
}

/// Whether these bytes are all of a tag.
pub(crate) fn is_of_tag(
    alloc: Global,
    ranges: &[Option<u64>],
    queue: TaggedQueue,
    share: &Share,
    place: &KnownValue,
    width: u64,
) -> Result<bool, Lack>
    ensures { IfOk result (λ tag. tag ≡ is_of_tag ranges.now queue share.now place.now width) }
{
    match &place.known {
        Known::Any => Ok(false),
        Known::IndexFor(_, _) => Ok(false),
        Known::SignedFor(_, _) => Ok(false),
        Known::EndsAs(_, _) => Ok(false),
        Known::HasBits(_, _) => Ok(false),
        Known::Linear(form) => {
            let elements = elements(queue);
            let from = offset_at(elements, form.constant);
            let tag = u64::from(queue.tag_offset);
            let begins = tag <= from;
            let ends = sum(from, width)? <= sum(tag, u64::from(queue.tag_width))?;
            let inside = is_of_slot(alloc, ranges, elements, share, form)?;
            Ok(begins && ends && inside)
        }
    }
}

/// Whether `width` bytes from somewhere among these addresses on are none of the slots, and none of the elements with the tags.
pub(crate) fn is_beside_slots(queue: TaggedQueue, bounds: Bounds, width: u64) -> Result<bool, Lack>
    ensures { IfOk result (λ beside. beside ≡ is_beside_slots queue bounds width) }
{
    let slots = misses_slots(bare(queue), bounds, width)?;
    let tags = misses_slots(elements(queue), bounds, width)?;
    Ok(slots && tags)
}
