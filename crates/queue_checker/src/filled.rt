//! Fields that are right in the slots ahead of a sender's count, before and after an effect.

ghost use Rattle.std.specs.Prelude.{◌≡◌, IfOk, [], false, get_or, length};
ghost use Rattle.std.specs.List.{list_all};
ghost use Rattle.queue_certificates.specs.Steps.{all_below};
ghost use Rattle.queue_certificates.specs.Filled.{is_filled, no_field, is_beside, is_right_after, is_filled_after, are_so, may_send};

use crate::certificate::{Filled, FilledSlot};
use crate::effects::most_published;
use known_values::fields::is_number_of;
use known_values::lack::sum;
use known_values::{Field, KnownValue, Lack, Queue};
use queue_certificates::Effect;
use std::alloc::Global;

/// What is right of queue `i`; nothing, if there are fewer.
pub(crate) fn filled_in(filled: &[Filled], i: u32) -> &[FilledSlot]
    ensures { result.now ≡ get_or filled.now i [] }
{
    match filled.get(i as usize) {
        Some(filled) => &filled.slots,
        None => &[],
    }
}

/// Whether a field is right at a position, this far from the count.
fn is_filled(size: u64, slots: &[FilledSlot], position: u64, field: u64) -> bool
    ensures { result ≡ is_filled size slots.now position field }
{
    let index = usize::try_from(position).unwrap_or(usize::MAX);
    let listed = match slots.get(index) {
        Some(slot) => slot.fields.contains(&field),
        None => false,
    };
    position < size && listed
}

/// The field of this number; one of no byte, if there are fewer.
fn field_numbered(fields: &[Field], number: u64) -> Field
    ensures { result ≡ get_or fields.now number no_field }
{
    let index = usize::try_from(number).unwrap_or(usize::MAX);
    match fields.get(index) {
        Some(field) => *field,
        None => Field {
            at: 0,
            width: 0,
            low: 0,
            step: 0,
            count: 0,
        },
    }
}

/// Whether no byte of the field is among `width` bytes from `offset` on.
fn is_beside(field: Field, offset: u64, width: u64) -> Result<bool, Lack>
    ensures { IfOk result (λ beside. beside ≡ is_beside field offset width) }
{
    let before = sum(u64::from(field.at), u64::from(field.width))? <= offset;
    let after = sum(offset, width)? <= u64::from(field.at);
    Ok(before || after)
}

/// Whether a field is right after a store of a number to these bytes of its slot.
fn is_right_after(
    alloc: Global,
    ranges: &[Option<u64>],
    stored: &KnownValue,
    field: Field,
    offset: u64,
    width: u64,
    right_before: bool,
) -> Result<bool, Lack>
    ensures { IfOk result (λ right. right ≡ is_right_after ranges.now stored.now field offset width right_before) }
{
    if u64::from(field.at) == offset && u64::from(field.width) == width {
        is_number_of(alloc, ranges, stored, field)
    } else {
        Ok(is_beside(field, offset, width)? && right_before)
    }
}

/// An effect of a sender's on its queue's slots, of which these fields are right before it, with what is known of the number that it
/// stores.
#[derive(Clone, Copy)]
pub(crate) struct Sending<'a, 's, 'v> {
    pub ranges: &'a [Option<u64>],
    pub queue: Queue,
    pub fields: &'a [Field],
    pub stored: &'v KnownValue,
    pub slots: &'s [FilledSlot],
    pub effect: Effect,
}

/// Whether a field is right after an effect.
fn is_filled_after(
    alloc: Global,
    sending: &Sending<'_, '_, '_>,
    position: u64,
    field: u64,
) -> Result<bool, Lack>
    ensures { IfOk result (λ right. right ≡ is_filled_after sending.now.ranges.now sending.now.queue sending.now.fields.now sending.now.stored.now
        sending.now.slots.now sending.now.effect position field) }
{
    let size = u64::from(sending.queue.size);
    let slots = sending.slots;
    match sending.effect {
        Effect::Leaves => Ok(is_filled(size, slots, position, field)),
        Effect::Fills {
            position: filled,
            offset,
            width,
        } => {
            let right_before = is_filled(size, slots, position, field);
            if filled == position {
                let its = field_numbered(sending.fields, field);
                let (ranges, stored) = (sending.ranges, sending.stored);
                is_right_after(alloc, ranges, stored, its, offset, width, right_before)
            } else {
                Ok(right_before)
            }
        }
        Effect::Publishes(n) => Ok(is_filled(size, slots, sum(position, n)?, field)),
        Effect::PublishesSome(_) => Ok(false),
    }
}

/// Whether all these fields are.
fn are_filled_after(
    alloc: Global,
    sending: &Sending<'_, '_, '_>,
    position: u64,
    mut numbers: &[u64],
) -> Result<bool, Lack>
    ensures { IfOk result (λ right. right ≡ list_all (is_filled_after sending.now.ranges.now sending.now.queue sending.now.fields.now
        sending.now.stored.now sending.now.slots.now sending.now.effect position) numbers.now) }
{
    'numbers: loop {
        match numbers {
            [] => return Ok(true),
            [number, others @ ..] => {
                if !is_filled_after(alloc, sending, position, *number)? {
                    return Ok(false);
                }
                numbers = others;
            }
        }
    }
}

/// Whether all that a next state says to be right is so after an effect.
pub(crate) fn are_so(
    alloc: Global,
    target: &[FilledSlot],
    sending: &Sending<'_, '_, '_>,
) -> Result<bool, Lack>
    ensures { IfOk result (λ so. so ≡ are_so target.now (is_filled_after sending.now.ranges.now sending.now.queue sending.now.fields.now
        sending.now.stored.now sending.now.slots.now sending.now.effect)) }
{
    let mut all = true;
    for i in 0..target.len() {
        let slot = &target[i];
        all = are_filled_after(alloc, sending, i as u64, &slot.fields)? && all;
    }
    Ok(all)
}

/// Whether nothing is said to be right.
pub(crate) fn says_nothing(slots: &[FilledSlot]) -> bool
    ensures { result ≡ are_so slots.now (λ d j. false) }
{
    let mut all = true;
    for i in 0..slots.len() {
        let slot = &slots[i];
        all = is_empty(&slot.fields) && all;
    }
    all
}

fn is_empty(numbers: &[u64]) -> bool
    ensures { result ≡ list_all (λ j. false) numbers.now }
{
    match numbers {
        [] => true,
        [_number, _others @ ..] => false,
    }
}

/// Whether all fields are right at a position.
fn is_whole(size: u64, fields: u64, slots: &[FilledSlot], position: u64) -> bool
    ensures { result ≡ all_below fields (is_filled size slots.now position) }
{
    let mut all = true;
    for field in 0..fields {
        all = is_filled(size, slots, position, field) && all;
    }
    all
}

/// Whether of what may be published all fields are right.
pub(crate) fn may_send(size: u64, fields: &[Field], slots: &[FilledSlot], effect: Effect) -> bool
    ensures { result ≡ may_send size fields.now slots.now effect }
{
    let count = fields.len() as u64;
    for position in 0..most_published(effect) {
        if !is_whole(size, count, slots, position) {
            return false;
        }
    }
    true
}
