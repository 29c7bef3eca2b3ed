//! Whether bytes are of a slot that a party owns.

ghost use Rattle.std.specs.Prelude.{◌≡◌, IfOk};
ghost use Rattle.queue_certificates.specs.Forms.{number, plus, remainder};
ghost use Rattle.queue_certificates.specs.States.{linear};
ghost use Rattle.queue_certificates.specs.Steps.{is_slot, is_owned, position_at, offset_at};

use crate::certificate::Share;
use crate::places::{offset_at, position_at};
use known_values::forms::{is_same, number, plus, times};
use known_values::lack::sum;
use known_values::ranges::{fits_in, most, remainder};
use known_values::{Form, Known, KnownValue, Lack, Queue};
use std::alloc::Global;

const WORDS: u64 = 1 << 32;

/// Whether a form is the address `offset` bytes into the slot whose number is the form `slot`.
fn is_slot(
    alloc: Global,
    ranges: &[Option<u64>],
    queue: Queue,
    form: &Form,
    offset: u64,
    slot: Option<Form>,
) -> Result<bool, Lack>
    ensures { IfOk result (λ same. same ≡ is_slot ranges.now queue form.now offset slot) }
{
    match slot {
        None => Ok(false),
        Some(slot) => {
            let start = number(alloc, sum(u64::from(queue.slots), offset)?);
            let address = plus(alloc, &times(alloc, u64::from(queue.width), &slot)?, &start)?;
            let same = is_same(WORDS, form, &address);
            let fits = fits_in(most(ranges, &address)?, Some(WORDS - 1));
            Ok(same && fits)
        }
    }
}

/// Whether a form is an address in the slot of the position that is as much further than the own count as the constants say.
pub(crate) fn is_of_slot(
    alloc: Global,
    ranges: &[Option<u64>],
    queue: Queue,
    share: &Share,
    form: &Form,
) -> Result<bool, Lack>
    ensures { IfOk result (λ inside. inside ≡ is_slot ranges.now queue form.now (offset_at queue form.now.constant)
        (remainder ranges.now (plus share.now.own (number (position_at queue share.now.own.constant form.now.constant))) queue.size)) }
{
    let position = position_at(queue, share.own.constant, form.constant)?;
    let count = plus(alloc, &share.own, &number(alloc, position))?;
    let slot = remainder(alloc, ranges, &count, u64::from(queue.size))?;
    let offset = offset_at(queue, form.constant);
    is_slot(alloc, ranges, queue, form, offset, slot)
}

fn is_owned_form(
    alloc: Global,
    ranges: &[Option<u64>],
    queue: Queue,
    share: &Share,
    form: &Form,
    width: u64,
) -> Result<bool, Lack>
    ensures { IfOk result (λ owned. owned ≡ is_owned ranges.now queue share.now (linear form.now) width) }
{
    let position = position_at(queue, share.own.constant, form.constant)?;
    let offset = offset_at(queue, form.constant);
    let inside = sum(offset, width)? <= u64::from(queue.width);
    let is_slot = is_of_slot(alloc, ranges, queue, share, form)?;
    Ok(position < share.owned.constant && inside && is_slot)
}

/// Whether `width` bytes at a value are of the slot of a position that a party with this share owns.
pub fn is_owned(
    alloc: Global,
    ranges: &[Option<u64>],
    queue: Queue,
    share: &Share,
    value: &KnownValue,
    width: u64,
) -> Result<bool, Lack>
    ensures { IfOk result (λ owned. owned ≡ is_owned ranges.now queue share.now value.now width) }
{
    match &value.known {
        Known::Linear(form) => is_owned_form(alloc, ranges, queue, share, form, width),
        Known::Any => Ok(false),
        Known::IndexFor(_, _) => Ok(false),
        Known::SignedFor(_, _) => Ok(false),
        Known::EndsAs(_, _) => Ok(false),
        Known::HasBits(_, _) => Ok(false),
    }
}
