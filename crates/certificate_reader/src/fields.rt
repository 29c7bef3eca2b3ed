//! Fields of a queue's records, and which of them are right, after the first word of a line.

ghost use Rattle.std.specs.Prelude.{◌≡◌, ◌<◌, get_or, set, length, nat_lt, IfOk, []};
ghost use Rattle.std.specs.List.{list_all};
ghost use Rattle.texts.specs.Results.{GivesUpToMemory, refusal_of};
ghost use Rattle.texts.specs.Cutting.{tokens};
ghost use Rattle.certificate_reader.specs.Fields.{field_of, with_field, are_fields, fields_listed_in, reaching, put_in, with_filled};

use crate::faults::{BAD, LineError, MISPLACED, TOO_MANY};
use crate::limits::{MAX_FIELDS, MAX_POSITIONS};
use crate::lists::counts;
use crate::numbers::{end, first_count, first_word};
use known_values::queues::fields_in;
use known_values::{Field, OpenedQueue};
use queue_checker::{Filled, FilledSlot};
use std::alloc::{AllocError, Global};
use std::mem;

#[tactic(auto, unfolding(crate::specs::Fields::field_of))]
fn field(text: &[u8]) -> Result<Field, LineError>
    ensures { GivesUpToMemory refusal_of (λ field. field) result (field_of (tokens text.now)) }
{
    let (at, rest) = first_word(text)?;
    let (width, rest) = first_word(rest)?;
    let (low, rest) = first_count(rest)?;
    let (step, rest) = first_count(rest)?;
    let (count, rest) = first_count(rest)?;
    end(rest)?;
    Ok(Field {
        at,
        width,
        low,
        step,
        count,
    })
}

/// Adds the field that the words say to the last queue.
#[tactic(auto, unfolding(crate::specs::Fields::with_field))]
pub fn add_field(queues: &mut Vec<OpenedQueue>, text: &[u8]) -> Result<(), LineError>
    ensures { GivesUpToMemory refusal_of (λ x. queues.new.items) result (with_field queues.old.items (tokens text.now)) }
{
    let Some(mut opened) = queues.pop() else {
        return Err(MISPLACED);
    };
    let field = field(text)?;
    if opened.fields.len() >= MAX_FIELDS {
        return Err(TOO_MANY);
    }
    opened.fields.push(field)?;
    queues.push(opened)?;
    Ok(())
}

fn are_below(numbers: &[u64], count: usize) -> bool
    ensures { result ≡ list_all (λ number. nat_lt number count) numbers.now }
{
    let count = count as u64;
    numbers.iter().all(|number| *number < count)
}

/// Whether there is one field at least, and each is one of the `count` that a queue has.
fn are_fields(numbers: &[u64], count: usize) -> bool
    ensures { result ≡ are_fields count numbers.now }
{
    match numbers {
        [] => false,
        [_, ..] => are_below(numbers, count),
    }
}

/// The numbers of fields that the words say, of a queue that has `count` of them.
#[tactic(auto, unfolding(crate::specs::Fields::fields_listed_in))]
fn fields_listed(alloc: Global, count: usize, text: &[u8]) -> Result<Vec<u64>, LineError>
    ensures { GivesUpToMemory refusal_of (λ fields. fields.items) result (fields_listed_in count (tokens text.now)) }
{
    let fields = counts(alloc, text)?;
    if !are_fields(&fields, count) {
        return Err(BAD);
    }
    Ok(fields)
}

/// Adds slots in which no field is right until there is one at this place.
#[tactic(auto, using(crate::proofs::Placing::reaching_pushed))]
fn reach_slot(alloc: Global, slots: &mut Vec<FilledSlot>, place: usize) -> Result<(), AllocError>
    ensures longer { IfOk result (λ x. slots.new.items ≡ reaching place slots.old.items) }
    ensures reached { IfOk result (λ x. place < length slots.new.items) }
{
    while slots.len() <= place {
        slots.push(FilledSlot {
            fields: Vec::new(alloc),
        })?;
    }
    Ok(())
}

/// The same of queues.
#[tactic(auto, using(crate::proofs::Placing::reaching_pushed))]
fn reach_queue(alloc: Global, filled: &mut Vec<Filled>, place: usize) -> Result<(), AllocError>
    ensures longer { IfOk result (λ x. filled.new.items ≡ reaching place filled.old.items) }
    ensures reached { IfOk result (λ x. place < length filled.new.items) }
{
    while filled.len() <= place {
        filled.push(Filled {
            slots: Vec::new(alloc),
        })?;
    }
    Ok(())
}

fn put_slot(
    alloc: Global,
    slots: &mut Vec<FilledSlot>,
    place: usize,
    slot: FilledSlot,
) -> Result<(), AllocError>
    ensures { IfOk result (λ x. slots.new.items ≡ put_in slots.old.items place slot) }
{
    reach_slot(alloc, slots, place)?;
    slots[place] = slot;
    Ok(())
}

/// What is right of queue `i`, which is forgotten.
fn take_slots(alloc: Global, filled: &mut Vec<Filled>, i: usize) -> Vec<FilledSlot>
    requires { i < length filled.old.items }
    ensures taken { result.items ≡ get_or filled.old.items i [] }
    ensures left { filled.new.items ≡ set filled.old.items i [] }
{
    mem::replace(&mut filled[i].slots, Vec::new(alloc))
}

#[tactic(auto, using(crate::proofs::Placing::puts))]
fn put_filled(
    alloc: Global,
    filled: &mut Vec<Filled>,
    queue: usize,
    position: usize,
    slot: FilledSlot,
) -> Result<(), AllocError>
    ensures { IfOk result (λ x. filled.new.items ≡ put_in filled.old.items queue (put_in (get_or filled.old.items queue []) position slot)) }
{
    reach_queue(alloc, filled, queue)?;
    let mut slots = take_slots(alloc, filled, queue);
    put_slot(alloc, &mut slots, position, slot)?;
    filled[queue] = Filled { slots };
    Ok(())
}

/// Takes what the words say is right of a queue at a position.
#[tactic(auto, unfolding(crate::specs::Fields::with_filled))]
pub fn set_filled(
    alloc: Global,
    queues: &[OpenedQueue],
    filled: &mut Vec<Filled>,
    text: &[u8],
) -> Result<(), LineError>
    ensures { GivesUpToMemory refusal_of (λ x. filled.new.items) result (with_filled queues.now filled.old.items (tokens text.now)) }
{
    let (queue, rest) = first_word(text)?;
    let (further, rest) = first_word(rest)?;
    let fields = fields_listed(alloc, fields_in(queues, queue).len(), rest)?;
    if further as usize >= MAX_POSITIONS {
        return Err(BAD);
    }
    put_filled(
        alloc,
        filled,
        queue as usize,
        further as usize,
        FilledSlot { fields },
    )?;
    Ok(())
}
