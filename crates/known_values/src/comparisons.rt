//! Comparisons of numbers that aren't known, where what is known of them decides.

ghost use Rattle.std.specs.Prelude.{◌≡◌, ◌-◌, ◌≤◌, [], IfOk};
ghost use Rattle.queue_certificates.specs.Forms.{plus, times, reduced};
ghost use Rattle.queue_certificates.specs.Results.{is_below, is_below_signed, negated, agrees, unscaled, is_scaled};
ghost use Rattle.queue_certificates.specs.States.{signed_for};
ghost use Rattle.queue_certificates.specs.Results.{standing, is_equal_word, is_equal};
ghost use Rattle.known_values.specs.Queues.{queue_in};

use crate::bounds::{Bounds, bounds_of};
use crate::forms::{Form, is_same, number, plus, times};
use crate::lack::Lack;
use crate::numbers::{as_number, is_nothing, is_zero};
use crate::queues::{OpenedQueue, queue_in};
use crate::ranges::{fits_in, most, reduced};
use crate::values::{Known, KnownValue, index_for, scaled};
use crate::words::WORDS;
use std::alloc::Global;

const NEGATIVE: u64 = 1 << 31;

/// Whether the first number is below the second, where their bounds show it.
pub fn is_below(left: Option<Bounds>, right: Option<Bounds>) -> Option<bool>
    ensures { result ≡ is_below left right }
{
    match (left, right) {
        (Some(a), Some(b)) if a.high < b.low => Some(true),
        (Some(a), Some(b)) if b.high <= a.low => Some(false),
        _ => None,
    }
}

/// The same of two numbers in two's complement, neither of which is negative.
pub fn is_below_signed(left: Option<Bounds>, right: Option<Bounds>) -> Option<bool>
    ensures { result ≡ is_below_signed left right }
{
    match (left, right) {
        (Some(a), Some(b)) if a.high < NEGATIVE && b.high < NEGATIVE => is_below(left, right),
        _ => None,
    }
}

/// The opposite, where it is known.
pub fn negated(known: Option<bool>) -> Option<bool>
    ensures { result ≡ negated known }
{
    match known {
        Some(b) => Some(!b),
        None => None,
    }
}

/// The difference of two forms as a remainder by `modulus`. Both are reduced first: below 2^32 none of its numbers is from 2^64 on.
fn difference(alloc: Global, modulus: u64, left: &Form, right: &Form) -> Result<Form, Lack>
    ensures { IfOk result (λ f. f ≡ plus (reduced modulus left.now) (times (modulus - 1) (reduced modulus right.now))) }
{
    let least = reduced(alloc, modulus, left)?;
    let negative = times(
        alloc,
        modulus.saturating_sub(1),
        &reduced(alloc, modulus, right)?,
    )?;
    plus(alloc, &least, &negative)
}

/// Whether the remainders of two forms by `modulus` are the same, where bounds of the difference show it.
#[tactic(auto, using(crate::proofs::Differences::bounds_reduced))]
pub fn agrees(
    alloc: Global,
    ranges: &[Option<u64>],
    modulus: u64,
    left: &Form,
    right: &Form,
) -> Result<Option<bool>, Lack>
    ensures { IfOk result (λ b. b ≡ agrees ranges.now modulus left.now right.now) }
{
    let difference = difference(alloc, modulus, left, right)?;
    Ok(is_nothing(bounds_of(alloc, modulus, ranges, &difference)?))
}

/// What a form comes to without the base and the scale of queue `i`.
fn unscaled(alloc: Global, queues: &[OpenedQueue], i: u32, form: &Form) -> Result<Form, Lack>
    requires { 1 ≤ (queue_in queues.now i).scale }
    ensures { IfOk result (λ f. f ≡ unscaled (queue_in queues.now) [] (queue_in queues.now i) form.now) }
{
    let queue = queue_in(queues, i);
    let scale = queue.scale;
    let mut factors = Vec::new(alloc);
    for m in &form.factors {
        factors.push(*m % WORDS / scale)?;
    }
    Ok(Form {
        constant: (form.constant % WORDS).saturating_sub(u64::from(queue.base)) / scale,
        factors,
    })
}

/// Whether a form is a word of the index of queue `i` that stands for `count`.
fn is_scaled(
    alloc: Global,
    queues: &[OpenedQueue],
    ranges: &[Option<u64>],
    i: u32,
    form: &Form,
    count: &Form,
) -> Result<bool, Lack>
    ensures { IfOk result (λ b. b ≡ is_scaled (queue_in queues.now) ranges.now (queue_in queues.now i) form.now count.now) }
{
    let queue = queue_in(queues, i);
    let word = scaled(alloc, queue, count)?;
    Ok(
        is_same(WORDS, form, &word)
            && fits_in(most(ranges, &word)?, Some(WORDS - 1))
            && fits_in(most(ranges, count)?, Some(queue.modulus.saturating_sub(1))),
    )
}

/// The count that a value stands for as a word of the index of queue `i`, with the offset, up to the modulus.
fn standing(
    alloc: Global,
    queues: &[OpenedQueue],
    ranges: &[Option<u64>],
    i: u32,
    value: &KnownValue,
) -> Result<Option<Form>, Lack>
    requires { 1 ≤ (queue_in queues.now i).scale }
    ensures { IfOk result (λ f. f ≡ standing (queue_in queues.now) ranges.now i value.now) }
{
    match &value.known {
        Known::Any => Ok(None),
        Known::Linear(form) => {
            let count = unscaled(alloc, queues, i, form)?;
            if is_scaled(alloc, queues, ranges, i, form, &count)? {
                Ok(Some(count))
            } else {
                Ok(None)
            }
        }
        Known::IndexFor(j, form) => {
            if i == *j {
                Ok(Some(plus(alloc, form, &number(alloc, queue_in(queues, i).offset))?))
            } else {
                Ok(None)
            }
        }
        Known::SignedFor(_, _) => Ok(None),
        Known::EndsAs(_, _) => Ok(None),
        Known::HasBits(_, _) => Ok(None),
    }
}

/// Whether two words of the index of queue `i` are equal, where that is known.
fn is_equal_word(
    alloc: Global,
    queues: &[OpenedQueue],
    ranges: &[Option<u64>],
    i: u32,
    left: &KnownValue,
    right: &KnownValue,
) -> Result<Option<bool>, Lack>
    ensures { IfOk result (λ b. b ≡ is_equal_word (queue_in queues.now) ranges.now i left.now right.now) }
{
    let queue = queue_in(queues, i);
    if queue.scale == 0 {
        return Ok(None);
    }
    let left = standing(alloc, queues, ranges, i, left)?;
    let right = standing(alloc, queues, ranges, i, right)?;
    match (&left, &right) {
        (Some(j), Some(k)) => agrees(alloc, ranges, queue.modulus, j, k),
        _ => Ok(None),
    }
}

/// Whether what signed loads leave of words of two queues' indices is equal, where that is known.
fn is_equal_signed(
    alloc: Global,
    queues: &[OpenedQueue],
    ranges: &[Option<u64>],
    i: u32,
    left: &Form,
    j: u32,
    right: &Form,
) -> Result<Option<bool>, Lack>
    ensures { IfOk result (λ b. b ≡ is_equal (queue_in queues.now) ranges.now (signed_for i left.now) (signed_for j right.now)) }
{
    if queue_in(queues, i).index_width != queue_in(queues, j).index_width {
        return Ok(None);
    }
    let left = index_for(i, left.copy(alloc)?);
    let right = index_for(j, right.copy(alloc)?);
    is_equal_word(alloc, queues, ranges, i, &left, &right)
}

/// Whether two values are equal, where that is known.
pub fn is_equal(
    alloc: Global,
    queues: &[OpenedQueue],
    ranges: &[Option<u64>],
    left: &KnownValue,
    right: &KnownValue,
) -> Result<Option<bool>, Lack>
    ensures { IfOk result (λ b. b ≡ is_equal (queue_in queues.now) ranges.now left.now right.now) }
{
    match (&left.known, &right.known) {
        (Known::EndsAs(_, _), _) => is_zero(alloc, ranges, left, as_number(right)),
        (Known::Linear(_), Known::EndsAs(_, _)) => {
            is_zero(alloc, ranges, right, as_number(left))
        }
        (Known::Linear(f), Known::Linear(g)) => agrees(alloc, ranges, WORDS, f, g),
        (Known::IndexFor(i, _), _) | (Known::Linear(_), Known::IndexFor(i, _)) => {
            is_equal_word(alloc, queues, ranges, *i, left, right)
        }
        (Known::SignedFor(i, f), Known::SignedFor(j, g)) => {
            is_equal_signed(alloc, queues, ranges, *i, f, *j, g)
        }
        _ => Ok(None),
    }
}
