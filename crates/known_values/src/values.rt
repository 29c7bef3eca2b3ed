//! What is known of a register or a word.

ghost use Rattle.std.specs.Prelude.{ℕ, ◌≡◌, List, Option, IfOk};
ghost use Rattle.queue_certificates.specs.Forms as forms;
ghost use Rattle.queue_certificates.specs.Forms.{lifted, raised, substituted, times};
ghost use Rattle.queue_certificates.specs.States.{any, linear, index_for, signed_for, ends_as, has_bits, signed_word, value_by};
ghost use Rattle.queue_certificates.specs.States.{scaled, of_remainder, plain, is_within_plain, is_within};
ghost use Rattle.known_values.specs.Queues.{queue_in};
ghost use Rattle.known_values.specs.Values.{known_of};

use crate::forms::{Form, is_same, lifted, number, plus, raised, substituted, times};
use crate::lack::{Lack, sum};
use crate::queues::{OpenedQueue, Queue, queue_in, words_of};
use crate::ranges::{fits_in, most, remainder, settled};
use crate::words::WORDS;
use std::alloc::Global;
use std::marker::Model;

/// The forms of a [`KnownValue`].
#[derive(Drop)]
pub enum Known {
    /// Nothing is known.
    Any,
    /// The form's remainder by 2^32.
    Linear(Form),
    /// The word of this queue that stands for the count that the form is.
    IndexFor(u32, Form),
    /// What a signed load leaves of that word.
    SignedFor(u32, Form),
    /// A number of this many bits that ends in as many zeros as the form.
    EndsAs(u32, Form),
    /// A word whose bits under the first, a mask, are the second.
    HasBits(u32, u32),
}

/// What is known of a register or a word. A contract sees it as a `KnownValue` of `queue_certificates`.
#[derive(Drop)]
pub struct KnownValue {
    pub known: Known,
}

impl Model for KnownValue {
    ghost use Rattle.queue_certificates.specs.States.{KnownValue as KnownValueOf};

    ghost Value = { KnownValueOf };

    ghost use Rattle.known_values.specs.Values.{known_of};

    ghost view = { λ v. known_of v.known };
}

/// Nothing is known.
pub fn any() -> KnownValue
    ensures { result ≡ any }
{
    KnownValue { known: Known::Any }
}

/// The form's remainder by 2^32.
pub fn linear(form: Form) -> KnownValue
    ensures { result ≡ linear form }
{
    KnownValue {
        known: Known::Linear(form),
    }
}

/// The word of queue `i` that stands for the count that the form is.
pub fn index_for(i: u32, form: Form) -> KnownValue
    ensures { result ≡ index_for i form }
{
    KnownValue {
        known: Known::IndexFor(i, form),
    }
}

/// What a signed load leaves of the word of queue `i` that stands for the count that the form is.
pub fn signed_for(i: u32, form: Form) -> KnownValue
    ensures { result ≡ signed_for i form }
{
    KnownValue {
        known: Known::SignedFor(i, form),
    }
}

/// A number of `bits` bits that ends in as many zeros as the form, and is 0 where all these bits of the form are.
pub fn ends_as(bits: u32, form: Form) -> KnownValue
    ensures { result ≡ ends_as bits form }
{
    KnownValue {
        known: Known::EndsAs(bits, form),
    }
}

/// A word whose bits under the mask are these.
pub fn has_bits(mask: u32, bits: u32) -> KnownValue
    ensures { result ≡ has_bits mask bits }
{
    KnownValue {
        known: Known::HasBits(mask, bits),
    }
}

impl KnownValue {
    /// A copy, which takes its memory from `alloc`.
    pub fn copy(&self, alloc: Global) -> Result<KnownValue, Lack>
        ensures { IfOk result (λ v. v ≡ self.now) }
    {
        match &self.known {
            Known::Any => Ok(any()),
            Known::Linear(form) => Ok(linear(form.copy(alloc)?)),
            Known::IndexFor(i, form) => Ok(index_for(*i, form.copy(alloc)?)),
            Known::SignedFor(i, form) => Ok(signed_for(*i, form.copy(alloc)?)),
            Known::EndsAs(bits, form) => Ok(ends_as(*bits, form.copy(alloc)?)),
            Known::HasBits(mask, bits) => Ok(has_bits(*mask, *bits)),
        }
    }
}

/// The value over one variable more, which comes first.
pub fn lifted_value(alloc: Global, value: &KnownValue) -> Result<KnownValue, Lack>
    ensures { IfOk result (λ v. v ≡ value_by lifted value.now) }
{
    match &value.known {
        Known::Any => Ok(any()),
        Known::Linear(form) => Ok(linear(lifted(alloc, form)?)),
        Known::IndexFor(i, form) => Ok(index_for(*i, lifted(alloc, form)?)),
        Known::SignedFor(i, form) => Ok(signed_for(*i, lifted(alloc, form)?)),
        Known::EndsAs(bits, form) => Ok(ends_as(*bits, lifted(alloc, form)?)),
        Known::HasBits(mask, bits) => Ok(has_bits(*mask, *bits)),
    }
}

/// The value without the variables that can only be 0.
pub fn settled_value(
    alloc: Global,
    ranges: &[Option<u64>],
    value: &KnownValue,
) -> Result<KnownValue, Lack>
    ensures { IfOk result (λ v. v ≡ value_by (forms.settled ranges.now) value.now) }
{
    match &value.known {
        Known::Any => Ok(any()),
        Known::Linear(form) => Ok(linear(settled(alloc, ranges, form)?)),
        Known::IndexFor(i, form) => Ok(index_for(*i, settled(alloc, ranges, form)?)),
        Known::SignedFor(i, form) => Ok(signed_for(*i, settled(alloc, ranges, form)?)),
        Known::EndsAs(bits, form) => Ok(ends_as(*bits, settled(alloc, ranges, form)?)),
        Known::HasBits(mask, bits) => Ok(has_bits(*mask, *bits)),
    }
}

/// The value with its forms `n` times.
pub fn times_value(alloc: Global, n: u64, value: &KnownValue) -> Result<KnownValue, Lack>
    ensures { IfOk result (λ v. v ≡ value_by (times n) value.now) }
{
    match &value.known {
        Known::Any => Ok(any()),
        Known::Linear(form) => Ok(linear(times(alloc, n, form)?)),
        Known::IndexFor(i, form) => Ok(index_for(*i, times(alloc, n, form)?)),
        Known::SignedFor(i, form) => Ok(signed_for(*i, times(alloc, n, form)?)),
        Known::EndsAs(bits, form) => Ok(ends_as(*bits, times(alloc, n, form)?)),
        Known::HasBits(mask, bits) => Ok(has_bits(*mask, *bits)),
    }
}

/// The value with `by` more for variable `j`.
pub fn raised_value(alloc: Global, j: u32, by: u64, value: &KnownValue) -> Result<KnownValue, Lack>
    ensures { IfOk result (λ v. v ≡ value_by (raised j by) value.now) }
{
    match &value.known {
        Known::Any => Ok(any()),
        Known::Linear(form) => Ok(linear(raised(alloc, j, by, form)?)),
        Known::IndexFor(i, form) => Ok(index_for(*i, raised(alloc, j, by, form)?)),
        Known::SignedFor(i, form) => Ok(signed_for(*i, raised(alloc, j, by, form)?)),
        Known::EndsAs(bits, form) => Ok(ends_as(*bits, raised(alloc, j, by, form)?)),
        Known::HasBits(mask, bits) => Ok(has_bits(*mask, *bits)),
    }
}

/// The value with forms for its variables.
pub fn substituted_value(
    alloc: Global,
    value: &KnownValue,
    forms: &[Form],
) -> Result<KnownValue, Lack>
    ensures { IfOk result (λ v. v ≡ value_by (λ f. substituted f forms.now) value.now) }
{
    match &value.known {
        Known::Any => Ok(any()),
        Known::Linear(form) => Ok(linear(substituted(alloc, form, forms)?)),
        Known::IndexFor(i, form) => Ok(index_for(*i, substituted(alloc, form, forms)?)),
        Known::SignedFor(i, form) => Ok(signed_for(*i, substituted(alloc, form, forms)?)),
        Known::EndsAs(bits, form) => Ok(ends_as(*bits, substituted(alloc, form, forms)?)),
        Known::HasBits(mask, bits) => Ok(has_bits(*mask, *bits)),
    }
}

/// What a signed load leaves of a number of `width` bytes.
pub fn signed_word(width: u32, word: u64) -> Result<u64, Lack>
    ensures { IfOk result (λ n. n ≡ signed_word width word) }
{
    let words = words_of(width)?;
    if sum(word, word)? < words {
        Ok(word)
    } else {
        sum(word, WORDS.saturating_sub(words))
    }
}

/// An index's word as a form, where it is one.
pub fn scaled(alloc: Global, queue: Queue, form: &Form) -> Result<Form, Lack>
    ensures { IfOk result (λ f. f ≡ scaled queue form.now) }
{
    let multiple = times(alloc, queue.scale, form)?;
    plus(alloc, &number(alloc, u64::from(queue.base)), &multiple)
}

/// The word of queue `i` that stands for the count that `form` is, as a form where it is one: `rest` is what is known of the count's
/// remainder.
pub fn of_remainder(
    alloc: Global,
    ranges: &[Option<u64>],
    queue: Queue,
    i: u32,
    form: &Form,
    rest: Option<Form>,
) -> Result<KnownValue, Lack>
    ensures { IfOk result (λ v. v ≡ of_remainder ranges.now queue i form.now rest) }
{
    match rest {
        None => {
            if queue.scale.checked_mul(queue.modulus) == Some(WORDS)
                && u64::from(queue.base) < queue.scale
            {
                let count = plus(alloc, form, &number(alloc, queue.offset))?;
                Ok(linear(scaled(alloc, queue, &count)?))
            } else {
                Ok(index_for(i, form.copy(alloc)?))
            }
        }
        Some(rest) => {
            let word = scaled(alloc, queue, &rest)?;
            if fits_in(most(ranges, &word)?, Some(WORDS - 1)) {
                Ok(linear(word))
            } else {
                Ok(index_for(i, form.copy(alloc)?))
            }
        }
    }
}

/// The value as a form, where its index's word is one.
pub fn plain(
    alloc: Global,
    queues: &[OpenedQueue],
    ranges: &[Option<u64>],
    value: &KnownValue,
) -> Result<KnownValue, Lack>
    ensures { IfOk result (λ v. v ≡ plain (queue_in queues.now) ranges.now value.now) }
{
    match &value.known {
        Known::Any => Ok(any()),
        Known::Linear(form) => Ok(linear(form.copy(alloc)?)),
        Known::IndexFor(i, form) => {
            let queue = queue_in(queues, *i);
            let count = plus(alloc, form, &number(alloc, queue.offset))?;
            let rest = remainder(alloc, ranges, &count, queue.modulus)?;
            of_remainder(alloc, ranges, queue, *i, form, rest)
        }
        Known::SignedFor(i, form) => Ok(signed_for(*i, form.copy(alloc)?)),
        Known::EndsAs(bits, form) => Ok(ends_as(*bits, form.copy(alloc)?)),
        Known::HasBits(mask, bits) => Ok(has_bits(*mask, *bits)),
    }
}

/// Whether what has the first value has the other, as they are.
pub fn is_within_plain(queues: &[OpenedQueue], left: &KnownValue, right: &KnownValue) -> bool
    ensures { (ranges : List (Option ℕ)) → result ≡ is_within_plain (queue_in queues.now) ranges left.now right.now }
{
    match (&left.known, &right.known) {
        (_, Known::Any) => true,
        (Known::Linear(f), Known::Linear(g)) => is_same(WORDS, f, g),
        (Known::IndexFor(i, f), Known::IndexFor(j, g)) => {
            *i == *j && is_same(queue_in(queues, *i).modulus, f, g)
        }
        (Known::SignedFor(i, f), Known::SignedFor(j, g)) => {
            *i == *j && is_same(queue_in(queues, *i).modulus, f, g)
        }
        (Known::EndsAs(n, f), Known::EndsAs(m, g)) => *n == *m
            && *n <= 32
            && is_same(1 << *n, f, g),
        (Known::HasBits(m, b), Known::HasBits(n, c)) => m & n == *n && b & n == *c,
        _ => false,
    }
}

/// Whether what has the first value has the other, by their plain values.
pub fn is_within(
    alloc: Global,
    queues: &[OpenedQueue],
    ranges: &[Option<u64>],
    left: &KnownValue,
    right: &KnownValue,
) -> Result<bool, Lack>
    ensures { IfOk result (λ b. b ≡ is_within (queue_in queues.now) ranges.now left.now right.now) }
{
    let left = plain(alloc, queues, ranges, left)?;
    let right = plain(alloc, queues, ranges, right)?;
    Ok(is_within_plain(queues, &left, &right))
}
