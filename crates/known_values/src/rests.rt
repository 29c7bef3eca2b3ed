//! Numbers that are known by their remainders, as sums and differences of an index's words are.

ghost use Rattle.std.specs.Prelude.{length, ◌≡◌, ◌+◌, ◌-◌, ◌*◌, ◌/◌, ◌%◌, ◌^◌, ◌==◌, None, if◌then◌else◌, IfOk};
ghost use Rattle.queue_certificates.specs.Results.{negative, rests_added, whole, index_rest, rest_of, is_count, counting};
ghost use Rattle.known_values.specs.Queues.{queue_in};

use crate::forms::{Form, number, plus, times};
use crate::lack::{Lack, product, remainder_by};
use crate::queues::{OpenedQueue, Queue, queue_in, words_of};
use crate::values::{Known, KnownValue, scaled};
use crate::words::WORDS;
use std::alloc::Global;
use std::marker::Model;

/// A number by its remainder: it is the form's remainder by `by`, which divides 2^32.
#[derive(Drop)]
pub struct Rest {
    pub by: u64,
    pub form: Form,
}

impl Model for Rest {
    ghost use Rattle.queue_certificates.specs.Results.{Rest as RestOf};

    ghost Value = { RestOf };

    ghost view = { λ r. record { by = r.by; form = r.form } };
}

/// A number as its own remainder.
pub fn whole(form: Form) -> Option<Rest>
    ensures { result ≡ whole form }
{
    Some(Rest { by: WORDS, form })
}

/// 2^32 less the number.
pub fn negative(alloc: Global, rest: Option<Rest>) -> Result<Option<Rest>, Lack>
    ensures { IfOk result (λ r. r ≡ negative rest) }
{
    match rest {
        None => Ok(None),
        Some(rest) => Ok(Some(Rest {
            by: rest.by,
            form: times(alloc, WORDS - 1, &rest.form)?,
        })),
    }
}

/// The sum, by the lesser remainder, if it divides the other.
pub fn rests_added(
    alloc: Global,
    left: Option<Rest>,
    right: Option<Rest>,
) -> Result<Option<Rest>, Lack>
    ensures { IfOk result (λ r. r ≡ rests_added left right) }
{
    match (left, right) {
        (Some(a), Some(b)) => {
            let form = plus(alloc, &a.form, &b.form)?;
            if remainder_by(a.by, b.by) == 0 {
                Ok(Some(Rest { by: b.by, form }))
            } else if remainder_by(b.by, a.by) == 0 {
                Ok(Some(Rest { by: a.by, form }))
            } else {
                Ok(None)
            }
        }
        _ => Ok(None),
    }
}

/// Whether an index counts on in `n` words, so that each is a remainder by `n`.
fn is_count(queue: Queue, n: u64) -> bool
    ensures { result ≡ is_count queue n }
{
    queue.base == 0 && queue.scale == 1 && queue.modulus == n
}

/// The last of these queues of which the index counts on in `n` words.
pub fn counting(queues: &[OpenedQueue], n: u64) -> Result<Option<u32>, Lack>
    ensures { IfOk result (λ i. i ≡ counting (queue_in queues.now) (length queues.now) n) }
{
    let Ok(count) = u32::try_from(queues.len()) else {
        return Err(Lack::TooLarge);
    };
    let mut last = None;
    for i in 0..count {
        if is_count(queue_in(queues, i), n) {
            last = Some(i);
        }
    }
    Ok(last)
}

/// The word of a queue's index that stands for the count that `form` is, by its remainder, if that divides 2^32.
fn index_rest(alloc: Global, queue: Queue, form: &Form) -> Result<Option<Rest>, Lack>
    ensures { IfOk result (λ r. r ≡ index_rest queue form.now) }
{
    let by = product(queue.scale, queue.modulus)?;
    if remainder_by(WORDS, by) != 0 {
        return Ok(None);
    }
    let count = plus(alloc, form, &number(alloc, queue.offset))?;
    Ok(Some(Rest {
        by,
        form: scaled(alloc, queue, &count)?,
    }))
}

/// What a signed load leaves of such a word, if that also divides the number of words of the index's bytes.
fn signed_rest(alloc: Global, queue: Queue, form: &Form) -> Result<Option<Rest>, Lack>
    ensures { IfOk result (λ r. r ≡ (if 256 ^ queue.index_width % (queue.scale * queue.modulus) == 0 then index_rest queue form.now else None)) }
{
    let by = product(queue.scale, queue.modulus)?;
    if remainder_by(words_of(queue.index_width)?, by) == 0 {
        index_rest(alloc, queue, form)
    } else {
        Ok(None)
    }
}

/// What is known of a value's remainder.
pub fn rest_of(
    alloc: Global,
    queues: &[OpenedQueue],
    value: &KnownValue,
) -> Result<Option<Rest>, Lack>
    ensures { IfOk result (λ r. r ≡ rest_of (queue_in queues.now) value.now) }
{
    match &value.known {
        Known::Any => Ok(None),
        Known::Linear(form) => Ok(whole(form.copy(alloc)?)),
        Known::IndexFor(i, form) => index_rest(alloc, queue_in(queues, *i), form),
        Known::SignedFor(i, form) => signed_rest(alloc, queue_in(queues, *i), form),
        Known::EndsAs(_, _) => Ok(None),
        Known::HasBits(_, _) => Ok(None),
    }
}
