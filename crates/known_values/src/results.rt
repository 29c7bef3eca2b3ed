//! What an instruction leaves in a register, as far as it is known.

ghost use Rattle.std.specs.Prelude.{◌≡◌, ◌+◌, ◌*◌, ◌%◌, ◌^◌, ◌<◌, ◌≤◌, ◌==◌, ◌&&◌, count_ones, length, [], IfOk};
ghost use Rattle.std.specs.Int.{trailing_zeros, w32};
ghost use Rattle.queue_certificates.specs.Forms as forms;
ghost use Rattle.queue_certificates.specs.Forms.{remainder_word, times};
ghost use Rattle.queue_certificates.specs.States.{any};
ghost use Rattle.queue_certificates.specs.Results.{just, exactly, any_up_to, or_up_to, flag_of, set_less, shifted_left, shifted_right};
ghost use Rattle.queue_certificates.specs.Results.{sum_of, xor_of, of_rest, rest_of, turned, counting, as_number};
ghost use Rattle.queue_certificates.specs.Results.{rest_counted, remaining, multiple_or, masked_row, masked, masked_by, kept_bits, ending_in, ending_by};
ghost use Rattle.queue_certificates.specs.Results.{without, shifted_back};
ghost use Rattle.queue_certificates.specs.Results.{immediate_part, of_immediate, shift_part, shifted_with_sign, of_shift, register_part, of_registers};
ghost use Rattle.queue_certificates.specs.Results.{is_less, branch_part, is_branch_taken};
ghost use Rattle.known_values.specs.Queues.{queue_in};

use crate::bits::{keeps_unknown, known_beside, mask_left, mask_right, of_bits, or_of, sign_or};
use crate::bounds::{Bounds, bounds_of, remainder_word};
use crate::comparisons::{is_below, is_below_signed, is_equal, negated};
use crate::forms::{Form, first_variable, is_same, lifted, number, plus, times};
use crate::lack::{Lack, remainder_by};
use crate::numbers::{as_number, bounds};
use crate::queues::{OpenedQueue, queue_in};
use crate::ranges::most;
use crate::rests::{Rest, counting, negative, rest_of, rests_added, whole};
use crate::values::{
    Known, KnownValue, any, ends_as, index_for, lifted_value, linear, times_value,
};
use crate::words::{WORDS, computed, is_taken, shifted, with_immediate};
use rv_decode::instruction::{BranchOp, ImmediateOp, RegisterOp, ShiftOp};
use std::alloc::Global;
use std::marker::Model;

/// A value over one variable more, the first, which is at most `most`.
#[derive(Drop)]
pub struct Outcome {
    pub most: u64,
    pub value: KnownValue,
}

impl Model for Outcome {
    ghost use Rattle.queue_certificates.specs.Results.{Result as ResultOf};

    ghost Value = { ResultOf };

    ghost view = { λ r. record { most = r.most; value = r.value } };
}

/// The value, over a first variable that is 0.
pub fn just(alloc: Global, value: &KnownValue) -> Result<Outcome, Lack>
    ensures { IfOk result (λ r. r ≡ just value.now) }
{
    Ok(Outcome {
        most: 0,
        value: lifted_value(alloc, value)?,
    })
}

/// The number; any, if it is no word.
pub fn exactly(alloc: Global, n: u64) -> Result<Outcome, Lack>
    ensures { IfOk result (λ r. r ≡ exactly n) }
{
    if n < WORDS {
        just(alloc, &linear(number(alloc, n)))
    } else {
        just(alloc, &any())
    }
}

/// Some number up to `n`; any, if `n` is no word.
pub fn any_up_to(alloc: Global, n: u64) -> Result<Outcome, Lack>
    ensures { IfOk result (λ r. r ≡ any_up_to n) }
{
    if n < WORDS {
        Ok(Outcome {
            most: n,
            value: linear(first_variable(alloc)?),
        })
    } else {
        just(alloc, &any())
    }
}

/// What is known, or some number up to `n`.
pub fn or_up_to(alloc: Global, n: u64, value: &KnownValue) -> Result<Outcome, Lack>
    ensures { IfOk result (λ r. r ≡ or_up_to n value.now) }
{
    match &value.known {
        Known::Any => any_up_to(alloc, n),
        _ => just(alloc, value),
    }
}

/// The word of what is known: 1 if it is so, 0 if not, else one of both.
pub fn flag_of(alloc: Global, known: Option<bool>) -> Result<Outcome, Lack>
    ensures { IfOk result (λ r. r ≡ flag_of known) }
{
    match known {
        None => any_up_to(alloc, 1),
        Some(b) => exactly(alloc, u64::from(b)),
    }
}

/// Whether a number is below `n`, in two's complement.
pub fn set_less(alloc: Global, bounds: Option<Bounds>, n: i32) -> Result<Outcome, Lack>
    ensures { IfOk result (λ r. r ≡ set_less bounds n) }
{
    if n < 0 {
        return any_up_to(alloc, 1);
    }
    let n = u64::from(n.cast_unsigned());
    flag_of(
        alloc,
        is_below_signed(bounds, Some(Bounds { low: n, high: n })),
    )
}

/// The value, shifted left.
pub fn shifted_left(
    alloc: Global,
    queues: &[OpenedQueue],
    value: &KnownValue,
    amount: u32,
) -> Result<Outcome, Lack>
    requires { amount < 32 }
    ensures { IfOk result (λ r. r ≡ shifted_left (queue_in queues.now) value.now amount) }
{
    match &value.known {
        Known::Linear(form) => just(alloc, &linear(times(alloc, 1 << amount, form)?)),
        Known::HasBits(mask, bits) => {
            just(
                alloc,
                &of_bits(alloc, mask_left(*mask, amount), *bits << amount),
            )
        }
        _ => {
            let all = of_rest(alloc, rest_of(alloc, queues, value)?)?;
            Ok(Outcome {
                most: all.most,
                value: times_value(alloc, 1 << amount, &all.value)?,
            })
        }
    }
}

/// A number of these bounds, shifted right.
pub fn shifted_right(alloc: Global, bounds: Option<Bounds>, amount: u32) -> Result<Outcome, Lack>
    requires { amount < 32 }
    ensures { IfOk result (λ r. r ≡ shifted_right bounds amount) }
{
    match bounds {
        None => just(alloc, &any()),
        Some(b) => any_up_to(alloc, b.high >> amount),
    }
}

/// The sum of two values.
pub fn sum_of(alloc: Global, left: &KnownValue, right: &KnownValue) -> Result<KnownValue, Lack>
    ensures { IfOk result (λ v. v ≡ sum_of left.now right.now) }
{
    match (&left.known, &right.known) {
        (Known::Linear(f), Known::Linear(g)) => Ok(linear(plus(alloc, f, g)?)),
        _ => Ok(any()),
    }
}

/// The `xor` of two values: it ends in as many zeros as their difference.
fn xor_of(alloc: Global, left: &KnownValue, right: &KnownValue) -> Result<KnownValue, Lack>
    ensures { IfOk result (λ v. v ≡ xor_of left.now right.now) }
{
    match (&left.known, &right.known) {
        (Known::Linear(f), Known::Linear(g)) => {
            let less = times(alloc, WORDS - 1, g)?;
            Ok(ends_as(32, plus(alloc, f, &less)?))
        }
        _ => Ok(any()),
    }
}

/// All numbers of which this remainder is known: a multiple of a number that isn't known is added.
pub fn of_rest(alloc: Global, rest: Option<Rest>) -> Result<Outcome, Lack>
    ensures { IfOk result (λ r. r ≡ of_rest rest) }
{
    let Some(rest) = rest else {
        return just(alloc, &any());
    };
    let rounds = if rest.by == 0 { 0 } else { WORDS / rest.by };
    let multiple = times(alloc, rest.by, &first_variable(alloc)?)?;
    Ok(Outcome {
        most: rounds.saturating_sub(1),
        value: linear(plus(alloc, &lifted(alloc, &rest.form)?, &multiple)?),
    })
}

/// The value with all its bits turned, where the mask has them all.
pub fn turned(alloc: Global, value: &KnownValue, mask: u32) -> Result<Outcome, Lack>
    ensures { IfOk result (λ r. r ≡ turned value.now mask) }
{
    match &value.known {
        Known::Linear(form) if mask == u32::MAX => {
            let less = times(alloc, WORDS - 1, form)?;
            just(
                alloc,
                &linear(plus(alloc, &number(alloc, WORDS - 1), &less)?),
            )
        }
        _ => just(alloc, &any()),
    }
}

/// Whether the mask keeps low bits alone, and no more of them than make a remainder by `by`.
fn is_low(by: u64, mask: u32) -> bool
    ensures { result ≡ ((mask + 1 == 2 ^ count_ones mask) && (by % (mask + 1) == 0)) }
{
    let above = u64::from(mask) + 1;
    above == 1 << mask.count_ones() && by % above == 0
}

/// The remainder of a form by `n` as a word of an index that counts on in `n` words, if there is one; or the other.
fn rest_counted(
    alloc: Global,
    queues: &[OpenedQueue],
    n: u64,
    form: &Form,
    other: Outcome,
) -> Result<Outcome, Lack>
    ensures { IfOk result (λ r. r ≡ rest_counted (queue_in queues.now) n form.now (counting (queue_in queues.now) (length queues.now) n) other) }
{
    match counting(queues, n)? {
        None => Ok(other),
        Some(i) => {
            let less = remainder_by(queue_in(queues, i).offset, n);
            let rest = number(alloc, n.saturating_sub(less));
            just(alloc, &index_for(i, plus(alloc, form, &rest)?))
        }
    }
}

/// The remainder of a form by `n`, at most 2^32, as a form or as a word of an index, if it is one; or the other.
fn remaining(
    alloc: Global,
    queues: &[OpenedQueue],
    ranges: &[Option<u64>],
    n: u64,
    form: &Form,
    other: Outcome,
) -> Result<Outcome, Lack>
    ensures { IfOk result (λ r. r ≡ remaining (queue_in queues.now) (length queues.now) ranges.now n form.now (remainder_word ranges.now form.now n) other) }
{
    if let Some(rest) = remainder_word(alloc, ranges, form, n)? {
        return just(alloc, &linear(rest));
    }
    match most(ranges, form)? {
        None => rest_counted(alloc, queues, n, form, other),
        Some(_) => Ok(other),
    }
}

/// `n` times a form, if it is one; or the other.
fn multiple_or(alloc: Global, n: u64, form: Option<Form>, other: Outcome) -> Result<Outcome, Lack>
    ensures { IfOk result (λ r. r ≡ multiple_or n form other) }
{
    match form {
        None => Ok(other),
        Some(form) => just(alloc, &linear(times(alloc, n, &form)?)),
    }
}

/// Whether the mask keeps bits in a row from `low` on, and no more of them than make a remainder by `by`.
fn is_row(by: u64, mask: u32, low: u64) -> bool
    requires { low ≤ 2 ^ 32 }
    ensures { result ≡ ((mask + low == low * 2 ^ count_ones mask) && (by % (mask + low) == 0)) }
{
    let above = u64::from(mask) + low;
    above == low << mask.count_ones() && remainder_by(by, above) == 0
}

/// The lowest bit of a mask; the one past them all, if it has none.
fn lowest(mask: u32) -> u64
    ensures value { result ≡ 2 ^ trailing_zeros w32 mask }
    ensures some { 1 ≤ result }
    ensures small { result ≤ 2 ^ 32 }
{
    1 << mask.trailing_zeros()
}

/// Whether a form is `n` times another.
fn is_multiple(alloc: Global, n: u64, form: &Form, part: &Form) -> Result<bool, Lack>
    ensures { IfOk result (λ same. same ≡ forms.is_same 0 form.now (times n part.now)) }
{
    Ok(is_same(0, form, &times(alloc, n, part)?))
}

/// `low` times the remainder of `part` by as many words as the mask has bits for, if that is a form; or some number up to the mask.
fn kept_multiple(
    alloc: Global,
    ranges: &[Option<u64>],
    part: &Form,
    mask: u32,
    low: u64,
) -> Result<Outcome, Lack>
    ensures { IfOk result (λ r. r ≡ multiple_or low (remainder_word ranges.now part.now (2 ^ count_ones mask)) (any_up_to mask)) }
{
    let kept = remainder_word(alloc, ranges, part, 1 << mask.count_ones())?;
    multiple_or(alloc, low, kept, any_up_to(alloc, u64::from(mask))?)
}

/// The bits in a row that `mask` keeps of a multiple of the lowest of them, or some number up to it.
fn masked_row(
    alloc: Global,
    ranges: &[Option<u64>],
    rest: &Rest,
    mask: u32,
    low: u64,
) -> Result<Outcome, Lack>
    requires some { 1 ≤ low }
    requires small { low ≤ 2 ^ 32 }
    ensures { IfOk result (λ r. r ≡ masked_row ranges.now rest.now mask low) }
{
    let part = without(alloc, low, &rest.form)?;
    let multiple = is_multiple(alloc, low, &rest.form, &part)?;
    if is_row(rest.by, mask, low) && multiple {
        kept_multiple(alloc, ranges, &part, mask, low)
    } else {
        any_up_to(alloc, u64::from(mask))
    }
}

/// The low bits that `mask` keeps, or bits in a row, or some number up to it.
pub fn masked(
    alloc: Global,
    queues: &[OpenedQueue],
    ranges: &[Option<u64>],
    rest: Option<Rest>,
    mask: u32,
) -> Result<Outcome, Lack>
    ensures { IfOk result (λ r. r ≡ masked (queue_in queues.now) (length queues.now) ranges.now rest mask) }
{
    let other = any_up_to(alloc, u64::from(mask))?;
    match rest {
        Some(rest) if is_low(rest.by, mask) => {
            remaining(
                alloc,
                queues,
                ranges,
                u64::from(mask) + 1,
                &rest.form,
                other,
            )
        }
        Some(rest) => masked_row(alloc, ranges, &rest, mask, lowest(mask)),
        None => Ok(other),
    }
}

/// The bits that `mask` keeps of known ones; or the other, where it keeps few low bits of which none is known.
fn kept_bits(
    alloc: Global,
    known: u32,
    bits: u32,
    mask: u32,
    other: Outcome,
) -> Result<Outcome, Lack>
    ensures { IfOk result (λ r. r ≡ kept_bits known bits mask other) }
{
    if keeps_unknown(known, mask) {
        Ok(other)
    } else {
        just(
            alloc,
            &of_bits(alloc, known_beside(known, mask), bits & mask),
        )
    }
}

/// The bits that `mask` keeps of a value that ends as a form does, or some of whose bits are known; or the other.
fn ending_in(alloc: Global, value: &KnownValue, mask: u32, other: Outcome) -> Result<Outcome, Lack>
    ensures { IfOk result (λ r. r ≡ ending_in value.now mask other) }
{
    let above = u64::from(mask) + 1;
    match &value.known {
        Known::EndsAs(bits, form)
            if above == 1 << mask.count_ones() && mask.count_ones() <= *bits => {
            just(alloc, &ends_as(mask.count_ones(), form.copy(alloc)?))
        }
        Known::HasBits(known, bits) => kept_bits(alloc, *known, *bits, mask, other),
        _ => Ok(other),
    }
}

/// The bits of a value that `mask` keeps.
fn kept(
    alloc: Global,
    queues: &[OpenedQueue],
    ranges: &[Option<u64>],
    value: &KnownValue,
    mask: u32,
) -> Result<Outcome, Lack>
    ensures { IfOk result (λ r. r ≡ ending_in value.now mask (masked (queue_in queues.now) (length queues.now) ranges.now
        (rest_of (queue_in queues.now) value.now) mask)) }
{
    let other = masked(alloc, queues, ranges, rest_of(alloc, queues, value)?, mask)?;
    ending_in(alloc, value, mask, other)
}

fn immediate_part(
    alloc: Global,
    queues: &[OpenedQueue],
    ranges: &[Option<u64>],
    op: ImmediateOp,
    value: &KnownValue,
    n: i32,
) -> Result<Outcome, Lack>
    ensures { IfOk result (λ r. r ≡ immediate_part (queue_in queues.now) (length queues.now) ranges.now op value.now n) }
{
    let word = n.cast_unsigned();
    match op {
        ImmediateOp::Add => {
            let rest = rest_of(alloc, queues, value)?;
            let given = whole(number(alloc, u64::from(word)));
            of_rest(alloc, rests_added(alloc, rest, given)?)
        }
        ImmediateOp::And => kept(alloc, queues, ranges, value, word),
        ImmediateOp::SetLess => set_less(alloc, bounds(alloc, ranges, value)?, n),
        ImmediateOp::SetLessUnsigned => {
            let right = bounds(alloc, ranges, &linear(number(alloc, u64::from(word))))?;
            flag_of(alloc, is_below(bounds(alloc, ranges, value)?, right))
        }
        ImmediateOp::Xor => turned(alloc, value, word),
        ImmediateOp::Or => {
            let right = linear(number(alloc, u64::from(word)));
            just(alloc, &or_of(alloc, value, &right))
        }
    }
}

/// What an operation of a value and an immediate leaves.
pub fn of_immediate(
    alloc: Global,
    queues: &[OpenedQueue],
    ranges: &[Option<u64>],
    op: ImmediateOp,
    value: &KnownValue,
    n: i32,
) -> Result<Outcome, Lack>
    ensures { IfOk result (λ r. r ≡ of_immediate (queue_in queues.now) (length queues.now) ranges.now op value.now n) }
{
    match as_number(value) {
        Some(a) => exactly(alloc, u64::from(with_immediate(op, a, n))),
        None => immediate_part(alloc, queues, ranges, op, value, n),
    }
}

/// The form's numbers, each divided by `n`.
fn without(alloc: Global, n: u64, form: &Form) -> Result<Form, Lack>
    requires { 1 ≤ n }
    ensures { IfOk result (λ f. f ≡ without [] n form.now) }
{
    let mut factors = Vec::new(alloc);
    for m in &form.factors {
        factors.push(*m / n)?;
    }
    Ok(Form {
        constant: form.constant / n,
        factors,
    })
}

/// The value, shifted right.
pub fn shifted_back(
    alloc: Global,
    queues: &[OpenedQueue],
    ranges: &[Option<u64>],
    value: &KnownValue,
    amount: u32,
) -> Result<Outcome, Lack>
    requires { amount < 32 }
    ensures { IfOk result (λ r. r ≡ shifted_back (queue_in queues.now) (length queues.now) ranges.now value.now amount) }
{
    if let Known::HasBits(mask, bits) = &value.known {
        return just(
            alloc,
            &of_bits(alloc, mask_right(*mask, amount), *bits >> amount),
        );
    }
    let Known::Linear(form) = &value.known else {
        return just(alloc, &any());
    };
    let power = 1 << amount;
    let part = without(alloc, power, form)?;
    let other = shifted_right(alloc, bounds_of(alloc, WORDS, ranges, form)?, amount)?;
    if !is_same(0, form, &times(alloc, power, &part)?) {
        return Ok(other);
    }
    remaining(alloc, queues, ranges, 1 << (32 - amount), &part, other)
}

/// The value, shifted right with its sign.
fn shifted_with_sign(alloc: Global, value: &KnownValue, amount: u32) -> Result<Outcome, Lack>
    requires { amount < 32 }
    ensures { IfOk result (λ r. r ≡ shifted_with_sign value.now amount) }
{
    let Known::HasBits(mask, bits) = &value.known else {
        return just(alloc, &any());
    };
    let known = shifted(ShiftOp::RightArithmetic, *mask, amount);
    let bits = shifted(ShiftOp::RightArithmetic, *bits, amount);
    just(alloc, &of_bits(alloc, known, bits))
}

fn shift_part(
    alloc: Global,
    queues: &[OpenedQueue],
    ranges: &[Option<u64>],
    op: ShiftOp,
    value: &KnownValue,
    amount: u32,
) -> Result<Outcome, Lack>
    requires { amount < 32 }
    ensures { IfOk result (λ r. r ≡ shift_part (queue_in queues.now) (length queues.now) ranges.now op value.now amount) }
{
    match op {
        ShiftOp::Left => shifted_left(alloc, queues, value, amount),
        ShiftOp::Right => shifted_back(alloc, queues, ranges, value, amount),
        ShiftOp::RightArithmetic => shifted_with_sign(alloc, value, amount),
    }
}

/// What a shift of a value by a constant amount leaves.
pub fn of_shift(
    alloc: Global,
    queues: &[OpenedQueue],
    ranges: &[Option<u64>],
    op: ShiftOp,
    value: &KnownValue,
    amount: u32,
) -> Result<Outcome, Lack>
    requires { amount < 32 }
    ensures { IfOk result (λ r. r ≡ of_shift (queue_in queues.now) (length queues.now) ranges.now op value.now amount) }
{
    match as_number(value) {
        Some(a) => exactly(alloc, u64::from(shifted(op, a, amount))),
        None => shift_part(alloc, queues, ranges, op, value, amount),
    }
}

/// Two values of which one may be a mask.
fn masked_either(
    alloc: Global,
    queues: &[OpenedQueue],
    ranges: &[Option<u64>],
    left: &KnownValue,
    right: &KnownValue,
) -> Result<Outcome, Lack>
    ensures { IfOk result (λ r. r ≡ masked_by (queue_in queues.now) (length queues.now) ranges.now (rest_of (queue_in queues.now) left.now)
        (as_number right.now) (masked_by (queue_in queues.now) (length queues.now) ranges.now (rest_of (queue_in queues.now) right.now)
        (as_number left.now) (just any))) }
{
    if let Some(mask) = as_number(right) {
        return masked(alloc, queues, ranges, rest_of(alloc, queues, left)?, mask);
    }
    match as_number(left) {
        Some(mask) => masked(alloc, queues, ranges, rest_of(alloc, queues, right)?, mask),
        None => just(alloc, &any()),
    }
}

/// Two values of which one may be a mask of the other's low bits; or the other outcome.
fn ending_either(
    alloc: Global,
    left: &KnownValue,
    right: &KnownValue,
    other: Outcome,
) -> Result<Outcome, Lack>
    ensures { IfOk result (λ r. r ≡ ending_by left.now (as_number right.now) (ending_by right.now (as_number left.now) other)) }
{
    let either = match as_number(left) {
        Some(mask) => ending_in(alloc, right, mask, other)?,
        None => other,
    };
    match as_number(right) {
        Some(mask) => ending_in(alloc, left, mask, either),
        None => Ok(either),
    }
}

fn register_part(
    alloc: Global,
    queues: &[OpenedQueue],
    ranges: &[Option<u64>],
    op: RegisterOp,
    left: &KnownValue,
    right: &KnownValue,
) -> Result<Outcome, Lack>
    ensures { IfOk result (λ r. r ≡ register_part (queue_in queues.now) (length queues.now) ranges.now op left.now right.now) }
{
    match op {
        RegisterOp::Add => {
            let rest = rest_of(alloc, queues, left)?;
            of_rest(
                alloc,
                rests_added(alloc, rest, rest_of(alloc, queues, right)?)?,
            )
        }
        RegisterOp::Sub => {
            let rest = rest_of(alloc, queues, left)?;
            let less = negative(alloc, rest_of(alloc, queues, right)?)?;
            of_rest(alloc, rests_added(alloc, rest, less)?)
        }
        RegisterOp::SetLess => {
            let low = bounds(alloc, ranges, left)?;
            flag_of(alloc, is_below_signed(low, bounds(alloc, ranges, right)?))
        }
        RegisterOp::SetLessUnsigned => {
            let low = bounds(alloc, ranges, left)?;
            flag_of(alloc, is_below(low, bounds(alloc, ranges, right)?))
        }
        RegisterOp::And => {
            let other = masked_either(alloc, queues, ranges, left, right)?;
            ending_either(alloc, left, right, other)
        }
        RegisterOp::Xor => just(alloc, &xor_of(alloc, left, right)?),
        RegisterOp::Or => just(alloc, &or_of(alloc, left, right)),
        RegisterOp::ShiftLeft | RegisterOp::ShiftRight | RegisterOp::ShiftRightArithmetic => just(
            alloc,
            &any(),
        ),
    }
}

/// What an operation of two values leaves.
pub fn of_registers(
    alloc: Global,
    queues: &[OpenedQueue],
    ranges: &[Option<u64>],
    op: RegisterOp,
    left: &KnownValue,
    right: &KnownValue,
) -> Result<Outcome, Lack>
    ensures { IfOk result (λ r. r ≡ of_registers (queue_in queues.now) (length queues.now) ranges.now op left.now right.now) }
{
    match (as_number(left), as_number(right)) {
        (Some(a), Some(b)) => exactly(alloc, u64::from(computed(op, a, b))),
        _ => register_part(alloc, queues, ranges, op, left, right),
    }
}

/// Whether one value is below the other, in two's complement.
fn is_less(
    alloc: Global,
    ranges: &[Option<u64>],
    left: &KnownValue,
    right: &KnownValue,
) -> Result<Option<bool>, Lack>
    ensures { IfOk result (λ b. b ≡ is_less ranges.now left.now right.now) }
{
    let low = bounds(alloc, ranges, left)?;
    let below = is_below_signed(low, bounds(alloc, ranges, right)?);
    Ok(sign_or(left, as_number(right), below))
}

fn branch_part(
    alloc: Global,
    queues: &[OpenedQueue],
    ranges: &[Option<u64>],
    op: BranchOp,
    left: &KnownValue,
    right: &KnownValue,
) -> Result<Option<bool>, Lack>
    ensures { IfOk result (λ b. b ≡ branch_part (queue_in queues.now) ranges.now op left.now right.now) }
{
    match op {
        BranchOp::Equal => is_equal(alloc, queues, ranges, left, right),
        BranchOp::NotEqual => Ok(negated(is_equal(alloc, queues, ranges, left, right)?)),
        BranchOp::Less => is_less(alloc, ranges, left, right),
        BranchOp::GreaterEqual => Ok(negated(is_less(alloc, ranges, left, right)?)),
        BranchOp::LessUnsigned => {
            let low = bounds(alloc, ranges, left)?;
            Ok(is_below(low, bounds(alloc, ranges, right)?))
        }
        BranchOp::GreaterEqualUnsigned => {
            let low = bounds(alloc, ranges, left)?;
            Ok(negated(is_below(low, bounds(alloc, ranges, right)?)))
        }
    }
}

/// Whether a branch is taken, where that is known.
pub fn is_branch_taken(
    alloc: Global,
    queues: &[OpenedQueue],
    ranges: &[Option<u64>],
    op: BranchOp,
    left: &KnownValue,
    right: &KnownValue,
) -> Result<Option<bool>, Lack>
    ensures { IfOk result (λ b. b ≡ is_branch_taken (queue_in queues.now) ranges.now op left.now right.now) }
{
    match (as_number(left), as_number(right)) {
        (Some(a), Some(b)) => Ok(Some(is_taken(op, a, b))),
        _ => branch_part(alloc, queues, ranges, op, left, right),
    }
}
