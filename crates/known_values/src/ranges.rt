//! Ranges of variables: each is at most a number, or any. And how large a form may be over them.

ghost use Rattle.std.specs.Prelude.{◌≡◌, ◌++◌, IfOk};
ghost use Rattle.queue_certificates.specs.Forms as forms;
ghost use Rattle.queue_certificates.specs.Forms.{most_of_multiple, added, most_of_sum, fits_in, are_in, is_none, kept};
ghost use Rattle.queue_certificates.specs.Forms.{reduced, remainder};

use crate::forms::Form;
use crate::lack::{Lack, product, remainder_by, sum};
use std::alloc::Global;

/// The most that `m` times a variable of this range may be; `None` if it may be any number.
pub fn most_of_multiple(range: Option<u64>, m: u64) -> Result<Option<u64>, Lack>
    ensures { IfOk result (λ n. n ≡ most_of_multiple range m) }
{
    match range {
        None if m == 0 => Ok(Some(0)),
        None => Ok(None),
        Some(n) => Ok(Some(product(m, n)?)),
    }
}

/// The most of a sum.
pub fn added(left: Option<u64>, right: Option<u64>) -> Result<Option<u64>, Lack>
    ensures { IfOk result (λ n. n ≡ added left right) }
{
    match (left, right) {
        (Some(a), Some(b)) => Ok(Some(sum(a, b)?)),
        _ => Ok(None),
    }
}

/// The most that the sum of these multiples of the variables may be.
#[tactic(auto, using(crate::proofs::Ends::most_ended, crate::proofs::Totals::added_assoc, crate::proofs::Totals::added_none, crate::proofs::Totals::none_added))]
pub fn most_of_sum(mut ranges: &[Option<u64>], mut factors: &[u64]) -> Result<Option<u64>, Lack>
    ensures { IfOk result (λ n. n ≡ most_of_sum ranges.now factors.now) }
{
    let mut total = Some(0);
    while let ([range, others @ ..], [m, ms @ ..]) = (ranges, factors) {
        total = added(total, most_of_multiple(*range, *m)?)?;
        ranges = others;
        factors = ms;
    }
    Ok(total)
}

/// The most that a form may be, where the variables lie in their ranges.
pub fn most(ranges: &[Option<u64>], form: &Form) -> Result<Option<u64>, Lack>
    ensures { IfOk result (λ n. n ≡ forms.most ranges.now form.now) }
{
    added(Some(form.constant), most_of_sum(ranges, &form.factors)?)
}

/// Whether what is at most `bound` lies in a range.
pub fn fits_in(bound: Option<u64>, range: Option<u64>) -> bool
    ensures { result ≡ fits_in bound range }
{
    match (bound, range) {
        (_, None) => true,
        (None, Some(_)) => false,
        (Some(b), Some(n)) => b <= n,
    }
}

/// Whether each of these forms lies in its range of `targets`, where the variables lie in theirs, and there are as many.
pub fn are_in(
    ranges: &[Option<u64>],
    mut forms: &[Form],
    mut targets: &[Option<u64>],
) -> Result<bool, Lack>
    ensures { IfOk result (λ b. b ≡ are_in ranges.now forms.now targets.now) }
{
    while let ([form, others @ ..], [target, rest @ ..]) = (forms, targets) {
        if !fits_in(most(ranges, form)?, *target) {
            return Ok(false);
        }
        forms = others;
        targets = rest;
    }
    Ok(forms.is_empty() && targets.is_empty())
}

fn is_none(range: Option<u64>) -> bool
    ensures { result ≡ is_none range }
{
    range == Some(0)
}

fn push_kept(
    out: &mut Vec<u64>,
    mut ranges: &[Option<u64>],
    mut factors: &[u64],
) -> Result<(), Lack>
    ensures { IfOk result (λ _. out.new.items ≡ out.old.items ++ kept ranges.now factors.now) }
{
    while let ([range, others @ ..], [m, rest @ ..]) = (ranges, factors) {
        out.push(if is_none(*range) { 0 } else { *m })?;
        ranges = others;
        factors = rest;
    }
    Ok(out.extend_from_slice(factors)?)
}

/// The form without the variables that can only be 0.
pub fn settled(alloc: Global, ranges: &[Option<u64>], form: &Form) -> Result<Form, Lack>
    ensures { IfOk result (λ f. f ≡ forms.settled ranges.now form.now) }
{
    let mut factors = Vec::new(alloc);
    push_kept(&mut factors, ranges, &form.factors)?;
    Ok(Form {
        constant: form.constant,
        factors,
    })
}

/// The form with each number's remainder by `modulus`; if that is 0, as it is.
pub fn reduced(alloc: Global, modulus: u64, form: &Form) -> Result<Form, Lack>
    ensures { IfOk result (λ f. f ≡ reduced modulus form.now) }
{
    let mut factors = Vec::new(alloc);
    for m in &form.factors {
        factors.push(remainder_by(*m, modulus))?;
    }
    Ok(Form {
        constant: remainder_by(form.constant, modulus),
        factors,
    })
}

/// The remainder by `modulus` as a form, where the remainders of its numbers come to less than `modulus`.
pub fn remainder(
    alloc: Global,
    ranges: &[Option<u64>],
    form: &Form,
    modulus: u64,
) -> Result<Option<Form>, Lack>
    ensures { IfOk result (λ f. f ≡ remainder ranges.now form.now modulus) }
{
    if modulus == 0 {
        return Ok(None);
    }
    let rest = reduced(alloc, modulus, form)?;
    if fits_in(most(ranges, &rest)?, Some(modulus - 1)) {
        Ok(Some(rest))
    } else {
        Ok(None)
    }
}
