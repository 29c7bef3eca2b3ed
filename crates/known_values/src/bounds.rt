//! Bounds of a form's remainder, where it doesn't wrap.

ghost use Rattle.std.specs.Prelude.{◌≡◌, ◌-◌, ◌%◌, IfOk};
ghost use Rattle.queue_certificates.specs.Forms.{risings, fallings, bounds_between, bounds_of, balanced, remainder_word};

use crate::forms::Form;
use crate::lack::{Lack, remainder_by};
use crate::ranges::{most_of_sum, remainder};
use crate::words::WORDS;
use std::alloc::Global;
use std::marker::Model;

/// A number from `low` to `high`, both included.
#[derive(Clone, Copy, PartialEq, Eq)]
pub struct Bounds {
    pub low: u64,
    pub high: u64,
}

impl Model for Bounds {
    ghost use Rattle.queue_certificates.specs.Forms.{Bounds as BoundsOf};

    ghost Value = { BoundsOf };

    ghost view = { λ b. record { low = b.low; high = b.high } };

    ghost inverse = { λ b. record { low = b.low; high = b.high } };
}

/// How far the remainder by `modulus` is below it.
fn gap(modulus: u64, m: u64) -> u64
    ensures { result ≡ modulus - m % modulus }
{
    modulus.saturating_sub(remainder_by(m, modulus))
}

pub(crate) fn risings(alloc: Global, modulus: u64, mut factors: &[u64]) -> Result<Vec<u64>, Lack>
    ensures { IfOk result (λ ms. ms.items ≡ risings modulus factors.now) }
{
    let mut rising = Vec::new(alloc);
    while let [m, others @ ..] = factors {
        let rest = remainder_by(*m, modulus);
        rising.push(if gap(modulus, *m) <= rest { 0 } else { rest })?;
        factors = others;
    }
    Ok(rising)
}

pub(crate) fn fallings(alloc: Global, modulus: u64, mut factors: &[u64]) -> Result<Vec<u64>, Lack>
    ensures { IfOk result (λ ms. ms.items ≡ fallings modulus factors.now) }
{
    let mut falling = Vec::new(alloc);
    while let [m, others @ ..] = factors {
        let below = gap(modulus, *m);
        falling.push(if below <= remainder_by(*m, modulus) {
            below
        } else {
            0
        })?;
        factors = others;
    }
    Ok(falling)
}

fn bounds_between(modulus: u64, constant: u64, up: Option<u64>, down: Option<u64>) -> Option<Bounds>
    ensures { result ≡ bounds_between modulus constant up down }
{
    match (up, down) {
        (Some(up), Some(down)) if down <= constant && up < modulus && constant < modulus - up =>
            Some(Bounds {
                low: constant - down,
                high: constant + up,
            }),
        _ => None,
    }
}

/// The bounds of a form's remainder by `modulus`, where it doesn't wrap. A factor that is no farther from `modulus` than from 0 counts
/// as negative.
pub fn bounds_of(
    alloc: Global,
    modulus: u64,
    ranges: &[Option<u64>],
    form: &Form,
) -> Result<Option<Bounds>, Lack>
    ensures { IfOk result (λ b. b ≡ bounds_of modulus ranges.now form.now) }
{
    let up = most_of_sum(ranges, &risings(alloc, modulus, &form.factors)?)?;
    let down = most_of_sum(ranges, &fallings(alloc, modulus, &form.factors)?)?;
    Ok(bounds_between(modulus, remainder_by(form.constant, modulus), up, down))
}

fn balanced(alloc: Global, modulus: u64, mut factors: &[u64]) -> Result<Vec<u64>, Lack>
    ensures { IfOk result (λ ms. ms.items ≡ balanced modulus factors.now) }
{
    let mut words = Vec::new(alloc);
    while let [m, others @ ..] = factors {
        let below = gap(modulus, *m);
        let rest = remainder_by(*m, modulus);
        words.push(if below <= rest {
            WORDS.saturating_sub(below)
        } else {
            rest
        })?;
        factors = others;
    }
    Ok(words)
}

/// The remainder by `modulus`, at most 2^32, as a word. Where it doesn't wrap, its factors may count as negative.
pub fn remainder_word(
    alloc: Global,
    ranges: &[Option<u64>],
    form: &Form,
    modulus: u64,
) -> Result<Option<Form>, Lack>
    ensures { IfOk result (λ f. f ≡ remainder_word ranges.now form.now modulus) }
{
    let rest = remainder(alloc, ranges, form, modulus)?;
    if rest.is_some() {
        return Ok(rest);
    }
    if bounds_of(alloc, modulus, ranges, form)?.is_none() {
        return Ok(None);
    }
    Ok(Some(Form {
        constant: remainder_by(form.constant, modulus),
        factors: balanced(alloc, modulus, &form.factors)?,
    }))
}
