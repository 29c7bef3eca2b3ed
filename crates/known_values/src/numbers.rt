//! Which number a value is, between which bounds, and whether it is 0.

ghost use Rattle.std.specs.Prelude.{◌≡◌, ◌≤◌, IfOk};
ghost use Rattle.queue_certificates.specs.Results.{as_number, bounds, bounds_by, is_nothing, is_zero};

use crate::bounds::{Bounds, bounds_of};
use crate::forms::vanishes;
use crate::lack::Lack;
use crate::values::{Known, KnownValue};
use crate::words::WORDS;
use std::alloc::Global;

/// The number, where a value is one.
pub fn as_number(value: &KnownValue) -> Option<u32>
    ensures { result ≡ as_number value.now }
{
    match &value.known {
        Known::Linear(form) if vanishes(WORDS, &form.factors) => Some(
            (form.constant % WORDS) as u32,
        ),
        _ => None,
    }
}

/// Whether a number is 0, where its bounds show it.
pub fn is_nothing(bounds: Option<Bounds>) -> Option<bool>
    ensures { result ≡ is_nothing bounds }
{
    match bounds {
        Some(b) if 0 < b.low => Some(false),
        Some(b) if b.high == 0 => Some(true),
        _ => None,
    }
}

/// The bounds of a number of these bits, where it is known whether it is 0.
fn bounds_by(bits: u32, nothing: Option<bool>) -> Option<Bounds>
    requires { bits ≤ 32 }
    ensures { result ≡ bounds_by bits nothing }
{
    match nothing {
        None => None,
        Some(true) => Some(Bounds { low: 0, high: 0 }),
        Some(false) => Some(Bounds {
            low: 1,
            high: (1 << bits) - 1,
        }),
    }
}

/// The bounds of a value as a word, where it is a form that doesn't wrap, or is known to be 0 or not.
pub fn bounds(
    alloc: Global,
    ranges: &[Option<u64>],
    value: &KnownValue,
) -> Result<Option<Bounds>, Lack>
    ensures { IfOk result (λ b. b ≡ bounds ranges.now value.now) }
{
    match &value.known {
        Known::Linear(form) => bounds_of(alloc, WORDS, ranges, form),
        Known::EndsAs(bits, form) if 1 <= *bits && *bits <= 32 => {
            let ends = bounds_of(alloc, 1 << *bits, ranges, form)?;
            Ok(bounds_by(*bits, is_nothing(ends)))
        }
        _ => Ok(None),
    }
}

/// Whether a value is this number, where that is 0.
pub fn is_zero(
    alloc: Global,
    ranges: &[Option<u64>],
    value: &KnownValue,
    number: Option<u32>,
) -> Result<Option<bool>, Lack>
    ensures { IfOk result (λ b. b ≡ is_zero ranges.now value.now number) }
{
    match number {
        Some(0) => Ok(is_nothing(bounds(alloc, ranges, value)?)),
        _ => Ok(None),
    }
}
