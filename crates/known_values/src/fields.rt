//! Fields of records, and whether a number that is known is one of a field's.

ghost use Rattle.std.specs.Prelude.{◌≡◌, IfOk};
ghost use Rattle.queue_certificates.specs.Fields.{last_number, is_field};
ghost use Rattle.queue_certificates.specs.Filled.{lies_in, is_number_of};

use crate::bounds::{Bounds, bounds_of, fallings, risings};
use crate::forms::{Form, vanishes};
use crate::lack::{Lack, product, remainder_by, sum};
use crate::queues::words_of;
use crate::values::{Known, KnownValue};
use crate::words::WORDS;
use queue_layouts::Queue;
use std::alloc::Global;
use std::marker::Model;

/// Of each record, the number of `width` bytes from `at` on is `low + step * j`, for some `j` that is at most `count`.
#[derive(Clone, Copy, PartialEq, Eq)]
pub struct Field {
    pub at: u32,
    pub width: u32,
    pub low: u64,
    pub step: u64,
    pub count: u64,
}

impl Model for Field {
    ghost use Rattle.queue_certificates.specs.RecordFields.{Field as FieldOf};

    ghost Value = { FieldOf };

    ghost view = { λ f. record {
      at = f.at;
      width = f.width;
      low = f.low;
      step = f.step;
      count = f.count;
    } };

    ghost inverse = { λ f. record {
      at = f.at;
      width = f.width;
      low = f.low;
      step = f.step;
      count = f.count;
    } };
}

/// The greatest of the field's numbers.
pub fn last_number(field: Field) -> Result<u64, Lack>
    ensures { IfOk result (λ n. n ≡ last_number field) }
{
    sum(field.low, product(field.step, field.count)?)
}

/// Whether the field lies in a slot, and each of its numbers fits its bytes.
pub fn is_field(queue: Queue, field: Field) -> Result<bool, Lack>
    ensures { IfOk result (λ fits. fits ≡ is_field queue field) }
{
    let end = sum(u64::from(field.at), u64::from(field.width))?;
    let last = last_number(field)?;
    let words = words_of(field.width)?;
    Ok(end <= u64::from(queue.width) && last < words)
}

/// Whether a form's remainder by 2^32, which lies between these bounds without wrapping, is one of the field's numbers.
fn lies_in(alloc: Global, bounds: Option<Bounds>, form: &Form, field: Field) -> Result<bool, Lack>
    ensures { IfOk result (λ lies. lies ≡ lies_in bounds form.now field) }
{
    match bounds {
        None => Ok(false),
        Some(bounds) => {
            let last = last_number(field)?;
            let between = field.low <= bounds.low && bounds.high <= last;
            let constant = remainder_by(form.constant % WORDS, field.step);
            let level = constant == remainder_by(field.low, field.step);
            let rising = vanishes(field.step, &risings(alloc, WORDS, &form.factors)?);
            let falling = vanishes(field.step, &fallings(alloc, WORDS, &form.factors)?);
            Ok(between && level && rising && falling)
        }
    }
}

/// Whether a number that is known so is one of the field's, whatever the variables are.
pub fn is_number_of(
    alloc: Global,
    ranges: &[Option<u64>],
    value: &KnownValue,
    field: Field,
) -> Result<bool, Lack>
    ensures { IfOk result (λ is. is ≡ is_number_of ranges.now value.now field) }
{
    match &value.known {
        Known::Any => Ok(false),
        Known::IndexFor(_, _) => Ok(false),
        Known::SignedFor(_, _) => Ok(false),
        Known::EndsAs(_, _) => Ok(false),
        Known::HasBits(_, _) => Ok(false),
        Known::Linear(form) => {
            let bounds = bounds_of(alloc, WORDS, ranges, form)?;
            lies_in(alloc, bounds, form, field)
        }
    }
}
