//! What is known of a state's variables beside their ranges: that one form of them is at most another.

ghost use Rattle.std.specs.Prelude.{◌≡◌, IfOk, map};
ghost use Rattle.std.specs.List.{list_any};
ghost use Rattle.queue_certificates.specs.Forms as forms;
ghost use Rattle.queue_certificates.specs.Forms.{lifted};
ghost use Rattle.queue_certificates.specs.Facts as shown;
ghost use Rattle.queue_certificates.specs.Facts.{is_under, is_by, weighed, differing, fact_by};

use crate::forms::{Form, first_variable, lifted, minus, number, plus, times};
use crate::lack::Lack;
use crate::ranges::{added, fits_in, most_of_sum};
use std::alloc::Global;
use std::marker::Model;

/// The form `below` is at most the form `above`.
#[derive(Drop)]
pub struct Fact {
    pub below: Form,
    pub above: Form,
}

impl Model for Fact {
    ghost use Rattle.queue_certificates.specs.Facts.{Fact as FactOf};

    ghost Value = { FactOf };

    ghost view = { λ h. record { below = h.below; above = h.above } };
}

/// Whether a form is at most another factor by factor, where what it has more of a variable is at most what the range allows.
fn is_under(alloc: Global, ranges: &[Option<u64>], below: &Form, above: &Form) -> Result<bool, Lack>
    ensures { IfOk result (λ b. b ≡ is_under ranges.now below.now above.now) }
{
    let more = minus(alloc, below, above)?;
    let most = added(Some(below.constant), most_of_sum(ranges, &more.factors)?)?;
    Ok(fits_in(most, Some(above.constant)))
}

/// Whether it is by a fact: with what the fact has above it is at most the other with what the fact has below.
fn is_by(
    alloc: Global,
    ranges: &[Option<u64>],
    fact: &Fact,
    below: &Form,
    above: &Form,
) -> Result<bool, Lack>
    ensures { IfOk result (λ b. b ≡ is_by ranges.now fact.now below.now above.now) }
{
    let left = plus(alloc, below, &fact.above)?;
    let right = plus(alloc, above, &fact.below)?;
    is_under(alloc, ranges, &left, &right)
}

fn is_by_any(
    alloc: Global,
    ranges: &[Option<u64>],
    mut facts: &[Fact],
    below: &Form,
    above: &Form,
) -> Result<bool, Lack>
    ensures { IfOk result (λ b. b ≡ list_any (λ h. is_by ranges.now h below.now above.now) facts.now) }
{
    while let [fact, others @ ..] = facts {
        if is_by(alloc, ranges, fact, below, above)? {
            return Ok(true);
        }
        facts = others;
    }
    Ok(false)
}

/// Whether the ranges, or they and one of the facts, show that a form is at most another.
pub fn is_shown(
    alloc: Global,
    ranges: &[Option<u64>],
    facts: &[Fact],
    below: &Form,
    above: &Form,
) -> Result<bool, Lack>
    ensures { IfOk result (λ b. b ≡ shown.is_shown ranges.now facts.now below.now above.now) }
{
    if is_under(alloc, ranges, below, above)? {
        Ok(true)
    } else {
        is_by_any(alloc, ranges, facts, below, above)
    }
}

fn nothing(alloc: Global) -> Fact
    ensures { result ≡ record { below = forms.number 0; above = forms.number 0 } }
{
    Fact {
        below: number(alloc, 0),
        above: number(alloc, 0),
    }
}

/// The sum of the facts, each as often as its multiplier says.
#[tactic(auto, using(crate::proofs::Ends::weighed_ended))]
fn weighed(alloc: Global, multipliers: &[u64], facts: &[Fact]) -> Result<Fact, Lack>
    ensures { IfOk result (λ h. h ≡ weighed multipliers.now facts.now) }
{
    let [m, ms @ ..] = multipliers else {
        return Ok(nothing(alloc));
    };
    let [fact, others @ ..] = facts else {
        return Ok(nothing(alloc));
    };
    let rest = weighed(alloc, ms, others)?;
    Ok(Fact {
        below: plus(alloc, &times(alloc, *m, &fact.below)?, &rest.below)?,
        above: plus(alloc, &times(alloc, *m, &fact.above)?, &rest.above)?,
    })
}

/// Whether a fact follows from the sum of others, each as often as its multiplier says.
pub fn is_derived(
    alloc: Global,
    ranges: &[Option<u64>],
    facts: &[Fact],
    fact: &Fact,
    multipliers: &[u64],
) -> Result<bool, Lack>
    ensures { IfOk result (λ b. b ≡ shown.is_derived ranges.now facts.now fact.now multipliers.now) }
{
    let sum = weighed(alloc, multipliers, facts)?;
    is_by(alloc, ranges, &sum, &fact.below, &fact.above)
}

/// The facts by which a new first variable is how much more `above` is than `below`.
pub fn differing(alloc: Global, below: &Form, above: &Form) -> Result<Vec<Fact>, Lack>
    ensures { IfOk result (λ hs. hs.items ≡ differing below.now above.now) }
{
    let first = first_variable(alloc)?;
    let old = lifted(alloc, below)?;
    let mut facts = Vec::new(alloc);
    facts.push(Fact {
        below: plus(alloc, &old, &first)?,
        above: lifted(alloc, above)?,
    })?;
    facts.push(Fact {
        below: lifted(alloc, above)?,
        above: plus(alloc, &old, &first)?,
    })?;
    Ok(facts)
}
