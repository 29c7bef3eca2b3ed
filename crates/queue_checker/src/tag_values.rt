//! What a tag tells a party, and what hands a position over.

ghost use Rattle.std.specs.Prelude.{◌≡◌, ℕ, List, Option, IfOk};
ghost use Rattle.hart.specs.Effects.{extended};
ghost use Rattle.slots_that_tell.specs.Slots.{gap};
ghost use Rattle.queue_layouts.specs.declared.tagged.Codec.TheVariants as codecs;
ghost use Rattle.queue_certificates.specs.Forms.{Form, number, plus};
ghost use Rattle.queue_certificates.specs.Tags.{is_even_between, is_of_even_round, number_of, bits_are, bits_for, in_round, told_by, back_to, some_up_to};
ghost use Rattle.queue_certificates.specs.Tags.{bits_above, value_told, told_value, other_value, is_positive, is_number, are_these, are_above, has_these};
ghost use Rattle.queue_certificates.specs.Tags.{makes, hands_over};
ghost use Rattle.queue_layouts.specs.Sides.{the_party};
ghost use Rattle.queue_layouts.specs.Tagged.{slots_of};

use crate::loads::most_loaded;
use known_values::bits::{bits_of, of_bits};
use known_values::bounds::bounds_of;
use known_values::forms::{first_variable, is_same, number, plus};
use known_values::lack::sum;
use known_values::numbers::bounds;
use known_values::queues::words_of;
use known_values::results::{just, or_up_to};
use known_values::values::{any, linear};
use known_values::{Bits, Bounds, Form, Known, KnownValue, Lack, Outcome};
use queue_layouts::{Codec, Party, TaggedQueue, other};
use rv_decode::instruction::LoadOp;
use std::alloc::Global;

const WORDS: u64 = 1 << 32;

/// Some number up to this one, but 0.
fn some_up_to(alloc: Global, most: u64) -> Result<Outcome, Lack>
    ensures { IfOk result (λ r. r ≡ some_up_to most) }
{
    let form = plus(alloc, &number(alloc, 1), &first_variable(alloc)?)?;
    Ok(Outcome {
        most: most.saturating_sub(1),
        value: linear(form),
    })
}

/// The form of what is so much further than a count.
fn further(alloc: Global, own: &Form, by: u64) -> Result<Form, Lack>
    ensures { IfOk result (λ f. f ≡ plus own.now (number by)) }
{
    plus(alloc, own, &number(alloc, by))
}

/// The word that a load leaves, of the number that it read.
fn extended(op: LoadOp, read: u32) -> u32
    ensures { result ≡ extended op read }
{
    match op {
        LoadOp::Byte if read >= 128 => read.wrapping_sub(256),
        LoadOp::Half if read >= 32768 => read.wrapping_sub(65536),
        _ => read,
    }
}

/// The bits that an unsigned load leaves 0.
fn bits_above(op: LoadOp) -> u32
    ensures { result ≡ bits_above op }
{
    match op {
        LoadOp::ByteUnsigned => 0xffff_ff00,
        LoadOp::HalfUnsigned => 0xffff_0000,
        LoadOp::Byte | LoadOp::Half | LoadOp::Word => 0,
    }
}

/// Whether a position is of an even round, where its remainder by two rounds lies between these bounds.
fn is_even_between(size: u32, bounds: Option<Bounds>) -> Option<bool>
    ensures { result ≡ is_even_between size bounds }
{
    let bounds = bounds?;
    if bounds.high < u64::from(size) {
        Some(true)
    } else if u64::from(size) <= bounds.low {
        Some(false)
    } else {
        None
    }
}

/// Whether a position is of an even round; `None`, if that isn't known.
fn is_of_even_round(
    alloc: Global,
    ranges: &[Option<u64>],
    size: u32,
    position: &Form,
) -> Result<Option<bool>, Lack>
    ensures { IfOk result (λ even. even ≡ is_of_even_round ranges.now size position.now) }
{
    let rounds = 2 * u64::from(size);
    Ok(is_even_between(size, bounds_of(alloc, rounds, ranges, position)?))
}

/// The bits of a slot's tag that tell the party, where bits under a mask do.
fn bits_for(party: Party, free: u32, full: u32) -> u32
    ensures { (mask : ℕ) → bits_are mask result ≡ bits_for mask free full (the_party party) }
{
    match party {
        Party::Sender => free,
        Party::Receiver => full,
    }
}

/// The number of a slot's tag that tells the party of this position, where positions' numbers do.
fn number_for(alloc: Global, party: Party, position: &Form) -> Result<Form, Lack>
    ensures { (ranges : List (Option ℕ)) (size : ℕ) → IfOk result (λ f. number_of f ≡ told_by ranges size codecs.Number (the_party party) position.now) }
{
    match party {
        Party::Sender => position.copy(alloc),
        Party::Receiver => further(alloc, position, 1),
    }
}

/// What a load leaves of a tag that tells the party, where 0 is free.
fn zero_told(alloc: Global, op: LoadOp, party: Party) -> Result<Outcome, Lack>
    ensures { (ranges : List (Option ℕ)) (size : ℕ) (position : Form)
        → IfOk result (λ r. r ≡ value_told op (told_by ranges size codecs.Zero (the_party party) position)) }
{
    match party {
        Party::Sender => just(alloc, &linear(number(alloc, 0))),
        Party::Receiver => some_up_to(alloc, most_loaded(op)),
    }
}

/// What a load leaves of a tag that has these bits under a mask.
fn bits_told(alloc: Global, op: LoadOp, mask: u32, bits: u32) -> Result<Outcome, Lack>
    ensures { IfOk result (λ r. r ≡ value_told op (bits_are mask bits)) }
{
    let known = extended(op, mask) | bits_above(op);
    just(alloc, &of_bits(alloc, known, extended(op, bits)))
}

/// What a load leaves of a tag that has some bits under a mask in even rounds, and others in odd ones.
fn round_told(
    alloc: Global,
    op: LoadOp,
    is_even: Option<bool>,
    mask: u32,
    even: u32,
    odd: u32,
) -> Result<Outcome, Lack>
    ensures { IfOk result (λ r. r ≡ value_told op (in_round is_even (bits_are mask even) (bits_are mask odd))) }
{
    match is_even {
        None => or_up_to(alloc, most_loaded(op), &any()),
        Some(true) => bits_told(alloc, op, mask, even),
        Some(false) => bits_told(alloc, op, mask, odd),
    }
}

/// What a load leaves of a tag that tells the party of this position.
fn value_told(
    alloc: Global,
    ranges: &[Option<u64>],
    queue: TaggedQueue,
    op: LoadOp,
    party: Party,
    position: &Form,
) -> Result<Outcome, Lack>
    ensures { IfOk result (λ r. r ≡ value_told op (told_by ranges.now queue.size queue.codec (the_party party) position.now)) }
{
    match queue.codec {
        Codec::Zero => zero_told(alloc, op, party),
        Codec::Number => just(alloc, &linear(number_for(alloc, party, position)?)),
        Codec::Bit { mask, free, full } => {
            bits_told(alloc, op, mask, bits_for(party, free, full))
        }
        Codec::Phases {
            mask,
            free,
            full,
            odd_free,
            odd_full,
        } => {
            let is_even = is_of_even_round(alloc, ranges, queue.size, position)?;
            let even = bits_for(party, free, full);
            let odd = bits_for(party, odd_free, odd_full);
            round_told(alloc, op, is_even, mask, even, odd)
        }
    }
}

/// What a load of a tag leaves that tells the party that it has the position that is so much further than its own count.
pub(crate) fn told_value(
    alloc: Global,
    ranges: &[Option<u64>],
    queue: TaggedQueue,
    party: Party,
    op: LoadOp,
    own: &Form,
    position: u64,
) -> Result<Outcome, Lack>
    ensures { IfOk result (λ r. r ≡ told_value ranges.now queue queue.codec (the_party party) op own.now position) }
{
    let position = further(alloc, own, position)?;
    value_told(alloc, ranges, queue, op, party, &position)
}

/// How much further a party's own position of a slot is than the other's, modulo 2^32, or two rounds where bits turn with these.
fn back_to(queue: TaggedQueue, party: Party) -> u64
    ensures { result ≡ back_to queue queue.codec (the_party party) }
{
    match party {
        Party::Sender => 0,
        Party::Receiver => match queue.codec {
            Codec::Phases { .. } => u64::from(queue.size),
            Codec::Zero | Codec::Number | Codec::Bit { .. } => {
                WORDS.saturating_sub(u64::from(queue.size) % WORDS)
            }
        },
    }
}

/// And what it leaves while the other party has it.
pub(crate) fn other_value(
    alloc: Global,
    ranges: &[Option<u64>],
    queue: TaggedQueue,
    party: Party,
    op: LoadOp,
    own: &Form,
    position: u64,
) -> Result<Outcome, Lack>
    ensures { IfOk result (λ r. r ≡ other_value ranges.now queue queue.codec (the_party party) op own.now position) }
{
    let theirs = other(party);
    let by = sum(position, back_to(queue, theirs))?;
    let position = further(alloc, own, by)?;
    value_told(alloc, ranges, queue, op, theirs, &position)
}

/// Whether numbers between these are words of `width` bytes, and not 0.
fn is_positive(width: u32, bounds: Option<Bounds>) -> Result<bool, Lack>
    ensures { IfOk result (λ positive. positive ≡ is_positive width bounds) }
{
    match bounds {
        None => Ok(false),
        Some(bounds) => Ok(1 <= bounds.low && bounds.high < words_of(width)?),
    }
}

/// Whether a value is the number that a form is, modulo another.
fn is_number(modulus: u64, value: &KnownValue, form: &Form) -> bool
    ensures { result ≡ is_number modulus value.now form.now }
{
    match &value.known {
        Known::Any => false,
        Known::IndexFor(_, _) => false,
        Known::SignedFor(_, _) => false,
        Known::EndsAs(_, _) => false,
        Known::HasBits(_, _) => false,
        Known::Linear(its) => is_same(modulus, its, form),
    }
}

/// Whether a value surely has these bits under the mask.
fn are_these(known: Option<Bits>, mask: u32, bits: u32) -> bool
    ensures { result ≡ are_these known mask bits }
{
    match known {
        None => false,
        Some(known) => known.mask & mask == mask && known.bits & mask == bits,
    }
}

/// Whether a stored value makes a tag that tells the party, where 0 is free.
fn makes_by_zero(
    alloc: Global,
    ranges: &[Option<u64>],
    width: u32,
    party: Party,
    stored: &KnownValue,
) -> Result<bool, Lack>
    ensures { (size : ℕ) (position : Form)
        → IfOk result (λ made. made ≡ makes ranges.now width (told_by ranges.now size codecs.Zero (the_party party) position) stored.now) }
{
    match party {
        Party::Sender => Ok(is_number(words_of(width)?, stored, &number(alloc, 0))),
        Party::Receiver => is_positive(width, bounds(alloc, ranges, stored)?),
    }
}

/// Whether all bits under the mask are above the numbers between these, and so 0, as `bits` are.
fn are_above(bounds: Option<Bounds>, mask: u32, bits: u32) -> bool
    ensures { result ≡ are_above bounds mask bits }
{
    match bounds {
        None => false,
        Some(bounds) => {
            let lowest = 1u64 << mask.trailing_zeros();
            bits == 0 && bounds.high < lowest && u64::from(mask) % lowest == 0
        }
    }
}

/// Whether a value surely has these bits under the mask, since they are known or above its greatest number.
fn has_these(
    alloc: Global,
    ranges: &[Option<u64>],
    value: &KnownValue,
    mask: u32,
    bits: u32,
) -> Result<bool, Lack>
    ensures { IfOk result (λ has. has ≡ has_these ranges.now value.now mask bits) }
{
    if are_these(bits_of(value), mask, bits) {
        return Ok(true);
    }
    Ok(are_above(bounds(alloc, ranges, value)?, mask, bits))
}

/// Whether a stored value makes a tag that has some bits under the mask in even rounds, and others in odd ones.
fn makes_round(
    alloc: Global,
    ranges: &[Option<u64>],
    is_even: Option<bool>,
    mask: u32,
    even: u32,
    odd: u32,
    stored: &KnownValue,
) -> Result<bool, Lack>
    ensures { (width : ℕ)
        → IfOk result (λ made. made ≡ makes ranges.now width (in_round is_even (bits_are mask even) (bits_are mask odd)) stored.now) }
{
    match is_even {
        None => Ok(false),
        Some(true) => has_these(alloc, ranges, stored, mask, even),
        Some(false) => has_these(alloc, ranges, stored, mask, odd),
    }
}

/// Whether a stored value makes a tag that tells the party of this position.
fn makes(
    alloc: Global,
    ranges: &[Option<u64>],
    queue: TaggedQueue,
    party: Party,
    position: &Form,
    stored: &KnownValue,
) -> Result<bool, Lack>
    ensures { IfOk result (λ made. made ≡ makes ranges.now queue.tag_width (told_by ranges.now queue.size queue.codec (the_party party) position.now)
        stored.now) }
{
    match queue.codec {
        Codec::Zero => makes_by_zero(alloc, ranges, queue.tag_width, party, stored),
        Codec::Number => Ok(is_number(WORDS, stored, &number_for(alloc, party, position)?)),
        Codec::Bit { mask, free, full } => {
            has_these(alloc, ranges, stored, mask, bits_for(party, free, full))
        }
        Codec::Phases {
            mask,
            free,
            full,
            odd_free,
            odd_full,
        } => {
            let is_even = is_of_even_round(alloc, ranges, queue.size, position)?;
            let even = bits_for(party, free, full);
            let odd = bits_for(party, odd_free, odd_full);
            makes_round(alloc, ranges, is_even, mask, even, odd, stored)
        }
    }
}

/// How far on the position is that a party's tag hands to the other.
fn gap(queue: TaggedQueue, party: Party) -> u64
    ensures { result ≡ gap (slots_of queue) (the_party party) }
{
    match party {
        Party::Sender => 0,
        Party::Receiver => u64::from(queue.size),
    }
}

/// Whether a tag of this value hands the own position to the other party.
pub(crate) fn hands_over(
    alloc: Global,
    ranges: &[Option<u64>],
    queue: TaggedQueue,
    party: Party,
    own: &Form,
    stored: &KnownValue,
) -> Result<bool, Lack>
    ensures { IfOk result (λ over. over ≡ hands_over ranges.now queue queue.codec (the_party party) own.now stored.now) }
{
    let position = further(alloc, own, gap(queue, party))?;
    let theirs = other(party);
    makes(alloc, ranges, queue, theirs, &position, stored)
}
