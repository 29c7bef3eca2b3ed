//! Loads: which queue's index one looks at, what it reads, and the state after it.

ghost use Rattle.std.specs.Prelude.{◌≡◌, ◌+◌, ◌-◌, ◌*◌, ◌&&◌, ◌||◌, ◌==◌, slice_index, nat_lt};
ghost use Rattle.std.specs.Prelude.{if◌then◌else◌, List, Some, None, IfOk, length, map, set, get_or};
ghost use Rattle.hart.specs.Effects.{next_pc, load_width};
ghost use Rattle.slot_queue.specs.Ownership.{party_of};
ghost use Rattle.queue_certificates.specs.Forms.{Form, number, plus, lifted};
ghost use Rattle.queue_certificates.specs.States.{KnownState, KnownValue, Share, share_by, no_share, any, index_for};
ghost use Rattle.queue_certificates.specs.Certificates.{queue_at, own_of};
ghost use Rattle.queue_certificates.specs.Steps.{all_below, is_one, last_below, is_just, misses, owned_then, looked_share, is_look, is_own_index};
ghost use Rattle.queue_certificates.specs.Steps.{is_index_below, signed_value, most_loaded, keeps_value, loaded, is_own_word, share_at};
ghost use Rattle.queue_certificates.specs.Steps.{word_loaded, index_loaded, value_loaded, extended_value};
ghost use Rattle.queue_certificates.specs.Steps.{looked_word, after_look, after_load, may_load, load_by, loading};

use crate::certificate::{KnownState, QueueCertificate, Share};
use crate::places::{back_of, is_one, is_others, is_own, misses};
use crate::sites::{Site, own_words, queue_count};
use crate::states::{
    lifted_shares, next_pc, put_share, share_in, value_in, with_result, with_shares,
};
use crate::successors::{Successors, not_shown, one};
use crate::words::last_own_word;
use known_values::forms::{first_variable, lifted, number, plus};
use known_values::lack::{product, sum};
use known_values::queues::queue_in;
use known_values::ranges::{fits_in, most};
use known_values::results::or_up_to;
use known_values::values::{any, index_for, signed_for};
use known_values::{Bounds, Form, Known, KnownValue, Lack, Outcome, Queue};
use rv_decode::instruction::LoadOp;
use std::alloc::Global;

/// How many bytes a load reads.
pub fn load_width(op: LoadOp) -> u64
    ensures { result ≡ load_width op }
{
    match op {
        LoadOp::Byte | LoadOp::ByteUnsigned => 1,
        LoadOp::Half | LoadOp::HalfUnsigned => 2,
        LoadOp::Word => 4,
    }
}

/// Whether an access is of the other's index of queue `i`, whole.
pub fn is_look(
    certificate: &QueueCertificate,
    hart: u32,
    bounds: Bounds,
    width: u64,
    i: u32,
) -> bool
    ensures { result ≡ is_look (queue_at certificate.now) hart bounds width i }
{
    is_one(bounds) && is_others(queue_in(&certificate.queues, i), hart, bounds.low, width)
}

fn is_own_index(
    certificate: &QueueCertificate,
    hart: u32,
    bounds: Bounds,
    width: u64,
    i: u32,
) -> bool
    ensures { result ≡ is_own_index (queue_at certificate.now) hart bounds width i }
{
    is_one(bounds) && is_own(queue_in(&certificate.queues, i), hart, bounds.low, width)
}

/// The last queue whose index, the other's, a load reads whole.
pub(crate) fn last_look(
    certificate: &QueueCertificate,
    hart: u32,
    bounds: Bounds,
    width: u64,
) -> Result<Option<u32>, Lack>
    ensures { IfOk result (λ last. last ≡ last_below (length certificate.now.queues) (is_look (queue_at certificate.now) hart bounds width)) }
{
    let mut last = None;
    for i in 0..queue_count(certificate)? {
        if is_look(certificate, hart, bounds, width, i) {
            last = Some(i);
        }
    }
    Ok(last)
}

/// The last queue whose index, the hart's own, an access is of, whole.
pub fn last_own_index(
    certificate: &QueueCertificate,
    hart: u32,
    bounds: Bounds,
    width: u64,
) -> Result<Option<u32>, Lack>
    ensures { IfOk result (λ last. last ≡ last_below (length certificate.now.queues) (is_own_index (queue_at certificate.now) hart bounds width)) }
{
    let mut last = None;
    for i in 0..queue_count(certificate)? {
        if is_own_index(certificate, hart, bounds, width, i) {
            last = Some(i);
        }
    }
    Ok(last)
}

/// The value that an access reads, where it is no look.
pub(crate) fn value_loaded(
    alloc: Global,
    certificate: &QueueCertificate,
    hart: u32,
    state: &KnownState,
    bounds: Bounds,
    width: u64,
) -> Result<KnownValue, Lack>
    ensures { IfOk result (λ v. v ≡ value_loaded (queue_at certificate.now) (length certificate.now.queues) (own_of certificate.now) hart state.now
        bounds width) }
{
    match last_own_index(certificate, hart, bounds, width)? {
        Some(i) => {
            let share = share_in(alloc, &state.shares, i as usize)?;
            Ok(index_for(i, share.own.copy(alloc)?))
        }
        None => match last_own_word(own_words(certificate, hart), bounds, width) {
            Some(word) => value_in(alloc, &state.words, word),
            None => Ok(any()),
        },
    }
}

/// The greatest word of a queue's index.
fn last_word(queue: Queue) -> Result<u64, Lack>
    ensures { IfOk result (λ n. n ≡ queue.base + queue.scale * (queue.modulus - 1)) }
{
    let rest = product(queue.scale, queue.modulus.saturating_sub(1))?;
    sum(u64::from(queue.base), rest)
}

/// Whether a value is the word of an index, each of which is below a limit.
fn is_index_below(
    certificate: &QueueCertificate,
    limit: u64,
    value: &KnownValue,
) -> Result<bool, Lack>
    ensures { IfOk result (λ below. below ≡ is_index_below (queue_at certificate.now) limit value.now) }
{
    match &value.known {
        Known::Any => Ok(false),
        Known::Linear(_) => Ok(false),
        Known::SignedFor(_, _) => Ok(false),
        Known::EndsAs(_, _) => Ok(false),
        Known::HasBits(_, _) => Ok(false),
        Known::IndexFor(i, _) => {
            let queue = queue_in(&certificate.queues, *i);
            let last = last_word(queue)?;
            Ok(queue.modulus >= 1 && last < limit)
        }
    }
}

/// What a signed load leaves of a number: itself, if its highest bit is 0.
fn extended_value(
    certificate: &QueueCertificate,
    op: LoadOp,
    value: KnownValue,
) -> Result<KnownValue, Lack>
    ensures { IfOk result (λ v. v ≡ extended_value (queue_at certificate.now) op value) }
{
    match op {
        LoadOp::Byte => below_or_signed(certificate, 1 << 7, 1, value),
        LoadOp::Half => below_or_signed(certificate, 1 << 15, 2, value),
        LoadOp::Word | LoadOp::ByteUnsigned | LoadOp::HalfUnsigned => Ok(value),
    }
}

/// What a signed load leaves of an index's word; both have `width` bytes.
fn signed_value(certificate: &QueueCertificate, width: u32, value: KnownValue) -> KnownValue
    ensures { result ≡ signed_value (queue_at certificate.now) width value }
{
    match value.known {
        Known::IndexFor(i, form) if queue_in(&certificate.queues, i).index_width == width =>
            signed_for(i, form),
        _ => any(),
    }
}

fn below_or_signed(
    certificate: &QueueCertificate,
    limit: u64,
    width: u32,
    value: KnownValue,
) -> Result<KnownValue, Lack>
    ensures { IfOk result (λ v. v ≡ (if is_index_below (queue_at certificate.now) limit value then value
        else signed_value (queue_at certificate.now) width value)) }
{
    if is_index_below(certificate, limit, &value)? {
        Ok(value)
    } else {
        Ok(signed_value(certificate, width, value))
    }
}

/// Whether a signed load surely leaves a number as it is, since its highest bit is 0.
fn keeps_value(ranges: &[Option<u64>], op: LoadOp, value: &KnownValue) -> Result<bool, Lack>
    ensures { IfOk result (λ keeps. keeps ≡ keeps_value ranges.now op value.now) }
{
    match (op, &value.known) {
        (LoadOp::Byte, Known::Linear(form)) => {
            Ok(fits_in(most(ranges, form)?, Some((1 << 7) - 1)))
        }
        (LoadOp::Half, Known::Linear(form)) => {
            Ok(fits_in(most(ranges, form)?, Some((1 << 15) - 1)))
        }
        _ => Ok(false),
    }
}

/// The most that a load leaves in a register.
pub(crate) fn most_loaded(op: LoadOp) -> u64
    ensures { result ≡ most_loaded op }
{
    match op {
        LoadOp::ByteUnsigned => 255,
        LoadOp::HalfUnsigned => 65535,
        LoadOp::Byte | LoadOp::Half | LoadOp::Word => (1 << 32) - 1,
    }
}

/// What a load leaves of the number that it reads.
fn loaded(
    alloc: Global,
    certificate: &QueueCertificate,
    ranges: &[Option<u64>],
    op: LoadOp,
    value: KnownValue,
) -> Result<Outcome, Lack>
    ensures { IfOk result (λ r. r ≡ loaded (queue_at certificate.now) ranges.now op value) }
{
    if keeps_value(ranges, op, &value)? {
        or_up_to(alloc, most_loaded(op), &value)
    } else {
        let left = extended_value(certificate, op, value)?;
        or_up_to(alloc, most_loaded(op), &left)
    }
}

fn owned_then(alloc: Global, share: &Share) -> Result<Form, Lack>
    ensures { IfOk result (λ f. f ≡ owned_then share.now) }
{
    plus(
        alloc,
        &number(alloc, share.owned.constant),
        &first_variable(alloc)?,
    )
}

fn looked_share(alloc: Global, share: &Share) -> Result<Share, Lack>
    ensures { IfOk result (λ s. s ≡ looked_share share.now) }
{
    Ok(Share {
        own: lifted(alloc, &share.own)?,
        owned: owned_then(alloc, share)?,
    })
}

fn looked_word(
    alloc: Global,
    certificate: &QueueCertificate,
    hart: u32,
    i: u32,
    share: &Share,
) -> Result<KnownValue, Lack>
    ensures { IfOk result (λ v. v ≡ looked_word (queue_at certificate.now) hart i share.now) }
{
    let upto = plus(
        alloc,
        &lifted(alloc, &share.own)?,
        &owned_then(alloc, share)?,
    )?;
    let back = number(alloc, back_of(queue_in(&certificate.queues, i), hart));
    Ok(index_for(i, plus(alloc, &upto, &back)?))
}

/// How many positions more than those that it owns a party may see at a look, at most.
fn most_more(queue: Queue, share: &Share) -> u64
    ensures { result ≡ queue.capacity - share.now.owned.constant }
{
    let owned = &share.owned;
    u64::from(queue.capacity).saturating_sub(owned.constant)
}

/// The shares after a look at queue `i`'s index, of which the hart had this one.
fn looked_shares(alloc: Global, shares: &[Share], i: u32, share: &Share) -> Result<Vec<Share>, Lack>
    ensures { IfOk result (λ ss. ss.items ≡ set (map (share_by lifted) shares.now) i (looked_share share.now)) }
{
    let mut out = lifted_shares(alloc, shares)?;
    put_share(&mut out, i as usize, looked_share(alloc, share)?);
    Ok(out)
}

/// The state after a look at queue `i`'s index.
fn after_look(
    alloc: Global,
    site: &Site<'_>,
    op: LoadOp,
    rd: u8,
    i: u32,
    share: &Share,
) -> Result<KnownState, Lack>
    ensures { IfOk result (λ s. s ≡ after_look (queue_at site.now.certificate.now) site.now.hart site.now.state.now op rd i share.now) }
{
    let (certificate, hart, state) = (site.certificate, site.hart, site.state);
    let word = looked_word(alloc, certificate, hart, i, share)?;
    let value = extended_value(certificate, op, word)?;
    let most = most_more(queue_in(&certificate.queues, i), share);
    let shares = looked_shares(alloc, &state.shares, i, share)?;
    let next = with_result(alloc, state, rd, next_pc(state.pc), Outcome { most, value })?;
    Ok(with_shares(next, shares))
}

fn after_load(
    alloc: Global,
    site: &Site<'_>,
    op: LoadOp,
    rd: u8,
    bounds: Bounds,
    look: Option<u32>,
) -> Result<KnownState, Lack>
    ensures { IfOk result (λ s. s ≡ after_load (queue_at site.now.certificate.now) (length site.now.certificate.now.queues)
        (own_of site.now.certificate.now) site.now.hart site.now.state.now op rd bounds look) }
{
    let (certificate, state) = (site.certificate, site.state);
    match look {
        None => {
            let value = value_loaded(alloc, certificate, site.hart, state, bounds, load_width(op))?;
            let outcome = loaded(alloc, certificate, &state.ranges, op, value)?;
            with_result(alloc, state, rd, next_pc(state.pc), outcome)
        }
        Some(i) => {
            let share = share_in(alloc, &state.shares, i as usize)?;
            after_look(alloc, site, op, rd, i, &share)
        }
    }
}

fn may_load_at(
    certificate: &QueueCertificate,
    hart: u32,
    state: &KnownState,
    bounds: Bounds,
    width: u64,
    look: Option<u32>,
    i: u32,
) -> bool
    ensures { result ≡ ((is_just look i && nat_lt i (length state.now.shares)) || misses (queue_at certificate.now i) (party_of (queue_at
        certificate.now i) hart) bounds width) }
{
    let shares = state.shares.len();
    if look == Some(i) && (i as usize) < shares {
        true
    } else {
        misses(queue_in(&certificate.queues, i), hart, bounds, width)
    }
}

/// Whether a load reads no index of the other's, whole, except of the queue that it looks at.
pub(crate) fn may_load(
    certificate: &QueueCertificate,
    hart: u32,
    state: &KnownState,
    bounds: Bounds,
    width: u64,
    look: Option<u32>,
) -> Result<bool, Lack>
    ensures { IfOk result (λ may. may ≡ may_load (queue_at certificate.now) (length certificate.now.queues) hart state.now bounds width look) }
{
    let mut all = true;
    for i in 0..queue_count(certificate)? {
        all = may_load_at(certificate, hart, state, bounds, width, look, i) && all;
    }
    Ok(all)
}

/// The states that may follow a load.
pub(crate) fn loading(
    alloc: Global,
    site: &Site<'_>,
    op: LoadOp,
    rd: u8,
    bounds: Bounds,
) -> Result<Successors, Lack>
    ensures { IfOk result (λ next. next ≡ loading (queue_at site.now.certificate.now) (length site.now.certificate.now.queues)
        (own_of site.now.certificate.now) site.now.hart site.now.state.now op rd bounds) }
{
    let (certificate, hart, state) = (site.certificate, site.hart, site.state);
    let width = load_width(op);
    let look = last_look(certificate, hart, bounds, width)?;
    if may_load(certificate, hart, state, bounds, width, look)? {
        one(alloc, after_load(alloc, site, op, rd, bounds, look)?)
    } else {
        Ok(not_shown(alloc))
    }
}
