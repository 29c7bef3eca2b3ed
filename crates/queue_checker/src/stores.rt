//! Stores and AMOs: which a party may make, and the state after one.

ghost use Rattle.std.specs.Prelude.{◌≡◌, ◌+◌, ◌-◌, ◌++◌, ◌^◌, ◌||◌, ◌&&◌, ℕ, List, Some, None, IfOk, length, map, set, get_or};
ghost use Rattle.hart.specs.Effects.{next_pc, store_width};
ghost use Rattle.slot_queue.specs.Ownership.{party_of};
ghost use Rattle.slot_queue.specs.Queues.{Queue};
ghost use Rattle.queue_certificates.specs.States.{no_share, linear, index_for, is_within, plain};
ghost use Rattle.queue_certificates.specs.Results.{sum_of};
ghost use Rattle.queue_certificates.specs.Certificates.{queue_at, own_of};
ghost use Rattle.queue_certificates.specs.Steps.{all_below, last_below, is_own_index, is_cut, moved_share, may_move, may_fill, may_store, leaves_words};
ghost use Rattle.queue_certificates.specs.Steps.{words_then, shares_moved, after_store, storing, updated_value, after_exchange, exchanging, misses};
ghost use Rattle.queue_certificates.specs.Steps.{value_loaded, exchange_by, without_sign};

use crate::certificate::{KnownState, QueueCertificate, Share};
use crate::loads::{last_own_index, value_loaded};
use crate::places::{is_off, misses};
use crate::sites::{Site, queue_count};
use crate::slots::is_owned;
use crate::states::{
    copied_shares, copied_values, going_to, next_pc, put_share, share_in, with_result,
};
use crate::successors::{Successors, not_shown, one};
use crate::targets::Target;
use crate::words::{leaves_words, words_then};
use known_values::forms::{is_same, minus, number, plus};
use known_values::lack::product;
use known_values::queues::{queue_in, words_of};
use known_values::ranges::{fits_in, most};
use known_values::results::{just, sum_of};
use known_values::values::{any, index_for, is_within, plain, scaled};
use known_values::{Bounds, Form, Known, KnownValue, Lack, Queue};
use rv_decode::instruction::{AmoOp, StoreOp};
use std::alloc::Global;

/// How many bytes a store writes.
pub fn store_width(op: StoreOp) -> u64
    ensures { result ≡ store_width op }
{
    match op {
        StoreOp::Byte => 1,
        StoreOp::Half => 2,
        StoreOp::Word => 4,
    }
}

fn moved_share(alloc: Global, share: &Share, handed: &Form) -> Result<Share, Lack>
    ensures { IfOk result (λ s. s ≡ moved_share share.now handed.now) }
{
    Ok(Share {
        own: plus(alloc, &share.own, handed)?,
        owned: minus(alloc, &share.owned, handed)?,
    })
}

/// Whether the index that a store of this value writes, in as many bytes as it has, is the word that stands for a count.
fn is_cut(alloc: Global, queue: Queue, value: &KnownValue, count: &Form) -> Result<bool, Lack>
    ensures { IfOk result (λ cut. cut ≡ is_cut queue value.now count.now) }
{
    match &value.known {
        Known::Linear(form) => is_cut_form(alloc, queue, form, count),
        Known::Any => Ok(false),
        Known::IndexFor(_, _) => Ok(false),
        Known::SignedFor(_, _) => Ok(false),
        Known::EndsAs(_, _) => Ok(false),
        Known::HasBits(_, _) => Ok(false),
    }
}

fn is_cut_form(alloc: Global, queue: Queue, form: &Form, count: &Form) -> Result<bool, Lack>
    ensures { IfOk result (λ cut. cut ≡ is_cut queue (linear form.now) count.now) }
{
    let words = words_of(queue.index_width)?;
    let turn = product(queue.scale, queue.modulus)?;
    let moved = plus(alloc, count, &number(alloc, queue.offset))?;
    let same = is_same(words, form, &scaled(alloc, queue, &moved)?);
    let below = u64::from(queue.base) < queue.scale;
    Ok(turn == words && below && same)
}

/// The value, or the word of queue `i`'s index where the value is what a signed load leaves of that: both have the same lowest bytes,
/// as many as the index.
fn without_sign(alloc: Global, i: u32, value: &KnownValue) -> Result<KnownValue, Lack>
    ensures { IfOk result (λ v. v ≡ without_sign i value.now) }
{
    match &value.known {
        Known::SignedFor(j, form) if i == *j => Ok(index_for(*j, form.copy(alloc)?)),
        _ => value.copy(alloc),
    }
}

/// Whether a store of this value to queue `i`'s index leaves the word there that stands for a count.
fn stands_for(
    alloc: Global,
    certificate: &QueueCertificate,
    state: &KnownState,
    value: &KnownValue,
    i: u32,
    count: Form,
) -> Result<bool, Lack>
    ensures { IfOk result (λ stands. stands ≡ (is_within (queue_at certificate.now) state.now.ranges (without_sign i value.now) (index_for i count)
        || is_cut (queue_at certificate.now i) value.now count)) }
{
    let cut = is_cut(alloc, queue_in(&certificate.queues, i), value, &count)?;
    let within = is_within(
        alloc,
        &certificate.queues,
        &state.ranges,
        &without_sign(alloc, i, value)?,
        &index_for(i, count),
    )?;
    Ok(within || cut)
}

/// Whether a store of this value to queue `i`'s own index hands over as many positions as `handed`, all owned.
fn may_move(
    alloc: Global,
    certificate: &QueueCertificate,
    state: &KnownState,
    handed: &Form,
    value: &KnownValue,
    i: u32,
    share: &Share,
) -> Result<bool, Lack>
    ensures { IfOk result (λ may. may ≡ may_move (queue_at certificate.now) state.now handed.now value.now i share.now) }
{
    let count = plus(alloc, &share.own, handed)?;
    let stands = stands_for(alloc, certificate, state, value, i, count)?;
    let left = minus(alloc, &share.owned, handed)?;
    let owned = is_same(0, &plus(alloc, handed, &left)?, &share.owned);
    let most = most(&state.ranges, handed)?;
    let fits = fits_in(
        most,
        Some(queue_in(&certificate.queues, i).modulus.saturating_sub(1)),
    );
    let listed = (i as usize) < state.shares.len();
    Ok(stands && owned && fits && listed)
}

/// Whether the bytes are of a slot of queue `i` that the hart, one of its parties, owns.
fn may_fill(alloc: Global, site: &Site<'_>, target: &Target, i: u32) -> Result<bool, Lack>
    ensures { IfOk result (λ may. may ≡ may_fill (queue_at site.now.certificate.now) site.now.state.now (party_of (queue_at site.now.certificate.now
        i) site.now.hart) target.now.place target.now.width i) }
{
    let (certificate, hart, state) = (site.certificate, site.hart, site.state);
    let queue = queue_in(&certificate.queues, i);
    if hart == queue.sender || hart == queue.receiver {
        let share = share_in(alloc, &state.shares, i as usize)?;
        is_owned(
            alloc,
            &state.ranges,
            queue,
            &share,
            &target.place,
            target.width,
        )
    } else {
        Ok(false)
    }
}

/// Whether a store may be made, for queue `i`.
fn may_store(
    alloc: Global,
    site: &Site<'_>,
    handed: &Form,
    value: &KnownValue,
    target: &Target,
    moves: Option<u32>,
    i: u32,
) -> Result<bool, Lack>
    ensures { IfOk result (λ may. may ≡ may_store (queue_at site.now.certificate.now) site.now.hart site.now.state.now handed.now value.now
        target.now.place target.now.bounds target.now.width moves i) }
{
    let (certificate, state) = (site.certificate, site.state);
    if moves == Some(i) {
        let share = share_in(alloc, &state.shares, i as usize)?;
        may_move(alloc, certificate, state, handed, value, i, &share)
    } else if is_off(
        queue_in(&certificate.queues, i),
        target.bounds,
        target.width,
    )? {
        Ok(true)
    } else {
        may_fill(alloc, site, target, i)
    }
}

/// `left && right`: a call is one case of a caller's proof, and the operator two.
fn both(left: bool, right: bool) -> bool
    ensures { result ≡ (left && right) }
{
    left && right
}

/// Whether a store may be made, for each queue.
fn may_store_all(
    alloc: Global,
    site: &Site<'_>,
    handed: &Form,
    value: &KnownValue,
    target: &Target,
    moves: Option<u32>,
) -> Result<bool, Lack>
    ensures { IfOk result (λ may. may ≡ all_below (length site.now.certificate.now.queues) (may_store (queue_at site.now.certificate.now) site.now.hart
        site.now.state.now handed.now value.now target.now.place target.now.bounds target.now.width moves)) }
{
    let mut all = true;
    for i in 0..queue_count(site.certificate)? {
        let may = may_store(alloc, site, handed, value, target, moves, i)?;
        all = both(may, all);
    }
    Ok(all)
}

/// The shares after as many positions as `handed` of queue `moves` are handed over.
fn shares_moved(
    alloc: Global,
    shares: &[Share],
    handed: &Form,
    moves: Option<u32>,
) -> Result<Vec<Share>, Lack>
    ensures { IfOk result (λ ss. ss.items ≡ shares_moved shares.now handed.now moves) }
{
    let mut out = copied_shares(alloc, shares)?;
    match moves {
        None => Ok(out),
        Some(i) => {
            let share = share_in(alloc, shares, i as usize)?;
            put_share(&mut out, i as usize, moved_share(alloc, &share, handed)?);
            Ok(out)
        }
    }
}

/// A state with what an access that stores a value leaves in the own words and hands over.
fn stored_state(
    alloc: Global,
    site: &Site<'_>,
    handed: &Form,
    value: &KnownValue,
    bounds: Bounds,
    width: u64,
    moves: Option<u32>,
) -> Result<KnownState, Lack>
    ensures { IfOk result (λ s. s ≡ record site.now.state.now {
      words = words_then (queue_at site.now.certificate.now) (length site.now.certificate.now.queues) site.now.state.now.ranges bounds width value.now
          (own_of site.now.certificate.now site.now.hart) site.now.state.now.words;
      shares = shares_moved site.now.state.now.shares handed.now moves;
    }) }
{
    let state = site.state;
    let words = words_then(alloc, site, bounds, width, value)?;
    let shares = shares_moved(alloc, &state.shares, handed, moves)?;
    let ranges = Vec::from_slice(alloc, &state.ranges)?;
    let registers = copied_values(alloc, &state.registers)?;
    Ok(KnownState {
        pc: state.pc,
        ranges,
        registers,
        words,
        shares,
    })
}

/// The state after a store of a value.
fn after_store(
    alloc: Global,
    site: &Site<'_>,
    handed: &Form,
    value: &KnownValue,
    bounds: Bounds,
    width: u64,
    moves: Option<u32>,
) -> Result<KnownState, Lack>
    ensures { IfOk result (λ s. s ≡ after_store (queue_at site.now.certificate.now) (length site.now.certificate.now.queues) (own_of site.now.certificate.now)
        site.now.hart site.now.state.now handed.now width value.now bounds moves) }
{
    let state = site.state;
    let stored = stored_state(alloc, site, handed, value, bounds, width, moves)?;
    going_to(alloc, &stored, next_pc(state.pc))
}

/// The states that may follow a store of a value.
pub(crate) fn storing(
    alloc: Global,
    site: &Site<'_>,
    handed: &Form,
    value: &KnownValue,
    target: &Target,
) -> Result<Successors, Lack>
    ensures { IfOk result (λ next. next ≡ storing (queue_at site.now.certificate.now) (length site.now.certificate.now.queues) (own_of site.now.certificate.now)
        (length site.now.certificate.now.harts) site.now.hart site.now.state.now handed.now target.now.width value.now
        target.now.place target.now.bounds) }
{
    let (certificate, hart) = (site.certificate, site.hart);
    let (bounds, width) = (target.bounds, target.width);
    let moves = last_own_index(certificate, hart, bounds, width)?;
    let may = may_store_all(alloc, site, handed, value, target, moves)?;
    let leaves = leaves_words(certificate, hart, bounds, width)?;
    if may && leaves {
        let next = after_store(alloc, site, handed, value, bounds, width, moves)?;
        one(alloc, next)
    } else {
        Ok(not_shown(alloc))
    }
}

/// The sum of two values as forms, where they are some.
fn plain_sum(
    alloc: Global,
    certificate: &QueueCertificate,
    ranges: &[Option<u64>],
    left: &KnownValue,
    right: &KnownValue,
) -> Result<KnownValue, Lack>
    ensures { IfOk result (λ v. v ≡ sum_of (plain (queue_at certificate.now) ranges.now left.now) (plain (queue_at certificate.now) ranges.now right.now)) }
{
    let left = plain(alloc, &certificate.queues, ranges, left)?;
    let right = plain(alloc, &certificate.queues, ranges, right)?;
    sum_of(alloc, &left, &right)
}

/// The value that an AMO stores, of what it loads and what its register holds.
pub(crate) fn updated_value(
    alloc: Global,
    certificate: &QueueCertificate,
    ranges: &[Option<u64>],
    op: AmoOp,
    old: &KnownValue,
    with: &KnownValue,
) -> Result<KnownValue, Lack>
    ensures { IfOk result (λ v. v ≡ updated_value (queue_at certificate.now) ranges.now op old.now with.now) }
{
    match op {
        AmoOp::Swap => with.copy(alloc),
        AmoOp::Add => plain_sum(alloc, certificate, ranges, old, with),
        _ => Ok(any()),
    }
}

/// The state after an AMO that stores a value.
fn after_exchange(
    alloc: Global,
    site: &Site<'_>,
    handed: &Form,
    rd: u8,
    value: &KnownValue,
    bounds: Bounds,
    moves: Option<u32>,
) -> Result<KnownState, Lack>
    ensures { IfOk result (λ s. s ≡ after_exchange (queue_at site.now.certificate.now) (length site.now.certificate.now.queues) (own_of
        site.now.certificate.now) site.now.hart site.now.state.now handed.now rd value.now bounds moves) }
{
    let state = site.state;
    let stored = stored_state(alloc, site, handed, value, bounds, 4, moves)?;
    let read = value_loaded(alloc, site.certificate, site.hart, state, bounds, 4)?;
    let outcome = just(alloc, &read)?;
    with_result(alloc, &stored, rd, next_pc(state.pc), outcome)
}

/// Whether bytes are of no queue's index of the other's, whole.
fn misses_all(
    certificate: &QueueCertificate,
    hart: u32,
    bounds: Bounds,
    width: u64,
) -> Result<bool, Lack>
    ensures { IfOk result (λ all. all ≡ all_below (length certificate.now.queues) (λ i. misses (queue_at certificate.now i) (party_of (queue_at
        certificate.now i) hart) bounds width)) }
{
    let mut all = true;
    for i in 0..queue_count(certificate)? {
        all = misses(queue_in(&certificate.queues, i), hart, bounds, width) && all;
    }
    Ok(all)
}

/// An AMO by its operation, the register that takes what it reads, and what its other register holds.
#[derive(Drop)]
pub(crate) struct Exchange {
    pub op: AmoOp,
    pub rd: u8,
    pub with: KnownValue,
}

/// The value that an AMO on the word at these addresses stores.
fn value_exchanged(
    alloc: Global,
    site: &Site<'_>,
    op: AmoOp,
    with: &KnownValue,
    bounds: Bounds,
) -> Result<KnownValue, Lack>
    ensures { IfOk result (λ v. v ≡ updated_value (queue_at site.now.certificate.now) site.now.state.now.ranges op
        (value_loaded (queue_at site.now.certificate.now) (length site.now.certificate.now.queues) (own_of site.now.certificate.now) site.now.hart
        site.now.state.now bounds 4) with.now) }
{
    let (certificate, state) = (site.certificate, site.state);
    let old = value_loaded(alloc, certificate, site.hart, state, bounds, 4)?;
    updated_value(alloc, certificate, &state.ranges, op, &old, with)
}

/// The states that may follow an AMO that stores a value to the word at these addresses.
fn exchange_by(
    alloc: Global,
    site: &Site<'_>,
    handed: &Form,
    rd: u8,
    value: &KnownValue,
    place: KnownValue,
    bounds: Bounds,
) -> Result<Successors, Lack>
    ensures { IfOk result (λ next. next ≡ exchange_by (queue_at site.now.certificate.now) (length site.now.certificate.now.queues) (own_of
        site.now.certificate.now) (length site.now.certificate.now.harts) site.now.hart site.now.state.now handed.now rd value.now place bounds
        (last_below (length site.now.certificate.now.queues) (is_own_index (queue_at site.now.certificate.now) site.now.hart bounds 4))) }
{
    let (certificate, hart) = (site.certificate, site.hart);
    let moves = last_own_index(certificate, hart, bounds, 4)?;
    let target = Target {
        place,
        bounds,
        width: 4,
    };
    let may = may_store_all(alloc, site, handed, value, &target, moves)?;
    let leaves = leaves_words(certificate, hart, bounds, 4)?;
    let misses = misses_all(certificate, hart, bounds, 4)?;
    if may && leaves && misses {
        let next = after_exchange(alloc, site, handed, rd, value, bounds, moves)?;
        one(alloc, next)
    } else {
        Ok(not_shown(alloc))
    }
}

/// The states that may follow an AMO on the word at these addresses.
fn exchange_at(
    alloc: Global,
    site: &Site<'_>,
    handed: &Form,
    amo: &Exchange,
    place: KnownValue,
    bounds: Bounds,
) -> Result<Successors, Lack>
    ensures { IfOk result (λ next. next ≡ exchanging (queue_at site.now.certificate.now) (length site.now.certificate.now.queues) (own_of
        site.now.certificate.now) (length site.now.certificate.now.harts) site.now.hart site.now.state.now handed.now amo.now.op amo.now.rd
        amo.now.with place (Some bounds)) }
{
    let value = value_exchanged(alloc, site, amo.op, &amo.with, bounds)?;
    exchange_by(alloc, site, handed, amo.rd, &value, place, bounds)
}

/// The states that may follow an AMO.
pub(crate) fn exchanging(
    alloc: Global,
    site: &Site<'_>,
    handed: &Form,
    amo: &Exchange,
    place: KnownValue,
    bounds: Option<Bounds>,
) -> Result<Successors, Lack>
    ensures { IfOk result (λ next. next ≡ exchanging (queue_at site.now.certificate.now) (length site.now.certificate.now.queues) (own_of
        site.now.certificate.now) (length site.now.certificate.now.harts) site.now.hart site.now.state.now handed.now amo.now.op amo.now.rd
        amo.now.with place bounds) }
{
    match bounds {
        None => Ok(not_shown(alloc)),
        Some(bounds) => exchange_at(alloc, site, handed, amo, place, bounds),
    }
}
