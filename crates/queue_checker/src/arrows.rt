//! Whether all that a state says another says too, with forms for its variables.

ghost use Rattle.std.specs.Prelude.{◌≡◌, ◌&&◌, ◌++◌, ◌+◌, ℕ, List, IfOk, length, map, get_or, nat_lt};
ghost use Rattle.queue_certificates.specs.Forms.{substituted, settled};
ghost use Rattle.queue_certificates.specs.States.{is_within, value_by, state_by, no_share};
ghost use Rattle.queue_certificates.specs.Steps.{all_below};
ghost use Rattle.queue_certificates.specs.Tags.{covers_share, tags_lead};
ghost use Rattle.queue_certificates.specs.Certificates.{nowhere, queue_at, part_of, state_at, all_within};
ghost use Rattle.queue_certificates.specs.Certificates.{is_share, leads_to, arrow_leads, each_leads, all_lead};
ghost use Rattle.known_values.specs.Queues.{queue_in};

use crate::certificate::{Arrow, KnownState, ListedState, QueueCertificate, Share};
use crate::sites::{listed_states, small};
use crate::states::{settled_state, share_after, share_in};
use crate::successors::Successors;
use crate::tagged_queues::tagged_count;
use known_values::forms::{is_same, substituted};
use known_values::ranges::{are_in, fits_in, most, settled};
use known_values::values::{any, is_within, substituted_value};
use known_values::{Form, KnownValue, Lack, OpenedQueue};
use std::alloc::Global;

fn is_within_by(
    alloc: Global,
    queues: &[OpenedQueue],
    ranges: &[Option<u64>],
    value: &KnownValue,
    wanted: &KnownValue,
    forms: &[Form],
) -> Result<bool, Lack>
    ensures { IfOk result (λ within. within ≡ is_within (queue_in queues.now) ranges.now value.now (value_by (λ f. substituted f forms.now) wanted.now)) }
{
    let wanted = substituted_value(alloc, wanted, forms)?;
    is_within(alloc, queues, ranges, value, &wanted)
}

/// Whether what has these values has the others, with forms for their variables.
fn all_within(
    alloc: Global,
    queues: &[OpenedQueue],
    ranges: &[Option<u64>],
    mut values: &[KnownValue],
    mut wanted: &[KnownValue],
    forms: &[Form],
) -> Result<bool, Lack>
    ensures { IfOk result (λ within. within ≡ all_within (queue_in queues.now) ranges.now values.now wanted.now forms.now) }
{
    'values: loop {
        match (values, wanted) {
            (_, []) => return Ok(true),
            ([], [first, others @ ..]) => {
                if !is_within_by(alloc, queues, ranges, &any(), first, forms)? {
                    return Ok(false);
                }
                wanted = others;
            }
            ([value, more @ ..], [first, others @ ..]) => {
                if !is_within_by(alloc, queues, ranges, value, first, forms)? {
                    return Ok(false);
                }
                values = more;
                wanted = others;
            }
        }
    }
}

fn is_share(alloc: Global, share: &Share, wanted: &Share, forms: &[Form]) -> Result<bool, Lack>
    ensures { IfOk result (λ same. same ≡ is_share share.now wanted.now forms.now) }
{
    let own = is_same(0, &share.own, &substituted(alloc, &wanted.own, forms)?);
    let owned = is_same(0, &share.owned, &substituted(alloc, &wanted.owned, forms)?);
    Ok(own && owned)
}

fn is_share_at(
    alloc: Global,
    shares: &[Share],
    wanted: &[Share],
    forms: &[Form],
    i: u32,
) -> Result<bool, Lack>
    ensures { IfOk result (λ same. same ≡ is_share (get_or shares.now i no_share) (get_or wanted.now i no_share) forms.now) }
{
    let share = share_in(alloc, shares, i as usize)?;
    let other = share_in(alloc, wanted, i as usize)?;
    is_share(alloc, &share, &other, forms)
}

/// Whether the shares of as many queues as `count` are the others, with forms for their variables.
fn are_shares(
    alloc: Global,
    count: u32,
    shares: &[Share],
    wanted: &[Share],
    forms: &[Form],
) -> Result<bool, Lack>
    ensures { IfOk result (λ same. same ≡ all_below count (λ i. is_share (get_or shares.now i no_share) (get_or wanted.now i no_share) forms.now)) }
{
    let mut all = true;
    for i in 0..count {
        all = is_share_at(alloc, shares, wanted, forms, i)? && all;
    }
    Ok(all)
}

/// Whether all that a state says the other says, with these forms for its variables.
fn leads_to(
    alloc: Global,
    queues: &[OpenedQueue],
    state: &KnownState,
    target: &KnownState,
    forms: &[Form],
) -> Result<bool, Lack>
    ensures { IfOk result (λ leads. leads ≡ leads_to (queue_in queues.now) (length queues.now) state.now target.now forms.now) }
{
    let here = state.pc == target.pc;
    let fits = are_in(&state.ranges, forms, &target.ranges)?;
    let registers = all_within(
        alloc,
        queues,
        &state.ranges,
        &state.registers,
        &target.registers,
        forms,
    )?;
    let words = all_within(
        alloc,
        queues,
        &state.ranges,
        &state.words,
        &target.words,
        forms,
    )?;
    let shares = are_shares(
        alloc,
        small(queues.len())?,
        &state.shares,
        &target.shares,
        forms,
    )?;
    Ok(here && fits && registers && words && shares)
}

/// Whether a share of a queue with tags says all that another says, with forms for its variables.
fn covers_share(
    alloc: Global,
    ranges: &[Option<u64>],
    share: &Share,
    wanted: &Share,
    forms: &[Form],
) -> Result<bool, Lack>
    ensures { IfOk result (λ covers. covers ≡ covers_share ranges.now share.now wanted.now forms.now) }
{
    let own = is_same(0, &share.own, &substituted(alloc, &wanted.own, forms)?);
    let owned = most(ranges, &substituted(alloc, &wanted.owned, forms)?)?;
    let fits = fits_in(owned, Some(share.owned.constant));
    Ok(own && fits)
}

fn covers_share_at(
    alloc: Global,
    count: u32,
    state: &KnownState,
    target: &KnownState,
    forms: &[Form],
    i: u32,
) -> Result<bool, Lack>
    ensures { IfOk result (λ covers. covers ≡ covers_share state.now.ranges (get_or state.now.shares (count + i) no_share)
        (get_or target.now.shares (count + i) no_share) forms.now) }
{
    let share = share_after(alloc, &state.shares, count, i)?;
    let wanted = share_after(alloc, &target.shares, count, i)?;
    covers_share(alloc, &state.ranges, &share, &wanted, forms)
}

/// Whether the shares of as many queues with tags as `tags`, after those of `count` others, say all that the other state's say.
fn tags_lead(
    alloc: Global,
    count: u32,
    tags: u32,
    state: &KnownState,
    target: &KnownState,
    forms: &[Form],
) -> Result<bool, Lack>
    ensures { IfOk result (λ lead. lead ≡ tags_lead count tags state.now target.now forms.now) }
{
    let mut all = true;
    for i in 0..tags {
        all = covers_share_at(alloc, count, state, target, forms, i)? && all;
    }
    Ok(all)
}

fn settled_forms(alloc: Global, ranges: &[Option<u64>], forms: &[Form]) -> Result<Vec<Form>, Lack>
    ensures { IfOk result (λ fs. fs.items ≡ map (settled ranges.now) forms.now) }
{
    let mut out = Vec::new(alloc);
    for form in forms {
        out.push(settled(alloc, ranges, form)?)?;
    }
    Ok(out)
}

/// The state without the variables that can only be 0.
fn settled_here(alloc: Global, state: &KnownState) -> Result<KnownState, Lack>
    ensures { IfOk result (λ s. s ≡ state_by (settled state.now.ranges) state.now.ranges state.now) }
{
    let ranges = Vec::from_slice(alloc, &state.ranges)?;
    settled_state(alloc, state, ranges)
}

/// The same of what is left without variables that can only be 0, and of the shares of as many queues with tags as `tags`.
fn arrow_leads(
    alloc: Global,
    queues: &[OpenedQueue],
    tags: u32,
    state: &KnownState,
    target: &KnownState,
    forms: &[Form],
) -> Result<bool, Lack>
    ensures { IfOk result (λ leads. leads ≡ arrow_leads (queue_in queues.now) (length queues.now) tags state.now target.now forms.now) }
{
    let settled = settled_here(alloc, state)?;
    let forms = settled_forms(alloc, &state.ranges, forms)?;
    let count = small(queues.len())?;
    let told = tags_lead(alloc, count, tags, &settled, target, &forms)?;
    let leads = leads_to(alloc, queues, &settled, target, &forms)?;
    Ok(leads && told)
}

/// Whether the arrow leads from a state to one of these, which says no more.
fn leads_among(
    alloc: Global,
    queues: &[OpenedQueue],
    tags: u32,
    states: &[ListedState],
    state: &KnownState,
    arrow: &Arrow,
) -> Result<bool, Lack>
    ensures { IfOk result (λ leads. leads ≡ (nat_lt arrow.now.to (length states.now)
        && arrow_leads (queue_in queues.now) (length queues.now) tags state.now (get_or states.now arrow.now.to nowhere).known arrow.now.forms)) }
{
    match states.get(arrow.to as usize) {
        None => Ok(false),
        Some(target) => arrow_leads(alloc, queues, tags, state, &target.known, &arrow.forms),
    }
}

/// Whether the arrow leads from a state to one that the hart's part lists, and which says no more.
fn one_leads(
    alloc: Global,
    certificate: &QueueCertificate,
    hart: u32,
    state: &KnownState,
    arrow: &Arrow,
) -> Result<bool, Lack>
    ensures { IfOk result (λ leads. leads ≡ (nat_lt arrow.now.to (length (part_of certificate.now hart).states)
        && arrow_leads (queue_at certificate.now) (length certificate.now.queues) (length certificate.now.tagged) state.now
        (state_at certificate.now hart arrow.now.to).known arrow.now.forms)) }
{
    let states = listed_states(certificate, hart);
    let tags = tagged_count(certificate)?;
    leads_among(alloc, &certificate.queues, tags, states, state, arrow)
}

fn each_leads(
    alloc: Global,
    certificate: &QueueCertificate,
    hart: u32,
    mut states: &[KnownState],
    mut arrows: &[Arrow],
) -> Result<bool, Lack>
    ensures { IfOk result (λ lead. lead ≡ each_leads certificate.now hart states.now arrows.now) }
{
    'states: loop {
        match (states, arrows) {
            ([], _) => return Ok(true),
            ([_first, _others @ ..], []) => return Ok(false),
            ([state, more @ ..], [arrow, others @ ..]) => {
                if !one_leads(alloc, certificate, hart, state, arrow)? {
                    return Ok(false);
                }
                states = more;
                arrows = others;
            }
        }
    }
}

/// Whether an arrow leads from each state that may follow to a listed one.
pub(crate) fn all_lead(
    alloc: Global,
    certificate: &QueueCertificate,
    hart: u32,
    next: &Successors,
    arrows: &[Arrow],
) -> Result<bool, Lack>
    ensures { IfOk result (λ lead. lead ≡ all_lead certificate.now hart next.now arrows.now) }
{
    if next.shown {
        each_leads(alloc, certificate, hart, &next.states, arrows)
    } else {
        Ok(false)
    }
}
