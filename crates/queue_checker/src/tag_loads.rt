//! Loads of tags: of which queue's tag one is, and the states after it.

ghost use Rattle.std.specs.Prelude.{◌≡◌, ◌||◌, ◌+◌, Some, None, if◌then◌else◌, IfOk, length};
ghost use Rattle.hart.specs.Effects.{next_pc, load_width};
ghost use Rattle.queue_certificates.specs.Forms.{lifted, number};
ghost use Rattle.queue_certificates.specs.Steps.{may_load, with_result, address_value, addresses};
ghost use Rattle.queue_certificates.specs.Tags.{party_in, told_value, other_value, looked_tag, when_told, after_tag, at_tag};
ghost use Rattle.queue_certificates.specs.Tags.{tag_at, load_tells};
ghost use Rattle.queue_certificates.specs.Certificates.{queue_at, own_of, tagged_at};
ghost use Rattle.queue_layouts.specs.Sides.{the_party};

use crate::certificate::{KnownState, QueueCertificate, Share};
use crate::loads::{load_width, may_load};
use crate::sites::{Site, place_after, queue_count};
use crate::states::{next_pc, with_result, with_share};
use crate::successors::{Successors, not_shown, one, two};
use crate::tag_values::{other_value, told_value};
use crate::tagged_queues::{party_in, tagged_count, tagged_in};
use crate::tags::{tag_at, tag_share};
use crate::targets::{Target, accessed};
use known_values::Lack;
use known_values::forms::{lifted, number};
use known_values::lack::sum;
use queue_layouts::Party;
use rv_decode::Reg;
use rv_decode::instruction::LoadOp;
use std::alloc::Global;

/// The last queue of which a load is of a tag, whole.
fn looked_tag(
    alloc: Global,
    certificate: &QueueCertificate,
    hart: u32,
    state: &KnownState,
    target: &Target,
) -> Result<Option<u32>, Lack>
    ensures { IfOk result (λ last. last ≡ looked_tag (tagged_at certificate.now) (length certificate.now.tagged) (length certificate.now.queues) hart
        state.now target.now.place target.now.width) }
{
    let mut last = None;
    for t in 0..tagged_count(certificate)? {
        let place = &target.place;
        if tag_at(alloc, certificate, hart, state, place, target.width, t)?.is_some() {
            last = Some(t);
        }
    }
    Ok(last)
}

/// A party's share after a tag that tells it that it has the position so much further than its own count.
fn told_share(alloc: Global, share: &Share, position: u64) -> Result<Share, Lack>
    ensures { IfOk result (λ s. s ≡ record { own = lifted share.now.own; owned = number (position + 1) }) }
{
    Ok(Share {
        own: lifted(alloc, &share.own)?,
        owned: number(alloc, sum(position, 1)?),
    })
}

/// A party's load of the tag of the position that is `position` further than its own count.
#[derive(Drop)]
struct Look {
    party: Party,
    op: LoadOp,
    rd: u8,
    queue: u32,
    position: u64,
    share: Share,
}

/// The state after a load of a tag that tells the party what it knows already.
fn when_known(
    alloc: Global,
    certificate: &QueueCertificate,
    state: &KnownState,
    look: &Look,
) -> Result<KnownState, Lack>
    ensures { IfOk result (λ s. s ≡ with_result state.now look.now.rd (next_pc state.now.pc) (told_value state.now.ranges
        (tagged_at certificate.now look.now.queue) (tagged_at certificate.now look.now.queue).codec (the_party look.now.party) look.now.op
        look.now.share.own look.now.position)) }
{
    let queue = tagged_in(&certificate.tagged, look.queue);
    let (party, op, own) = (look.party, look.op, &look.share.own);
    let outcome = told_value(alloc, &state.ranges, queue, party, op, own, look.position)?;
    with_result(alloc, state, look.rd, next_pc(state.pc), outcome)
}

/// The state after a load of a tag that tells the party that it has the position.
fn when_told(
    alloc: Global,
    certificate: &QueueCertificate,
    state: &KnownState,
    look: &Look,
) -> Result<KnownState, Lack>
    ensures { IfOk result (λ s. s ≡ when_told (tagged_at certificate.now) (length certificate.now.queues) state.now (the_party look.now.party) look.now.op
        look.now.rd look.now.queue look.now.position look.now.share) }
{
    let place = place_after(queue_count(certificate)?, look.queue)?;
    let told = told_share(alloc, &look.share, look.position)?;
    let next = when_known(alloc, certificate, state, look)?;
    Ok(with_share(next, place, told))
}

/// The state after a load of a tag while the other party has the position.
fn when_not_told(
    alloc: Global,
    certificate: &QueueCertificate,
    state: &KnownState,
    look: &Look,
) -> Result<KnownState, Lack>
    ensures { IfOk result (λ s. s ≡ with_result state.now look.now.rd (next_pc state.now.pc) (other_value state.now.ranges
        (tagged_at certificate.now look.now.queue) (tagged_at certificate.now look.now.queue).codec (the_party look.now.party) look.now.op
        look.now.share.own look.now.position)) }
{
    let queue = tagged_in(&certificate.tagged, look.queue);
    let (party, op, own) = (look.party, look.op, &look.share.own);
    let outcome = other_value(alloc, &state.ranges, queue, party, op, own, look.position)?;
    with_result(alloc, state, look.rd, next_pc(state.pc), outcome)
}

/// The states that may follow a party's load of a tag.
fn after_tag(
    alloc: Global,
    certificate: &QueueCertificate,
    state: &KnownState,
    look: &Look,
) -> Result<Successors, Lack>
    ensures { IfOk result (λ next. next ≡ Some (after_tag (tagged_at certificate.now) (length certificate.now.queues) state.now
        (the_party look.now.party) look.now.op look.now.rd look.now.queue look.now.position look.now.share)) }
{
    let owned = &look.share.owned;
    if look.position < owned.constant {
        one(alloc, when_known(alloc, certificate, state, look)?)
    } else {
        let told = when_told(alloc, certificate, state, look)?;
        let other = when_not_told(alloc, certificate, state, look)?;
        two(alloc, told, other)
    }
}

fn at_tag(
    alloc: Global,
    site: &Site<'_>,
    op: LoadOp,
    rd: u8,
    t: u32,
    position: Option<u64>,
) -> Result<Successors, Lack>
    ensures { IfOk result (λ next. next ≡ at_tag (tagged_at site.now.certificate.now) (length site.now.certificate.now.queues)
        site.now.state.now (party_in (tagged_at site.now.certificate.now t) site.now.hart) op rd t position) }
{
    let (certificate, state) = (site.certificate, site.state);
    match party_in(tagged_in(&certificate.tagged, t), site.hart) {
        None => Ok(not_shown(alloc)),
        Some(party) => match position {
            None => Ok(not_shown(alloc)),
            Some(position) => {
                let look = Look {
                    party,
                    op,
                    rd,
                    queue: t,
                    position,
                    share: tag_share(alloc, certificate, state, t)?,
                };
                after_tag(alloc, certificate, state, &look)
            }
        },
    }
}

/// The states that may follow a load of a tag of queue `t`, if it isn't of an index too.
fn looks_at(
    alloc: Global,
    site: &Site<'_>,
    op: LoadOp,
    rd: u8,
    target: &Target,
    t: u32,
) -> Result<Successors, Lack>
    ensures { IfOk result (λ next. next ≡ (if may_load (queue_at site.now.certificate.now) (length site.now.certificate.now.queues)
        site.now.hart site.now.state.now target.now.bounds target.now.width None then at_tag (tagged_at site.now.certificate.now)
        (length site.now.certificate.now.queues) site.now.state.now (party_in (tagged_at site.now.certificate.now t) site.now.hart) op rd t
        (tag_at (tagged_at site.now.certificate.now) (length site.now.certificate.now.tagged) (length site.now.certificate.now.queues)
        site.now.hart site.now.state.now target.now.place target.now.width t) else None)) }
{
    let (certificate, hart, state) = (site.certificate, site.hart, site.state);
    if may_load(certificate, hart, state, target.bounds, target.width, None)? {
        let position = tag_at(
            alloc,
            certificate,
            hart,
            state,
            &target.place,
            target.width,
            t,
        )?;
        at_tag(alloc, site, op, rd, t, position)
    } else {
        Ok(not_shown(alloc))
    }
}

/// The states that may follow a load, where these do if there were no tags.
pub(crate) fn load_tells(
    alloc: Global,
    site: &Site<'_>,
    op: LoadOp,
    rd: u8,
    rs1: Reg,
    offset: i32,
    states: Vec<KnownState>,
) -> Result<Successors, Lack>
    ensures { IfOk result (λ next. next ≡ load_tells (tagged_at site.now.certificate.now) (length site.now.certificate.now.tagged) (queue_at
        site.now.certificate.now) (length site.now.certificate.now.queues) (own_of site.now.certificate.now) (length site.now.certificate.now.harts)
        site.now.hart site.now.state.now op rd (address_value (queue_at site.now.certificate.now) site.now.state.now rs1 offset) (addresses (queue_at
        site.now.certificate.now) site.now.state.now rs1 offset) (looked_tag (tagged_at site.now.certificate.now) (length
        site.now.certificate.now.tagged) (length site.now.certificate.now.queues) site.now.hart site.now.state.now (address_value (queue_at
        site.now.certificate.now) site.now.state.now rs1 offset) (load_width op)) states.items) }
{
    let (certificate, hart, state) = (site.certificate, site.hart, site.state);
    let target = accessed(alloc, certificate, state, rs1, offset, load_width(op))?;
    let look = looked_tag(alloc, certificate, hart, state, &target)?;
    match look {
        None => Ok(Successors {
            shown: true,
            states,
        }),
        Some(t) => looks_at(alloc, site, op, rd, &target, t),
    }
}
