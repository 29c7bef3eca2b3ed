//! Stores and AMOs, for queues with tags: which a hart may make, and what a store of a tag hands over.

ghost use Rattle.std.specs.Prelude.{◌≡◌, ◌+◌, ◌-◌, ◌&&◌, ◌||◌, IfOk, length, map, get_or, nat_le, nat_lt};
ghost use Rattle.queue_certificates.specs.Forms.{lifted, number, plus};
ghost use Rattle.queue_certificates.specs.States.{no_share};
ghost use Rattle.queue_certificates.specs.Tags.{
  party_in,
  is_beside_slots,
  is_of_rest,
  hands_over,
  with_share,
  handed,
  moved_tag,
  may_tell,
  may_store_all,
};
ghost use Rattle.queue_certificates.specs.Tags.{all_handed, store_tells};
ghost use Rattle.queue_certificates.specs.Steps.{share_at};
ghost use Rattle.queue_certificates.specs.Certificates.{tagged_at};
ghost use Rattle.queue_layouts.specs.Sides.{the_party};

use crate::certificate::{KnownState, QueueCertificate, Share};
use crate::sites::{Site, place_after, queue_count};
use crate::states::{copied_state, with_share};
use crate::successors::{Successors, not_shown};
use crate::tag_places::{is_beside_slots, is_of_rest};
use crate::tag_values::hands_over;
use crate::tagged_queues::{party_in, tagged_count, tagged_in};
use crate::tags::{tag_at, tag_share};
use crate::targets::Target;
use known_values::forms::{lifted, number, plus};
use known_values::{KnownValue, Lack};
use queue_layouts::Party;
use std::alloc::Global;

/// The last queue of which a store is of the tag of the own position, whole.
pub fn moved_tag(
    alloc: Global,
    certificate: &QueueCertificate,
    hart: u32,
    state: &KnownState,
    target: &Target,
) -> Result<Option<u32>, Lack>
    ensures { IfOk result (λ last. last ≡ moved_tag (tagged_at certificate.now) (length certificate.now.tagged) (length certificate.now.queues) hart
        state.now target.now.place target.now.width) }
{
    let mut last = None;
    for t in 0..tagged_count(certificate)? {
        let place = &target.place;
        if tag_at(alloc, certificate, hart, state, place, target.width, t)? == Some(0) {
            last = Some(t);
        }
    }
    Ok(last)
}

/// Whether a tag of this value hands the own position of queue `t` over, which the party owns.
fn may_hand_over(
    alloc: Global,
    certificate: &QueueCertificate,
    state: &KnownState,
    party: Party,
    stored: &KnownValue,
    t: u32,
) -> Result<bool, Lack>
    ensures { IfOk result (λ may. may ≡ (nat_le 1 (get_or state.now.shares (length certificate.now.queues + t) no_share).owned.constant && nat_lt
        (length certificate.now.queues + t) (length state.now.shares) && hands_over state.now.ranges (tagged_at certificate.now t) (tagged_at
        certificate.now t).codec (the_party party) (get_or state.now.shares (length certificate.now.queues + t) no_share).own stored.now)) }
{
    let queue = tagged_in(&certificate.tagged, t);
    let place = place_after(queue_count(certificate)?, t)?;
    let share = &tag_share(alloc, certificate, state, t)?;
    let over = hands_over(alloc, &state.ranges, queue, party, &share.own, stored)?;
    let owned = share.owned.constant >= 1;
    let listed = (place as usize) < state.shares.len();
    Ok(owned && listed && over)
}

/// Whether a store that is of no own tag keeps off queue `t`, or fills an owned slot of it.
fn leaves_tags(
    alloc: Global,
    certificate: &QueueCertificate,
    state: &KnownState,
    target: &Target,
    t: u32,
) -> Result<bool, Lack>
    ensures { IfOk result (λ leaves. leaves ≡ (is_beside_slots (tagged_at certificate.now t) target.now.bounds target.now.width || is_of_rest
        state.now.ranges (tagged_at certificate.now t) (get_or state.now.shares (length certificate.now.queues + t) no_share) target.now.place
        target.now.width)) }
{
    let queue = tagged_in(&certificate.tagged, t);
    if is_beside_slots(queue, target.bounds, target.width)? {
        Ok(true)
    } else {
        let share = tag_share(alloc, certificate, state, t)?;
        is_of_rest(
            alloc,
            &state.ranges,
            queue,
            &share,
            &target.place,
            target.width,
        )
    }
}

/// Whether a store of a value may be made, for queue `t`.
fn may_tell(
    alloc: Global,
    site: &Site<'_>,
    stored: &KnownValue,
    target: &Target,
    moves: Option<u32>,
    t: u32,
) -> Result<bool, Lack>
    ensures { IfOk result (λ may. may ≡ may_tell (tagged_at site.now.certificate.now) (length site.now.certificate.now.queues)
        site.now.state.now (party_in (tagged_at site.now.certificate.now t) site.now.hart) stored.now target.now.place target.now.bounds
        target.now.width moves t) }
{
    let (certificate, state) = (site.certificate, site.state);
    let queue = tagged_in(&certificate.tagged, t);
    match party_in(queue, site.hart) {
        None => is_beside_slots(queue, target.bounds, target.width),
        Some(party) => {
            if moves == Some(t) {
                may_hand_over(alloc, certificate, state, party, stored, t)
            } else {
                leaves_tags(alloc, certificate, state, target, t)
            }
        }
    }
}

/// Whether a store of a value may be made, for each queue with tags.
fn may_store_all(
    alloc: Global,
    site: &Site<'_>,
    stored: &KnownValue,
    target: &Target,
    moves: Option<u32>,
) -> Result<bool, Lack>
    ensures { IfOk result (λ may. may ≡ may_store_all (tagged_at site.now.certificate.now) (length site.now.certificate.now.tagged) (length
        site.now.certificate.now.queues) site.now.hart site.now.state.now stored.now target.now.place target.now.bounds target.now.width moves) }
{
    let mut all = true;
    for t in 0..tagged_count(site.certificate)? {
        all = may_tell(alloc, site, stored, target, moves, t)? && all;
    }
    Ok(all)
}

/// A share after one position is handed over.
fn handed_share(alloc: Global, share: &Share) -> Result<Share, Lack>
    ensures { IfOk result (λ s. s ≡ handed share.now) }
{
    let own = lifted(alloc, &share.own)?;
    let left = share.owned.constant.saturating_sub(1);
    Ok(Share {
        own: plus(alloc, &own, &number(alloc, 1))?,
        owned: number(alloc, left),
    })
}

/// A state with this share of a queue, after one position of it is handed over.
fn handed_state(
    alloc: Global,
    state: &KnownState,
    place: u32,
    share: &Share,
) -> Result<KnownState, Lack>
    ensures { IfOk result (λ s. s ≡ with_share place (handed share.now) state.now) }
{
    let handed = handed_share(alloc, share)?;
    let copy = copied_state(alloc, state)?;
    Ok(with_share(copy, place, handed))
}

/// These states, after one position of queue `t` is handed over.
fn handed_states(
    alloc: Global,
    certificate: &QueueCertificate,
    state: &KnownState,
    t: u32,
    states: &[KnownState],
) -> Result<Vec<KnownState>, Lack>
    ensures { IfOk result (λ next. next.items ≡ map (with_share (length certificate.now.queues + t) (handed
        (share_at state.now (length certificate.now.queues + t)))) states.now) }
{
    let place = place_after(queue_count(certificate)?, t)?;
    let share = tag_share(alloc, certificate, state, t)?;
    let mut out = Vec::new(alloc);
    for next in states {
        out.push(handed_state(alloc, next, place, &share)?)?;
    }
    Ok(out)
}

/// The same of the queue of which a tag is stored, if it is of one.
fn all_handed(
    alloc: Global,
    certificate: &QueueCertificate,
    state: &KnownState,
    moves: Option<u32>,
    states: Vec<KnownState>,
) -> Result<Vec<KnownState>, Lack>
    ensures { IfOk result (λ next. next.items ≡ all_handed (length certificate.now.queues) state.now moves states.items) }
{
    match moves {
        None => Ok(states),
        Some(t) => handed_states(alloc, certificate, state, t, &states),
    }
}

/// The states that may follow a store of a value, where these do if there were no tags.
pub(crate) fn store_tells(
    alloc: Global,
    site: &Site<'_>,
    stored: &KnownValue,
    target: &Target,
    moves: Option<u32>,
    states: Vec<KnownState>,
) -> Result<Successors, Lack>
    ensures { IfOk result (λ next. next ≡ store_tells (tagged_at site.now.certificate.now) (length site.now.certificate.now.tagged) (length
        site.now.certificate.now.queues) site.now.hart site.now.state.now stored.now target.now.place target.now.bounds target.now.width moves
        states.items) }
{
    if may_store_all(alloc, site, stored, target, moves)? {
        let states = all_handed(alloc, site.certificate, site.state, moves, states)?;
        Ok(Successors {
            shown: true,
            states,
        })
    } else {
        Ok(not_shown(alloc))
    }
}
