//! What an instruction of a queue's receiver does to its slots and its count.

ghost use Rattle.std.specs.Prelude.{◌≡◌, IfOk};
ghost use Rattle.records_written.specs.Parties.{owned_bytes, moves_tail, receipt_of, moves_tag, owned_of, tag_receipt_of};

use known_values::queues::queue_in;
use known_values::ranges::most;
use known_values::{Form, Lack, Queue};
use queue_certificates::Effect;
use queue_checker::effects::{filled_by, published_by};
use queue_checker::loads::last_own_index;
use queue_checker::sites::small;
use queue_checker::states::{share_after, share_in};
use queue_checker::tag_stores::moved_tag;
use queue_checker::tagged_queues::{bare, tagged_in};
use queue_checker::targets::{Target, load_target, store_target};
use queue_checker::{KnownState, QueueCertificate, Share};
use rv_decode::Instr;
use std::alloc::Global;

/// The bytes that an instruction accesses, if it accesses any.
fn owned_bytes(
    alloc: Global,
    ranges: &[Option<u64>],
    queue: Queue,
    share: &Share,
    target: Option<Target>,
) -> Result<Effect, Lack>
    ensures { IfOk result (λ effect. effect ≡ owned_bytes ranges.now queue share.now target) }
{
    match target {
        None => Ok(Effect::Leaves),
        Some(target) => filled_by(alloc, ranges, queue, share, &target.place, target.width),
    }
}

/// Whether a store is of the receiver's own index of the queue, whole.
fn moves_tail(certificate: &QueueCertificate, i: u32, target: Option<Target>) -> Result<bool, Lack>
    ensures { IfOk result (λ moves. moves ≡ moves_tail certificate.now i target) }
{
    match target {
        None => Ok(false),
        Some(target) => {
            let hart = queue_in(&certificate.queues, i).receiver;
            Ok(last_own_index(certificate, hart, target.bounds, target.width)? == Some(i))
        }
    }
}

/// The effect of an instruction of the receiver's; none where it isn't known how many positions it hands back.
pub(crate) fn receipt_of(
    alloc: Global,
    certificate: &QueueCertificate,
    i: u32,
    state: &KnownState,
    handed: &Form,
    instruction: Option<Instr>,
) -> Result<Option<Effect>, Lack>
    ensures { IfOk result (λ effect. effect ≡ receipt_of certificate.now i state.now handed.now instruction) }
{
    let stored = store_target(alloc, certificate, state, instruction)?;
    if moves_tail(certificate, i, stored)? {
        Ok(published_by(handed, most(&state.ranges, handed)?))
    } else {
        let queue = queue_in(&certificate.queues, i);
        let share = share_in(alloc, &state.shares, i as usize)?;
        let loaded = load_target(alloc, certificate, state, instruction)?;
        let effect = owned_bytes(alloc, &state.ranges, queue, &share, loaded)?;
        Ok(Some(effect))
    }
}

/// Whether a store is of the tag of the receiver's own position of queue `t`, whole.
fn moves_tag(
    alloc: Global,
    certificate: &QueueCertificate,
    t: u32,
    state: &KnownState,
    target: Option<Target>,
) -> Result<bool, Lack>
    ensures { IfOk result (λ moves. moves ≡ moves_tag certificate.now t state.now target) }
{
    match target {
        None => Ok(false),
        Some(target) => {
            let hart = tagged_in(&certificate.tagged, t).receiver;
            Ok(moved_tag(alloc, certificate, hart, state, &target)? == Some(t))
        }
    }
}

/// The bytes that an instruction accesses of owned slots of queue `t` with tags.
fn owned_of(
    alloc: Global,
    certificate: &QueueCertificate,
    t: u32,
    state: &KnownState,
    target: Option<Target>,
) -> Result<Effect, Lack>
    ensures { IfOk result (λ effect. effect ≡ owned_of certificate.now t state.now target) }
{
    let slots = bare(tagged_in(&certificate.tagged, t));
    let count = small(certificate.queues.len())?;
    let share = share_after(alloc, &state.shares, count, t)?;
    owned_bytes(alloc, &state.ranges, slots, &share, target)
}

/// The effect of an instruction of the receiver of queue `t` with tags.
pub(crate) fn tag_receipt_of(
    alloc: Global,
    certificate: &QueueCertificate,
    t: u32,
    state: &KnownState,
    instruction: Option<Instr>,
) -> Result<Effect, Lack>
    ensures { IfOk result (λ effect. effect ≡ tag_receipt_of certificate.now t state.now instruction) }
{
    let stored = store_target(alloc, certificate, state, instruction)?;
    if moves_tag(alloc, certificate, t, state, stored)? {
        Ok(Effect::Publishes(1))
    } else {
        let loaded = load_target(alloc, certificate, state, instruction)?;
        owned_of(alloc, certificate, t, state, loaded)
    }
}
