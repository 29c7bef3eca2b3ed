//! What an instruction of a queue's sender does to its slots and its count.

ghost use Rattle.std.specs.Prelude.{◌≡◌, IfOk, length};
ghost use Rattle.queue_certificates.specs.Certificates.{queue_at};
ghost use Rattle.queue_certificates.specs.Effects.{published_by, filled_by, moves_head, effect_at, effect_of, value_stored};
ghost use Rattle.queue_certificates.specs.Filled.{most_published};

use crate::certificate::{KnownState, QueueCertificate, Share};
use crate::loads::last_own_index;
use crate::places::{offset_at, position_at};
use crate::slots::is_owned;
use crate::states::share_in;
use crate::steps::operand;
use crate::stores::store_width;
use crate::targets::{Target, accessed, exchanged};
use known_values::queues::queue_in;
use known_values::ranges::most;
use known_values::values::any;
use known_values::{Bounds, Form, Known, KnownValue, Lack, Queue};
use queue_certificates::Effect;
use rv_decode::Instr;
use std::alloc::Global;

/// Positions are published, or handed back, as many as a form is; nothing, where no bound is known of their number.
pub fn published_by(handed: &Form, bound: Option<u64>) -> Option<Effect>
    ensures { result ≡ published_by handed.now bound }
{
    match bound {
        None => None,
        Some(n) => {
            if n == handed.constant {
                Some(Effect::Publishes(n))
            } else {
                Some(Effect::PublishesSome(n))
            }
        }
    }
}

/// The bytes at a value, where they are shown to be of the slot of an owned position.
pub fn filled_by(
    alloc: Global,
    ranges: &[Option<u64>],
    queue: Queue,
    share: &Share,
    place: &KnownValue,
    width: u64,
) -> Result<Effect, Lack>
    ensures { IfOk result (λ effect. effect ≡ filled_by ranges.now queue share.now place.now width) }
{
    let owned = is_owned(alloc, ranges, queue, share, place, width)?;
    match &place.known {
        Known::Linear(form) => {
            if owned {
                Ok(Effect::Fills {
                    position: position_at(queue, share.own.constant, form.constant)?,
                    offset: offset_at(queue, form.constant),
                    width,
                })
            } else {
                Ok(Effect::Leaves)
            }
        }
        Known::Any => Ok(Effect::Leaves),
        Known::IndexFor(_, _) => Ok(Effect::Leaves),
        Known::SignedFor(_, _) => Ok(Effect::Leaves),
        Known::EndsAs(_, _) => Ok(Effect::Leaves),
        Known::HasBits(_, _) => Ok(Effect::Leaves),
    }
}

/// Whether a store is of the queue's head, whole.
fn moves_head(
    certificate: &QueueCertificate,
    i: u32,
    bounds: Bounds,
    width: u64,
) -> Result<bool, Lack>
    ensures { IfOk result (λ moves. moves ≡ moves_head (queue_at certificate.now) (length certificate.now.queues) i bounds width) }
{
    let hart = queue_in(&certificate.queues, i).sender;
    match last_own_index(certificate, hart, bounds, width)? {
        None => Ok(false),
        Some(n) => Ok(n == i),
    }
}

/// The effect of a store, or of an AMO.
fn effect_at(
    alloc: Global,
    certificate: &QueueCertificate,
    i: u32,
    state: &KnownState,
    handed: &Form,
    target: &Target,
) -> Result<Option<Effect>, Lack>
    ensures { IfOk result (λ effect. effect ≡ effect_at (queue_at certificate.now) (length certificate.now.queues) i state.now handed.now
        target.now.place target.now.bounds target.now.width) }
{
    if moves_head(certificate, i, target.bounds, target.width)? {
        Ok(published_by(handed, most(&state.ranges, handed)?))
    } else {
        let queue = queue_in(&certificate.queues, i);
        let share = share_in(alloc, &state.shares, i as usize)?;
        let effect = filled_by(
            alloc,
            &state.ranges,
            queue,
            &share,
            &target.place,
            target.width,
        )?;
        Ok(Some(effect))
    }
}

/// The effect of an instruction of the sender's; none where it isn't known how many positions it publishes.
pub fn effect_of(
    alloc: Global,
    certificate: &QueueCertificate,
    i: u32,
    state: &KnownState,
    handed: &Form,
    instruction: Option<Instr>,
) -> Result<Option<Effect>, Lack>
    ensures { IfOk result (λ effect. effect ≡ effect_of (queue_at certificate.now) (length certificate.now.queues) i state.now handed.now instruction) }
{
    match instruction {
        Some(
            Instr::Store {
                op,
                rs1,
                offset,
                ..
            },
        ) => {
            let target = accessed(alloc, certificate, state, rs1, offset, store_width(op))?;
            effect_at(alloc, certificate, i, state, handed, &target)
        }
        Some(Instr::Amo { rs1, .. }) => {
            let target = exchanged(alloc, certificate, state, rs1)?;
            effect_at(alloc, certificate, i, state, handed, &target)
        }
        _ => Ok(Some(Effect::Leaves)),
    }
}

/// The number that the instruction stores, as far as it is known.
pub(crate) fn value_stored(
    alloc: Global,
    certificate: &QueueCertificate,
    state: &KnownState,
    instruction: Option<Instr>,
) -> Result<KnownValue, Lack>
    ensures { IfOk result (λ value. value ≡ value_stored (queue_at certificate.now) state.now instruction) }
{
    match instruction {
        Some(Instr::Store { rs2, .. }) => operand(alloc, certificate, state, rs2),
        _ => Ok(any()),
    }
}

/// At most how many positions are published.
pub fn most_published(effect: Effect) -> u64
    ensures { result ≡ most_published effect }
{
    match effect {
        Effect::Leaves | Effect::Fills { .. } => 0,
        Effect::Publishes(n) | Effect::PublishesSome(n) => n,
    }
}
