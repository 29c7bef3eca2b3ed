//! What an instruction of the sender of a queue with tags does to its slots and its count.

ghost use Rattle.std.specs.Prelude.{◌≡◌, IfOk, length};
ghost use Rattle.queue_certificates.specs.Certificates.{queue_at, tagged_at};
ghost use Rattle.queue_certificates.specs.TagEffects.{tag_effect_at, tag_effect_of};

use crate::certificate::{KnownState, QueueCertificate};
use crate::effects::filled_by;
use crate::stores::store_width;
use crate::tag_stores::moved_tag;
use crate::tagged_queues::{bare, tagged_in};
use crate::tags::tag_share;
use crate::targets::{Target, accessed, exchanged};
use known_values::Lack;
use queue_certificates::Effect;
use rv_decode::Instr;
use std::alloc::Global;

/// The effect of a store, or of an AMO.
fn tag_effect_at(
    alloc: Global,
    certificate: &QueueCertificate,
    t: u32,
    state: &KnownState,
    target: &Target,
) -> Result<Effect, Lack>
    ensures { IfOk result (λ effect. effect ≡ tag_effect_at (tagged_at certificate.now) (length certificate.now.tagged) (length certificate.now.queues)
        (tagged_at certificate.now t).sender t state.now target.now.place target.now.width) }
{
    let queue = tagged_in(&certificate.tagged, t);
    if moved_tag(alloc, certificate, queue.sender, state, target)? == Some(t) {
        Ok(Effect::Publishes(1))
    } else {
        let share = tag_share(alloc, certificate, state, t)?;
        filled_by(
            alloc,
            &state.ranges,
            bare(queue),
            &share,
            &target.place,
            target.width,
        )
    }
}

/// The effect of an instruction of the sender of queue `t` with tags.
pub fn tag_effect_of(
    alloc: Global,
    certificate: &QueueCertificate,
    t: u32,
    state: &KnownState,
    instruction: Option<Instr>,
) -> Result<Effect, Lack>
    ensures { IfOk result (λ effect. effect ≡ tag_effect_of (tagged_at certificate.now) (length certificate.now.tagged) (queue_at certificate.now) (length
        certificate.now.queues) (tagged_at certificate.now t).sender t state.now instruction) }
{
    match instruction {
        Some(
            Instr::Store {
                op,
                rs1,
                offset,
                ..
            },
        ) => {
            let target = accessed(alloc, certificate, state, rs1, offset, store_width(op))?;
            tag_effect_at(alloc, certificate, t, state, &target)
        }
        Some(Instr::Amo { rs1, .. }) => {
            let target = exchanged(alloc, certificate, state, rs1)?;
            tag_effect_at(alloc, certificate, t, state, &target)
        }
        _ => Ok(Effect::Leaves),
    }
}
