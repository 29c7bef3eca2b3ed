//! The parties of queues of both kinds.

ghost use Rattle.std.specs.Prelude.{◌≡◌, IfOk};
ghost use Rattle.queue_layouts.specs.Sides.{the_party};
ghost use Rattle.queue_parties.specs.Parties.{hart_among};
ghost use Rattle.records_written.specs.Parties.{hart_by, effect_counted, counts_for, effect_by};
ghost use Rattle.records_written.specs.Marks.{first_of};

use crate::receipts::{receipt_of, tag_receipt_of};
use known_values::queues::queue_in;
use known_values::{Form, Lack};
use queue_certificates::Effect;
use queue_checker::effects::effect_of;
use queue_checker::tag_effects::tag_effect_of;
use queue_checker::tagged_queues::tagged_in;
use queue_checker::{KnownState, QueueCertificate};
use queue_layouts::Party;
use rv_decode::{AmoOp, Instr};
use std::alloc::Global;

/// A queue of a certificate: by its number among those with indices, or among those with tags.
#[derive(Clone, Copy)]
pub enum QueueNumber {
    Indexed(u32),
    Tagged(u32),
}

fn hart_among(sender: u32, receiver: u32, party: Party) -> u32
    ensures { result ≡ hart_among sender receiver (the_party party) }
{
    match party {
        Party::Sender => sender,
        Party::Receiver => receiver,
    }
}

/// The hart of a party.
pub(crate) fn hart_by(certificate: &QueueCertificate, queue: QueueNumber, party: Party) -> u32
    ensures { result ≡ hart_by certificate.now queue (the_party party) }
{
    match queue {
        QueueNumber::Indexed(i) => {
            let its = queue_in(&certificate.queues, i);
            hart_among(its.sender, its.receiver, party)
        }
        QueueNumber::Tagged(t) => {
            let its = tagged_in(&certificate.tagged, t);
            hart_among(its.sender, its.receiver, party)
        }
    }
}

/// The number of the state in which a party opens.
pub(crate) fn first_state(certificate: &QueueCertificate, queue: QueueNumber, party: Party) -> u32
    ensures { result ≡ first_of certificate.now queue (the_party party) }
{
    let hart = hart_by(certificate, queue, party);
    match certificate.harts.get(hart as usize) {
        Some(part) => part.first,
        None => 0,
    }
}

/// Whether the bytes count that an instruction of a party's accesses.
pub(crate) fn counts_for(party: Party, instruction: Option<Instr>) -> bool
    ensures { result ≡ counts_for (the_party party) instruction }
{
    match (party, instruction) {
        (Party::Sender, Some(Instr::Amo { op, .. })) => matches!(op, AmoOp::Swap),
        (Party::Receiver, Some(Instr::Load { rd, .. })) => rd.number != 0,
        (Party::Receiver, Some(Instr::Amo { rd, .. })) => rd.number != 0,
        _ => true,
    }
}

/// An effect without the bytes, if these don't count.
pub(crate) fn effect_counted(counts: bool, effect: Option<Effect>) -> Option<Effect>
    ensures { result ≡ effect_counted counts effect }
{
    match effect {
        Some(Effect::Fills { .. }) if !counts => Some(Effect::Leaves),
        _ => effect,
    }
}

/// The effect of an instruction of a party's, whether its bytes count or not; none where it isn't known how many positions it hands on.
pub(crate) fn effect_by(
    alloc: Global,
    certificate: &QueueCertificate,
    queue: QueueNumber,
    party: Party,
    state: &KnownState,
    handed: &Form,
    instruction: Option<Instr>,
) -> Result<Option<Effect>, Lack>
    ensures { IfOk result (λ effect. effect ≡ effect_by certificate.now queue (the_party party) state.now handed.now instruction) }
{
    match (queue, party) {
        (QueueNumber::Indexed(i), Party::Sender) => {
            effect_of(alloc, certificate, i, state, handed, instruction)
        }
        (QueueNumber::Indexed(i), Party::Receiver) => {
            receipt_of(alloc, certificate, i, state, handed, instruction)
        }
        (QueueNumber::Tagged(t), Party::Sender) => {
            let effect = tag_effect_of(alloc, certificate, t, state, instruction)?;
            Ok(Some(effect))
        }
        (QueueNumber::Tagged(t), Party::Receiver) => {
            let effect = tag_receipt_of(alloc, certificate, t, state, instruction)?;
            Ok(Some(effect))
        }
    }
}
