//! Whether what a certificate says of the fields of records holds, in the states of senders and receivers.

ghost use Rattle.std.specs.Prelude.{◌≡◌, ◌==◌, ◌||◌, IfOk, [], false, length, get_or};
ghost use Rattle.slot_queue.specs.Ownership.{party_of};
ghost use Rattle.queue_certificates.specs.Steps.{instruction_at};
ghost use Rattle.queue_certificates.specs.Filled.{is_filled_after, are_so};
ghost use Rattle.queue_certificates.specs.Certificates.{queue_at, fields_at, state_at, leaves_slots, arrows_fill, effect_sends, keeps_records};
ghost use Rattle.queue_checker.specs.Operands.{store_target};
ghost use Rattle.queue_certificates.specs.Certificates.{keeps_fields, keeps_all_fields, opens_unfilled};

use crate::certificate::{Arrow, Filled, FilledSlot, KnownState, ListedState, QueueCertificate};
use crate::effects::{effect_of, value_stored};
use crate::filled::{Sending, are_so, filled_in, may_send, says_nothing};
use crate::leaves::{LeafCheck, each_leaf};
use crate::places::misses_slots;
use crate::sites::{Site, listed_states, queue_count};
use crate::steps::instruction_at;
use crate::targets::store_target;
use known_values::queues::{fields_in, queue_in};
use known_values::{Form, KnownValue, Lack};
use queue_certificates::Effect;
use rv_decode::Instr;
use std::alloc::Global;

/// Whether an instruction stores nothing to queue `i`'s slots.
#[tactic(auto, using(crate::proofs::Accessed::left_slots))]
fn leaves_slots(
    alloc: Global,
    certificate: &QueueCertificate,
    i: u32,
    state: &KnownState,
    instruction: Option<Instr>,
) -> Result<bool, Lack>
    ensures { IfOk result (λ leaves. leaves ≡ leaves_slots certificate.now i state.now instruction) }
{
    match store_target(alloc, certificate, state, instruction)? {
        Some(target) => {
            let queue = queue_in(&certificate.queues, i);
            misses_slots(queue, target.bounds, target.width)
        }
        None => Ok(true),
    }
}

/// What the hart's state `n` says to be right of queue `i`.
fn filled_at(certificate: &QueueCertificate, hart: u32, n: u32, i: u32) -> &[FilledSlot]
    ensures { result.now ≡ get_or (state_at certificate.now hart n).filled i [] }
{
    match listed_states(certificate, hart).get(n as usize) {
        Some(listed) => filled_in(&listed.filled, i),
        None => &[],
    }
}

/// Whether all that the hart's state `n` says to be right is so after an effect.
fn target_fills(
    alloc: Global,
    certificate: &QueueCertificate,
    hart: u32,
    i: u32,
    sending: &Sending<'_, '_, '_>,
    n: u32,
) -> Result<bool, Lack>
    ensures { IfOk result (λ fills. fills ≡ are_so (get_or (state_at certificate.now hart n).filled i [])
        (is_filled_after sending.now.ranges.now sending.now.queue sending.now.fields.now sending.now.stored.now sending.now.slots.now
        sending.now.effect)) }
{
    are_so(alloc, filled_at(certificate, hart, n, i), sending)
}

/// Whether all that each arrow's state says to be right is so after an effect.
fn arrows_fill(
    alloc: Global,
    certificate: &QueueCertificate,
    hart: u32,
    i: u32,
    sending: &Sending<'_, '_, '_>,
    mut arrows: &[Arrow],
) -> Result<bool, Lack>
    ensures { IfOk result (λ fill. fill ≡ arrows_fill certificate.now hart i arrows.now
        (is_filled_after sending.now.ranges.now sending.now.queue sending.now.fields.now sending.now.stored.now sending.now.slots.now
        sending.now.effect)) }
{
    'arrows: loop {
        match arrows {
            [] => return Ok(true),
            [arrow, others @ ..] => {
                let to = arrow.to;
                if !target_fills(alloc, certificate, hart, i, sending, to)? {
                    return Ok(false);
                }
                arrows = others;
            }
        }
    }
}

/// Whether an effect of the sender's is allowed, and leads into states that say what is so.
fn effect_sends(
    alloc: Global,
    site: &Site<'_>,
    i: u32,
    slots: &[FilledSlot],
    arrows: &[Arrow],
    stored: &KnownValue,
    effect: Option<Effect>,
) -> Result<bool, Lack>
    ensures { IfOk result (λ sends. sends ≡ effect_sends site.now.certificate.now site.now.hart i slots.now site.now.state.now arrows.now stored.now
        effect) }
{
    let (certificate, hart, state) = (site.certificate, site.hart, site.state);
    match effect {
        None => Ok(false),
        Some(effect) => {
            let queue = queue_in(&certificate.queues, i);
            let fields = fields_in(&certificate.queues, i);
            let sending = Sending {
                ranges: &state.ranges,
                queue,
                fields,
                stored,
                slots,
                effect,
            };
            let may = may_send(u64::from(queue.size), fields, slots, effect);
            let fill = arrows_fill(alloc, certificate, hart, i, &sending, arrows)?;
            Ok(may && fill)
        }
    }
}

/// Whether a case of a state keeps what is said of queue `i`'s records.
fn keeps_records(
    alloc: Global,
    site: &Site<'_>,
    i: u32,
    slots: &[FilledSlot],
    handed: &Form,
    arrows: &[Arrow],
    instruction: Option<Instr>,
) -> Result<bool, Lack>
    ensures { IfOk result (λ keeps. keeps ≡ keeps_records site.now.certificate.now site.now.hart i (party_of (queue_at site.now.certificate.now i)
        site.now.hart) slots.now site.now.state.now handed.now arrows.now instruction) }
{
    let (certificate, state) = (site.certificate, site.state);
    let queue = queue_in(&certificate.queues, i);
    if site.hart == queue.sender {
        let stored = value_stored(alloc, certificate, state, instruction)?;
        let effect = effect_of(alloc, certificate, i, state, handed, instruction)?;
        effect_sends(alloc, site, i, slots, arrows, &stored, effect)
    } else if site.hart == queue.receiver {
        leaves_slots(alloc, certificate, i, state, instruction)
    } else {
        Ok(true)
    }
}

/// Asks of a leaf whether its instruction keeps what is said of the queue's records.
#[derive(Clone, Copy)]
struct Keeping<'a> {
    certificate: &'a QueueCertificate,
    hart: u32,
    code: &'a [u32],
    queue: u32,
    slots: &'a [FilledSlot],
}

impl LeafCheck for Keeping<'_> {
    ghost holds = { λ s k d arrows. keeps_records s.certificate.now s.hart s.queue (party_of (queue_at s.certificate.now s.queue) s.hart) s.slots.now k d
        arrows (instruction_at s.code.now k.pc) };

    fn holds(
        &self,
        alloc: Global,
        state: &KnownState,
        handed: &Form,
        arrows: &[Arrow],
    ) -> Result<bool, Lack> {
        let instruction = instruction_at(self.code, state.pc);
        let site = Site {
            certificate: self.certificate,
            hart: self.hart,
            state,
        };
        let (i, slots) = (self.queue, self.slots);
        keeps_records(alloc, &site, i, slots, handed, arrows, instruction)
    }
}

/// Whether queue `i` has no fields.
fn is_untold(certificate: &QueueCertificate, i: u32) -> bool
    ensures { result ≡ (length (fields_at certificate.now i) == 0) }
{
    fields_in(&certificate.queues, i).is_empty()
}

/// Whether a listed state keeps what is said of queue `i`'s records, if something is.
fn keeps_fields_of(
    alloc: Global,
    certificate: &QueueCertificate,
    hart: u32,
    code: &[u32],
    listed: &ListedState,
    i: u32,
) -> Result<bool, Lack>
    ensures { IfOk result (λ keeps. keeps ≡ ((length (fields_at certificate.now i) == 0) || keeps_fields certificate.now hart code.now i
        (get_or listed.now.filled i []) listed.now.known listed.now.cases)) }
{
    if is_untold(certificate, i) {
        Ok(true)
    } else {
        let keeping = Keeping {
            certificate,
            hart,
            code,
            queue: i,
            slots: filled_in(&listed.filled, i),
        };
        each_leaf(alloc, &keeping, &listed.known, &listed.cases)
    }
}

/// Whether a listed state keeps what is said of all records.
pub(crate) fn keeps_all_fields(
    alloc: Global,
    certificate: &QueueCertificate,
    hart: u32,
    code: &[u32],
    listed: &ListedState,
) -> Result<bool, Lack>
    ensures { IfOk result (λ keeps. keeps ≡ keeps_all_fields certificate.now hart code.now listed.now) }
{
    let mut all = true;
    for i in 0..queue_count(certificate)? {
        all = keeps_fields_of(alloc, certificate, hart, code, listed, i)? && all;
    }
    Ok(all)
}

fn opens_unfilled_of(certificate: &QueueCertificate, filled: &[Filled], i: u32) -> bool
    ensures { result ≡ ((length (fields_at certificate.now i) == 0) || are_so (get_or filled.now i []) (λ d j. false)) }
{
    is_untold(certificate, i) || says_nothing(filled_in(filled, i))
}

/// Whether no field is said to be right, of the queues that have some.
pub(crate) fn opens_unfilled(
    certificate: &QueueCertificate,
    filled: &[Filled],
) -> Result<bool, Lack>
    ensures { IfOk result (λ opens. opens ≡ opens_unfilled certificate.now filled.now) }
{
    let mut all = true;
    for i in 0..queue_count(certificate)? {
        all = opens_unfilled_of(certificate, filled, i) && all;
    }
    Ok(all)
}
