//! What an instruction makes of what is known of queues with tags.

ghost use Rattle.std.specs.Prelude.{◌≡◌, ◌+◌, Some, IfOk, length, get_or};
ghost use Rattle.hart.specs.Effects.{store_width};
ghost use Rattle.queue_certificates.specs.States.{no_share, any};
ghost use Rattle.queue_certificates.specs.Steps.{share_at, operand, exchanged, updated_value};
ghost use Rattle.queue_certificates.specs.Tags.{tag_at, storing_tells, told_by_store, next_told, reads_rest, loads_rest};
ghost use Rattle.queue_certificates.specs.Certificates.{queue_at, own_of, tagged_at};
ghost use Rattle.queue_checker.specs.Operands.{accessed_in, load_target};

use crate::certificate::{KnownState, QueueCertificate, Share};
use crate::sites::{Site, queue_count};
use crate::slots::is_owned;
use crate::states::share_after;
use crate::steps::operand;
use crate::stores::{store_width, updated_value};
use crate::successors::Successors;
use crate::tag_loads::load_tells;
use crate::tag_places::{is_beside_slots, is_of_tag, tag_position};
use crate::tag_stores::{moved_tag, store_tells};
use crate::tagged_queues::{bare, party_in, tagged_in};
use crate::targets::{Target, accessed, exchanged, load_target};
use known_values::values::any;
use known_values::{KnownValue, Lack};
use queue_layouts::TaggedQueue;
use rv_decode::{AmoOp, Instr, Reg, StoreOp};
use std::alloc::Global;

/// The share of queue `t` with tags.
pub(crate) fn tag_share(
    alloc: Global,
    certificate: &QueueCertificate,
    state: &KnownState,
    t: u32,
) -> Result<Share, Lack>
    ensures { IfOk result (λ s. s ≡ get_or state.now.shares (length certificate.now.queues + t) no_share) }
{
    share_after(alloc, &state.shares, queue_count(certificate)?, t)
}

/// How much further than the hart's own count the position is of which an access is of the tag, whole.
pub(crate) fn tag_at(
    alloc: Global,
    certificate: &QueueCertificate,
    hart: u32,
    state: &KnownState,
    place: &KnownValue,
    width: u64,
    t: u32,
) -> Result<Option<u64>, Lack>
    ensures { IfOk result (λ position. position ≡ tag_at (tagged_at certificate.now) (length certificate.now.tagged) (length certificate.now.queues)
        hart state.now place.now width t) }
{
    let queue = tagged_in(&certificate.tagged, t);
    match party_in(queue, hart) {
        None => Ok(None),
        Some(_) => {
            let share = tag_share(alloc, certificate, state, t)?;
            tag_position(alloc, &state.ranges, queue, &share, place, width)
        }
    }
}

/// The states that may follow a store of a value there, where these do if there were no tags.
fn stored_told(
    alloc: Global,
    site: &Site<'_>,
    stored: &KnownValue,
    target: &Target,
    states: Vec<KnownState>,
) -> Result<Successors, Lack>
    ensures { IfOk result (λ next. next ≡ storing_tells (tagged_at site.now.certificate.now) (length site.now.certificate.now.tagged) (length
        site.now.certificate.now.queues) site.now.hart site.now.state.now stored.now target.now.place target.now.bounds target.now.width states.items) }
{
    let moves = moved_tag(alloc, site.certificate, site.hart, site.state, target)?;
    store_tells(alloc, site, stored, target, moves, states)
}

/// The bytes of a store.
fn stored_there(
    alloc: Global,
    certificate: &QueueCertificate,
    state: &KnownState,
    op: StoreOp,
    rs1: Reg,
    offset: i32,
) -> Result<Target, Lack>
    ensures { IfOk result (λ target. target ≡ accessed_in certificate.now state.now rs1 offset (store_width op)) }
{
    accessed(alloc, certificate, state, rs1, offset, store_width(op))
}

/// The same of a store.
fn store_told(
    alloc: Global,
    site: &Site<'_>,
    op: StoreOp,
    rs1: Reg,
    rs2: Reg,
    offset: i32,
    states: Vec<KnownState>,
) -> Result<Successors, Lack>
    ensures { IfOk result (λ next. next ≡ told_by_store (tagged_at site.now.certificate.now) (length site.now.certificate.now.tagged) (queue_at
        site.now.certificate.now) (length site.now.certificate.now.queues) (own_of site.now.certificate.now) (length site.now.certificate.now.harts)
        site.now.hart site.now.state.now op rs1 rs2 offset states.items) }
{
    let (certificate, state) = (site.certificate, site.state);
    let target = stored_there(alloc, certificate, state, op, rs1, offset)?;
    let stored = operand(alloc, certificate, state, rs2)?;
    stored_told(alloc, site, &stored, &target, states)
}

/// The value that an AMO stores, by what its register holds alone.
fn exchanged_value(
    alloc: Global,
    certificate: &QueueCertificate,
    state: &KnownState,
    op: AmoOp,
    rs2: Reg,
) -> Result<KnownValue, Lack>
    ensures { IfOk result (λ v. v ≡ updated_value (queue_at certificate.now) state.now.ranges op any (operand (queue_at certificate.now) state.now rs2)) }
{
    let with = operand(alloc, certificate, state, rs2)?;
    updated_value(alloc, certificate, &state.ranges, op, &any(), &with)
}

/// The same of an AMO's store.
fn amo_told(
    alloc: Global,
    site: &Site<'_>,
    op: AmoOp,
    rs1: Reg,
    rs2: Reg,
    states: Vec<KnownState>,
) -> Result<Successors, Lack>
    ensures { IfOk result (λ next. next ≡ storing_tells (tagged_at site.now.certificate.now) (length site.now.certificate.now.tagged) (length
        site.now.certificate.now.queues) site.now.hart site.now.state.now (updated_value (queue_at site.now.certificate.now) site.now.state.now.ranges
        op any (operand (queue_at site.now.certificate.now) site.now.state.now rs2)) (operand (queue_at site.now.certificate.now) site.now.state.now
        rs1) (exchanged (queue_at site.now.certificate.now) site.now.state.now rs1) 4 states.items) }
{
    let (certificate, state) = (site.certificate, site.state);
    let target = exchanged(alloc, certificate, state, rs1)?;
    let stored = exchanged_value(alloc, certificate, state, op, rs2)?;
    stored_told(alloc, site, &stored, &target, states)
}

/// The states that may follow an instruction, where these do if there were no tags.
fn told_by(
    alloc: Global,
    site: &Site<'_>,
    instruction: Instr,
    states: Vec<KnownState>,
) -> Result<Successors, Lack>
    ensures { IfOk result (λ told. told ≡ next_told (tagged_at site.now.certificate.now) (length site.now.certificate.now.tagged) (queue_at
        site.now.certificate.now) (length site.now.certificate.now.queues) (own_of site.now.certificate.now) (length site.now.certificate.now.harts)
        site.now.hart site.now.state.now (Some instruction) (Some states.items)) }
{
    match instruction {
        Instr::Load {
            op,
            rd,
            rs1,
            offset,
        } => { load_tells(alloc, site, op, rd.number, rs1, offset, states) }
        Instr::Store {
            op,
            rs1,
            rs2,
            offset,
        } => { store_told(alloc, site, op, rs1, rs2, offset, states) }
        Instr::Amo { op, rs1, rs2, .. } => { amo_told(alloc, site, op, rs1, rs2, states) }
        _ => Ok(Successors {
            shown: true,
            states,
        }),
    }
}

/// The same, where `next` do or it isn't shown that the instruction may be executed.
pub(crate) fn next_told(
    alloc: Global,
    certificate: &QueueCertificate,
    hart: u32,
    state: &KnownState,
    instruction: Option<Instr>,
    next: Successors,
) -> Result<Successors, Lack>
    ensures { IfOk result (λ told. told ≡ next_told (tagged_at certificate.now) (length certificate.now.tagged) (queue_at certificate.now) (length
        certificate.now.queues) (own_of certificate.now) (length certificate.now.harts) hart state.now instruction next) }
{
    if !next.shown {
        return Ok(next);
    }
    match instruction {
        Some(instruction) => {
            let site = Site {
                certificate,
                hart,
                state,
            };
            told_by(alloc, &site, instruction, next.states)
        }
        None => Ok(next),
    }
}

/// Whether each byte that a load reads of the slots of a queue with tags is of a tag, or of a slot owned by this share.
fn reads_rest(
    alloc: Global,
    ranges: &[Option<u64>],
    queue: TaggedQueue,
    share: &Share,
    target: &Target,
) -> Result<bool, Lack>
    ensures { IfOk result (λ rest. rest ≡ reads_rest ranges.now queue share.now target.now.place target.now.bounds target.now.width) }
{
    let Target {
        place,
        bounds,
        width,
    } = target;
    let beside = is_beside_slots(queue, *bounds, *width)?;
    let tag = is_of_tag(alloc, ranges, queue, share, place, *width)?;
    let owned = is_owned(alloc, ranges, bare(queue), share, place, *width)?;
    Ok(beside || tag || owned)
}

/// The same of queue `t` with tags.
fn reads_rest_of(
    alloc: Global,
    certificate: &QueueCertificate,
    state: &KnownState,
    t: u32,
    target: &Target,
) -> Result<bool, Lack>
    ensures { IfOk result (λ rest. rest ≡ reads_rest state.now.ranges (tagged_at certificate.now t) (share_at state.now (length certificate.now.queues
        + t)) target.now.place target.now.bounds target.now.width) }
{
    let queue = tagged_in(&certificate.tagged, t);
    let share = tag_share(alloc, certificate, state, t)?;
    reads_rest(alloc, &state.ranges, queue, &share, target)
}

/// Whether each byte that an instruction loads of the slots of queue `t` with tags is of a tag, or of an owned slot.
#[tactic(auto, using(crate::proofs::Accessed::rest_loads))]
pub(crate) fn loads_rest(
    alloc: Global,
    certificate: &QueueCertificate,
    state: &KnownState,
    t: u32,
    instruction: Option<Instr>,
) -> Result<bool, Lack>
    ensures { IfOk result (λ rest. rest ≡ loads_rest (tagged_at certificate.now) (queue_at certificate.now) (length certificate.now.queues) state.now
        t instruction) }
{
    match load_target(alloc, certificate, state, instruction)? {
        Some(target) => reads_rest_of(alloc, certificate, state, t, &target),
        None => Ok(true),
    }
}
