//! What an instruction of a party does for its queue, as its leaf says: whether it is idle, or blind.

ghost use Rattle.std.specs.Prelude.{◌≡◌, IfOk};
ghost use Rattle.queue_certificates.specs.Steps.{share_at};
ghost use Rattle.queue_progress.specs.Stays.{is_further, all_further, follow_further, moves, most_owned, looks};

use crate::rank_checks::Kind;
use known_values::forms::{is_same, lifted, minus, plus};
use known_values::ranges::{fits_in, most};
use known_values::{Form, Lack};
use queue_checker::closing::next_states;
use queue_checker::loads::{is_look, load_width};
use queue_checker::states::share_in;
use queue_checker::steps::instruction_at;
use queue_checker::successors::Successors;
use queue_checker::targets::accessed;
use queue_checker::{KnownState, QueueCertificate, Share};
use rv_decode::Instr;
use std::alloc::Global;

/// A party of a queue, by its hart and the queue's number, with the hart's code.
#[derive(Clone, Copy)]
pub(crate) struct Side<'a> {
    pub(crate) certificate: &'a QueueCertificate,
    pub(crate) code: &'a [u32],
    pub(crate) hart: u32,
    pub(crate) queue: u32,
}

/// Whether the own count of the second share is surely further than that of the first.
fn is_further(alloc: Global, before: &Share, after: &Share) -> Result<bool, Lack>
    ensures { IfOk result (λ further. further ≡ is_further before.now after.now) }
{
    let own = lifted(alloc, &before.own)?;
    let more = minus(alloc, &after.own, &own)?;
    let whole = plus(alloc, &own, &more)?;
    Ok(before.own.constant < after.own.constant && is_same(0, &whole, &after.own))
}

fn is_further_in(alloc: Global, queue: u32, share: &Share, state: &KnownState) -> Result<bool, Lack>
    ensures { IfOk result (λ further. further ≡ is_further share.now (share_at state.now queue)) }
{
    let after = share_in(alloc, &state.shares, queue as usize)?;
    is_further(alloc, share, &after)
}

fn all_further(
    alloc: Global,
    queue: u32,
    share: &Share,
    mut states: &[KnownState],
) -> Result<bool, Lack>
    ensures { IfOk result (λ further. further ≡ all_further queue share.now states.now) }
{
    while let [state, others @ ..] = states {
        if !is_further_in(alloc, queue, share, state)? {
            return Ok(false);
        }
        states = others;
    }
    Ok(true)
}

/// Whether a hart's count is further in each of the states that may follow.
pub(crate) fn follow_further(
    alloc: Global,
    queue: u32,
    state: &KnownState,
    next: &Successors,
) -> Result<bool, Lack>
    ensures { IfOk result (λ further. further ≡ follow_further queue (share_at state.now queue) next.now) }
{
    if next.shown {
        let share = share_in(alloc, &state.shares, queue as usize)?;
        all_further(alloc, queue, &share, &next.states)
    } else {
        Ok(false)
    }
}

/// Whether the instruction moves the hart's count on, in every state that may follow.
fn moves(alloc: Global, side: &Side<'_>, state: &KnownState, handed: &Form) -> Result<bool, Lack>
    ensures { IfOk result (λ goes. goes ≡ moves side.now.certificate.now side.now.hart side.now.code.now side.now.queue state.now handed.now) }
{
    let next = next_states(alloc, side.certificate, side.hart, side.code, state, handed)?;
    follow_further(alloc, side.queue, state, &next)
}

/// The most positions that it may own.
pub(crate) fn most_owned(alloc: Global, queue: u32, state: &KnownState) -> Result<Option<u64>, Lack>
    ensures { IfOk result (λ owned. owned ≡ most_owned queue state.now) }
{
    let share = share_in(alloc, &state.shares, queue as usize)?;
    most(&state.ranges, &share.owned)
}

/// Whether it loads the other's index, whole.
pub(crate) fn looks(
    alloc: Global,
    certificate: &QueueCertificate,
    hart: u32,
    queue: u32,
    state: &KnownState,
    instruction: Option<Instr>,
) -> Result<bool, Lack>
    ensures { IfOk result (λ sees. sees ≡ looks certificate.now hart queue state.now instruction) }
{
    match instruction {
        Some(
            Instr::Load {
                op,
                rs1,
                offset,
                ..
            },
        ) => {
            let width = load_width(op);
            let target = accessed(alloc, certificate, state, rs1, offset, width)?;
            Ok(is_look(certificate, hart, target.bounds, width, queue))
        }
        _ => Ok(false),
    }
}

/// The idle instructions of a party that owns more than `owned` positions.
#[derive(Clone, Copy)]
pub(crate) struct Idle<'a> {
    pub(crate) side: Side<'a>,
    pub(crate) owned: u64,
}

impl Kind for Idle<'_> {
    ghost use Rattle.std.specs.Prelude.{◌||◌, Some};
    ghost use Rattle.queue_certificates.specs.Forms.{fits_in};
    ghost use Rattle.queue_progress.specs.Stays.{moves as moves_by, most_owned as owned_by};
    ghost use Rattle.queue_progress.specs.Falling.{never_cut};

    ghost other = { λ s k d. moves_by s.side.certificate.now s.side.hart s.side.code.now s.side.queue k d || fits_in (owned_by s.side.queue k) (Some s.owned) };

    ghost cut = { λ s. never_cut };

    fn is_other(&self, alloc: Global, state: &KnownState, handed: &Form) -> Result<bool, Lack> {
        let goes = moves(alloc, &self.side, state, handed)?;
        let most = most_owned(alloc, self.side.queue, state)?;
        Ok(goes || fits_in(most, Some(self.owned)))
    }

    fn is_cut(&self, _: Global, _: &KnownState, _: &Form) -> Result<bool, Lack> {
        Ok(false)
    }
}

/// The blind instructions of a party.
#[derive(Clone, Copy)]
pub(crate) struct Blind<'a> {
    pub(crate) side: Side<'a>,
}

impl Kind for Blind<'_> {
    ghost use Rattle.std.specs.Prelude.{◌||◌};
    ghost use Rattle.queue_certificates.specs.Steps.{instruction_at as made_at};
    ghost use Rattle.queue_progress.specs.Stays.{moves as moves_by, looks as looks_by};
    ghost use Rattle.queue_progress.specs.Falling.{never_cut};

    ghost other = { λ s k d. moves_by s.side.certificate.now s.side.hart s.side.code.now s.side.queue k d
        || looks_by s.side.certificate.now s.side.hart s.side.queue k (made_at s.side.code.now k.pc) };

    ghost cut = { λ s. never_cut };

    fn is_other(&self, alloc: Global, state: &KnownState, handed: &Form) -> Result<bool, Lack> {
        let side = &self.side;
        let goes = moves(alloc, side, state, handed)?;
        let instruction = instruction_at(side.code, state.pc);
        let sees = looks(
            alloc,
            side.certificate,
            side.hart,
            side.queue,
            state,
            instruction,
        )?;
        Ok(goes || sees)
    }

    fn is_cut(&self, _: Global, _: &KnownState, _: &Form) -> Result<bool, Lack> {
        Ok(false)
    }
}
