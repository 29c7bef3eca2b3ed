//! How soon a party of a queue with tags goes on, as its ranks show it.

ghost use Rattle.std.specs.Prelude.{◌≡◌, ◌+◌, ◌&&◌, Some, IfOk, length};
ghost use Rattle.queue_certificates.specs.Steps.{share_at, instruction_at};
ghost use Rattle.queue_progress.specs.Told.{is_load, learns, may_learn};
ghost use Rattle.queue_progress.specs.Stays.{code_of, moves};
ghost use Rattle.queue_progress.specs.Progress.{ranks_at, row_bound, told_progress_of};

use crate::goals::{goal_of, ranks_at};
use crate::pace::ToldProgress;
use crate::rank_checks::Kind;
use crate::row_bounds::row_bound;
use crate::stays::follow_further;
use known_values::{Form, Lack};
use queue_checker::closing::next_states;
use queue_checker::owning::code_of;
use queue_checker::sites::small;
use queue_checker::states::share_in;
use queue_checker::steps::instruction_at;
use queue_checker::successors::Successors;
use queue_checker::{KnownState, QueueCertificate, Share};
use rv_decode::Instr;
use std::alloc::Global;
use step_machine::Opening;

/// A party of a queue with tags, by its hart and the queue's number among all, with the hart's code.
#[derive(Clone, Copy)]
struct Teller<'a> {
    certificate: &'a QueueCertificate,
    code: &'a [u32],
    hart: u32,
    place: u32,
}

fn is_load(instruction: Option<Instr>) -> bool
    ensures { result ≡ is_load instruction }
{
    matches!(instruction, Some(Instr::Load { .. }))
}

fn owned_constant(share: &Share) -> u64
    ensures { result ≡ share.now.owned.constant }
{
    share.owned.constant
}

/// How many positions it surely owns of a queue.
fn surely_owned(alloc: Global, place: u32, state: &KnownState) -> Result<u64, Lack>
    ensures { IfOk result (λ n. n ≡ (share_at state.now place).owned.constant) }
{
    let share = share_in(alloc, &state.shares, place as usize)?;
    Ok(owned_constant(&share))
}

/// Whether these are two states, in the first of which the party owns a position, where it didn't surely own one.
fn are_learning(
    alloc: Global,
    place: u32,
    share: &Share,
    states: &[KnownState],
) -> Result<bool, Lack>
    ensures { IfOk result (λ are. are ≡ learns place share.now (Some states.now)) }
{
    match states {
        [told, _] => {
            let owned = surely_owned(alloc, place, told)?;
            Ok(owned_constant(share) == 0 && owned == 1)
        }
        _ => Ok(false),
    }
}

/// Whether two such states may follow.
fn learns(alloc: Global, place: u32, state: &KnownState, next: &Successors) -> Result<bool, Lack>
    ensures { IfOk result (λ learning. learning ≡ learns place (share_at state.now place) next.now) }
{
    if next.shown {
        let share = share_in(alloc, &state.shares, place as usize)?;
        are_learning(alloc, place, &share, &next.states)
    } else {
        Ok(false)
    }
}

/// Whether the instruction loads the own position's tag, by which the party may be told that the slot is its own.
fn may_learn(
    alloc: Global,
    teller: &Teller<'_>,
    state: &KnownState,
    next: &Successors,
) -> Result<bool, Lack>
    ensures { IfOk result (λ may. may ≡ (is_load (instruction_at teller.now.code.now state.now.pc)
        && learns teller.now.place (share_at state.now teller.now.place) next.now)) }
{
    let loads = is_load(instruction_at(teller.code, state.pc));
    Ok(loads && learns(alloc, teller.place, state, next)?)
}

impl Kind for Teller<'_> {
    ghost use Rattle.queue_progress.specs.Stays.{moves as moves_by};
    ghost use Rattle.queue_progress.specs.Told.{may_learn as learns_by};

    ghost other = { λ s. moves_by s.certificate.now s.hart s.code.now s.place };

    ghost cut = { λ s. learns_by s.certificate.now s.hart s.code.now s.place };

    fn is_other(&self, alloc: Global, state: &KnownState, handed: &Form) -> Result<bool, Lack> {
        let (certificate, code) = (self.certificate, self.code);
        let next = next_states(alloc, certificate, self.hart, code, state, handed)?;
        follow_further(alloc, self.place, state, &next)
    }

    fn is_cut(&self, alloc: Global, state: &KnownState, handed: &Form) -> Result<bool, Lack> {
        let (certificate, code) = (self.certificate, self.code);
        let next = next_states(alloc, certificate, self.hart, code, state, handed)?;
        may_learn(alloc, self, state, &next)
    }
}

/// The number of queue `t` with tags among all queues.
fn number_of(certificate: &QueueCertificate, t: u32) -> Result<u32, Lack>
    ensures { IfOk result (λ n. n ≡ length certificate.now.queues + t) }
{
    let count = small(certificate.queues.len())?;
    count.checked_add(t).ok_or(Lack::TooLarge)
}

/// What is found of its ranks at a place.
fn told_at(
    alloc: Global,
    opening: &Opening,
    certificate: &QueueCertificate,
    hart: u32,
    place: u32,
    rank: usize,
) -> Result<ToldProgress, Lack>
    ensures { IfOk result (λ told. told ≡ row_bound opening.now certificate.now hart (moves certificate.now hart (code_of opening.now hart) place)
        (may_learn certificate.now hart (code_of opening.now hart) place) (ranks_at certificate.now hart rank)) }
{
    let ranks = ranks_at(alloc, certificate, hart, rank)?;
    let code = code_of(opening, hart);
    let teller = Teller {
        certificate,
        code,
        hart,
        place,
    };
    row_bound(alloc, &teller, opening, certificate, hart, &ranks)
}

/// How soon a hart, a party of queue `queue` of those with tags, goes on, as its ranks show it, or the first state of which the rank doesn't fall.
pub fn told_progress_of(
    alloc: Global,
    opening: &Opening,
    certificate: &QueueCertificate,
    hart: u32,
    queue: u32,
) -> Result<ToldProgress, Lack>
    ensures { IfOk result (λ told. told ≡ told_progress_of opening.now certificate.now hart queue) }
{
    let place = number_of(certificate, queue)?;
    match goal_of(certificate, hart, Some(place))? {
        None => Ok(ToldProgress::Unranked),
        Some(goal) => told_at(alloc, opening, certificate, hart, place, goal.place),
    }
}
