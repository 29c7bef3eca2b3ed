//! How soon a party of a queue with indices goes on, as its ranks show it.

ghost use Rattle.std.specs.Prelude.{◌≡◌, ◌+◌, nat_lt, IfOk};
ghost use Rattle.queue_certificates.specs.Certificates.{queue_at};
ghost use Rattle.queue_progress.specs.Falling.{never_cut, not_blind, not_idle};
ghost use Rattle.queue_progress.specs.Progress.{progress_of, progress_with, ranks_at, row_bound};

use crate::goals::{goal_of, ranks_after, ranks_at};
use crate::pace::{Pace, Progress, ToldProgress};
use crate::row_bounds::row_bound;
use crate::stays::{Blind, Idle, Side};
use known_values::Lack;
use known_values::queues::queue_in;
use queue_checker::QueueCertificate;
use queue_checker::owning::code_of;
use std::alloc::Global;
use step_machine::Opening;

fn progress_with(owned: u64, pace: ToldProgress, sight: ToldProgress) -> Progress
    ensures { result ≡ progress_with owned pace sight }
{
    match (pace, sight) {
        (ToldProgress::Within(pace), ToldProgress::Within(sight)) => {
            Progress::GoesOn(Pace { owned, pace, sight })
        }
        (ToldProgress::Within(_), ToldProgress::Endless(state)) => Progress::NoLook(state),
        (ToldProgress::Within(_), ToldProgress::Unranked) => Progress::Unranked,
        (ToldProgress::Endless(state), _) => Progress::NoPace(state),
        (ToldProgress::Unranked, _) => Progress::Unranked,
    }
}

/// How many instructions in a row are idle, by the ranks at a place.
fn pace_of(
    alloc: Global,
    opening: &Opening,
    certificate: &QueueCertificate,
    hart: u32,
    queue: u32,
    owned: u64,
    place: usize,
) -> Result<ToldProgress, Lack>
    ensures { IfOk result (λ row. row ≡ row_bound opening.now certificate.now hart (not_idle opening.now certificate.now hart queue owned) never_cut
        (ranks_at certificate.now hart place)) }
{
    let ranks = ranks_at(alloc, certificate, hart, place)?;
    let code = code_of(opening, hart);
    let side = Side {
        certificate,
        code,
        hart,
        queue,
    };
    row_bound(
        alloc,
        &Idle { side, owned },
        opening,
        certificate,
        hart,
        &ranks,
    )
}

/// How many are blind, by the ranks after those.
fn sight_of(
    alloc: Global,
    opening: &Opening,
    certificate: &QueueCertificate,
    hart: u32,
    queue: u32,
    place: usize,
) -> Result<ToldProgress, Lack>
    ensures { IfOk result (λ row. row ≡ row_bound opening.now certificate.now hart (not_blind opening.now certificate.now hart queue) never_cut
        (ranks_at certificate.now hart (place + 1))) }
{
    let ranks = ranks_after(alloc, certificate, hart, place, 1)?;
    let code = code_of(opening, hart);
    let side = Side {
        certificate,
        code,
        hart,
        queue,
    };
    row_bound(alloc, &Blind { side }, opening, certificate, hart, &ranks)
}

/// How soon a hart, a party of a queue with indices, goes on, as its ranks show it, or the first state of which the rank doesn't fall.
pub fn progress_of(
    alloc: Global,
    opening: &Opening,
    certificate: &QueueCertificate,
    hart: u32,
    queue: u32,
) -> Result<Progress, Lack>
    ensures { IfOk result (λ progress. progress ≡ progress_of opening.now certificate.now hart queue) }
{
    match goal_of(certificate, hart, Some(queue))? {
        None => Ok(Progress::Unranked),
        Some(goal) => {
            if goal.owned < u64::from(queue_in(&certificate.queues, queue).capacity) {
                let (owned, place) = (goal.owned, goal.place);
                let pace = pace_of(alloc, opening, certificate, hart, queue, owned, place)?;
                let sight = sight_of(alloc, opening, certificate, hart, queue, place)?;
                Ok(progress_with(owned, pace, sight))
            } else {
                Ok(Progress::Unranked)
            }
        }
    }
}
