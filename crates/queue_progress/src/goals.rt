//! What the ranks of a hart's states are for, and which they are.

ghost use Rattle.std.specs.Prelude.{◌≡◌, ◌+◌, IfOk, map, get_or};
ghost use Rattle.std.specs.Str.{bytes_eq};
ghost use Rattle.queue_certificates.specs.Forms.{number};
ghost use Rattle.queue_certificates.specs.Certificates.{part_of};
ghost use Rattle.queue_progress.specs.Progress.{width_of, owned_by, placed_from, goal_of, lacking_from, goals_width, width_from, ranks_at, lacking_ranks};

use crate::pace::Placed;
use known_values::forms::number;
use known_values::{Form, Lack};
use queue_certificates::Goal;
use queue_checker::sites::listed_states;
use queue_checker::{Lacked, ListedState, QueueCertificate};
use std::alloc::Global;

fn further(place: usize, by: usize) -> Result<usize, Lack>
    ensures { IfOk result (λ n. n ≡ place + by) }
{
    place.checked_add(by).ok_or(Lack::TooLarge)
}

/// How many ranks a goal has.
fn width_of(goal: Goal) -> usize
    ensures { result ≡ width_of goal }
{
    match goal {
        Goal::Queue(_, _) => 2,
        Goal::Tags(_) => 1,
        Goal::Together(_) => 1,
    }
}

/// How many positions the hart may own while it waits, by a goal of this queue, or of all its queues together.
fn owned_by(wanted: Option<u32>, goal: Goal) -> Option<u64>
    ensures { result ≡ owned_by wanted goal }
{
    match (wanted, goal) {
        (Some(n), Goal::Queue(queue, owned)) => { if queue == n { Some(owned) } else { None } }
        (Some(n), Goal::Tags(queue)) => { if queue == n { Some(0) } else { None } }
        (Some(_), Goal::Together(_)) => None,
        (None, Goal::Together(owned)) => Some(owned),
        (None, Goal::Queue(_, _)) => None,
        (None, Goal::Tags(_)) => None,
    }
}

fn placed_from(wanted: Option<u32>, mut goals: &[Goal]) -> Result<Option<Placed>, Lack>
    ensures { IfOk result (λ placed. placed ≡ placed_from wanted 0 goals.now) }
{
    let mut place = 0;
    while let [goal, others @ ..] = goals {
        if let Some(owned) = owned_by(wanted, *goal) {
            return Ok(Some(Placed { place, owned }));
        }
        place = further(place, width_of(*goal))?;
        goals = others;
    }
    Ok(None)
}

fn goals(certificate: &QueueCertificate, hart: u32) -> &[Goal]
    ensures { result.now ≡ (part_of certificate.now hart).goals }
{
    match certificate.harts.get(hart as usize) {
        Some(part) => &part.goals,
        None => &[],
    }
}

/// The sets of queues that a hart may lack.
pub(crate) fn lacking(certificate: &QueueCertificate, hart: u32) -> &[Lacked]
    ensures { result.now ≡ (part_of certificate.now hart).lacking }
{
    match certificate.harts.get(hart as usize) {
        Some(part) => &part.lacking,
        None => &[],
    }
}

/// A hart's goal for this queue, by its number among all, or for all its queues with indices together.
pub(crate) fn goal_of(
    certificate: &QueueCertificate,
    hart: u32,
    wanted: Option<u32>,
) -> Result<Option<Placed>, Lack>
    ensures { IfOk result (λ placed. placed ≡ goal_of certificate.now hart wanted) }
{
    placed_from(wanted, goals(certificate, hart))
}

fn width_of_all(mut goals: &[Goal]) -> Result<usize, Lack>
    ensures { IfOk result (λ n. n ≡ width_from 0 goals.now) }
{
    let mut width = 0;
    while let [goal, others @ ..] = goals {
        width = further(width, width_of(*goal))?;
        goals = others;
    }
    Ok(width)
}

/// How many ranks there are for goals.
pub(crate) fn goals_width(certificate: &QueueCertificate, hart: u32) -> Result<usize, Lack>
    ensures { IfOk result (λ n. n ≡ goals_width certificate.now hart) }
{
    width_of_all(goals(certificate, hart))
}

fn is_same(lacked: &Lacked, lacks: &[u32]) -> bool
    ensures { result ≡ bytes_eq lacked.now lacks.now }
{
    lacked.queues.as_slice() == lacks
}

/// The place of the rank for a set of queues that a hart may lack, where those begin at `place`.
fn lacking_from(mut place: usize, mut sets: &[Lacked], lacks: &[u32]) -> Result<usize, Lack>
    ensures { IfOk result (λ n. n ≡ lacking_from place sets.now lacks.now) }
{
    while let [first, others @ ..] = sets {
        if is_same(first, lacks) {
            return Ok(place);
        }
        place = further(place, 1)?;
        sets = others;
    }
    Ok(place)
}

fn rank_in(alloc: Global, ranks: &[Form], place: usize) -> Result<Form, Lack>
    ensures { IfOk result (λ rank. rank ≡ get_or ranks.now place (number 0)) }
{
    match ranks.get(place) {
        Some(rank) => rank.copy(alloc),
        None => Ok(number(alloc, 0)),
    }
}

fn ranks_of(alloc: Global, states: &[ListedState], place: usize) -> Result<Vec<Form>, Lack>
    ensures { IfOk result (λ ranks. ranks.items ≡ map (λ s. get_or s.ranks place (number 0)) states.now) }
{
    let mut ranks = Vec::new(alloc);
    for state in states {
        ranks.push(rank_in(alloc, &state.ranks, place)?)?;
    }
    Ok(ranks)
}

/// Of each state of a hart the rank at a place.
pub(crate) fn ranks_at(
    alloc: Global,
    certificate: &QueueCertificate,
    hart: u32,
    place: usize,
) -> Result<Vec<Form>, Lack>
    ensures { IfOk result (λ ranks. ranks.items ≡ ranks_at certificate.now hart place) }
{
    ranks_of(alloc, listed_states(certificate, hart), place)
}

/// The ranks after those at a place.
pub(crate) fn ranks_after(
    alloc: Global,
    certificate: &QueueCertificate,
    hart: u32,
    place: usize,
    by: usize,
) -> Result<Vec<Form>, Lack>
    ensures { IfOk result (λ ranks. ranks.items ≡ ranks_at certificate.now hart (place + by)) }
{
    ranks_at(alloc, certificate, hart, further(place, by)?)
}

/// The ranks for a set of queues that the hart may lack.
pub(crate) fn lacking_ranks(
    alloc: Global,
    certificate: &QueueCertificate,
    hart: u32,
    lacks: &[u32],
) -> Result<Vec<Form>, Lack>
    ensures { IfOk result (λ ranks. ranks.items ≡ lacking_ranks certificate.now hart lacks.now) }
{
    let width = goals_width(certificate, hart)?;
    let place = lacking_from(width, lacking(certificate, hart), lacks)?;
    ranks_at(alloc, certificate, hart, place)
}
