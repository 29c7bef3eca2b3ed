//! Drawn runs of a text, judged by the protocol of each queue of a certificate that isn't accepted.

ghost use Rattle.std.specs.Prelude.{◌≡◌, ◌≤◌, ◌<◌, ℕ, List, IfOk, length};
ghost use Rattle.drawn_runs.specs.Samples.{runs_of};
ghost use Rattle.step_machine.specs.History.{FitsIn};
ghost use Rattle.queue_parties.specs.Parties.{all_at};
ghost use Rattle.ownership_runs.specs.Protocols.{HasSlot};
ghost use Rattle.certifying.specs.Queues.{any_queue, queue_count};
ghost use Rattle.certifying.specs.Trials.{IsOfTrial, IsToldOf, IsTrialBroken};

use crate::queues::{any_queue, any_start, queue_count};
use drawn_runs::progress::Progress;
use drawn_runs::{Jump, Sample};
use judged_runs::Told;
use known_values::Lack;
use ownership_runs::laws::laws_of_judged_runs;
use ownership_runs::{Counts, Moved, Step, Violation, check_runs, steps_of};
use queue_checker::QueueCertificate;
use std::alloc::{AllocError, Global};
use std::thread::Threads;
use step_machine::{Event, Opening};

/// What drawn runs show.
#[derive(Drop)]
pub enum Trial {
    /// All keep the protocol of each queue, whose parties moved on by this much in them.
    Kept(Vec<Moved>),
    /// One breaks the protocol of this queue, which none does of an earlier one: a part of its events that ends with the violation, and
    /// what these do.
    Broken {
        queue: u32,
        part: Vec<Event>,
        violation: Violation,
        steps: Vec<Step>,
    },
}

/// The counts of a queue that opens empty at this one.
pub(crate) fn counts_at(start: u64) -> Counts
    ensures { result ≡ all_at start }
{
    Counts {
        published: start,
        taken: start,
        known_taken: start,
        known_published: start,
    }
}

/// The trial of a run that breaks the protocol of a queue, with what its events do.
fn broken_by<const B: usize, const M: usize>(
    alloc: Global,
    opening: &Opening,
    queue: u32,
    part: Vec<Event>,
    violation: Violation,
) -> Result<Trial, AllocError>
    requires some_capacity { 1 ≤ B }
    requires capacity { B ≤ 64 }
    requires some_word { 1 ≤ M }
    requires size { M ≤ 65536 }
    requires fits { FitsIn M opening.now }
    ensures { IfOk result (IsTrialBroken B M opening.now queue part.items violation) }
{
    let steps = steps_of::<B, M>(alloc, opening, &part)?;
    Ok(Trial::Broken {
        queue,
        part,
        violation,
        steps,
    })
}

/// What drawn runs show of one queue.
fn told_of<const B: usize, const M: usize, G: Jump + Sync + Drop, T: Threads + Sync, P: Progress>(
    rt: &T,
    alloc: Global,
    opening: &Opening,
    certificate: &QueueCertificate,
    index: u32,
    sample: &Sample<'_, G>,
    progress: &mut P,
) -> Result<Told<Moved, Violation>, AllocError>
    requires some_capacity { 1 ≤ B }
    requires capacity { B ≤ 64 }
    requires some_word { 1 ≤ M }
    requires size { M ≤ 65536 }
    requires fits { FitsIn M opening.now }
    requires some_slot { HasSlot (any_queue certificate.now index) }
    ensures { IfOk result (IsToldOf (runs_of B M G.Rng.stream sample.now) opening.now certificate.now index) }
{
    let queue = any_queue(certificate, index);
    let start = counts_at(any_start(certificate, index));
    check_runs::<B, M, G, T, P>(rt, alloc, opening, &queue, start, sample, progress)
}

/// Makes the runs of a sample from an opening, as [`check_runs`] does, for each queue of a certificate: what that shows.
pub fn trial_of<
    const B: usize,
    const M: usize,
    G: Jump + Sync + Drop,
    T: Threads + Sync,
    P: Progress,
>(
    rt: &T,
    alloc: Global,
    opening: &Opening,
    certificate: &QueueCertificate,
    sample: &Sample<'_, G>,
    progress: &mut P,
) -> Result<Trial, Lack>
    requires some_capacity { 1 ≤ B }
    requires capacity { B ≤ 64 }
    requires some_word { 1 ≤ M }
    requires size { M ≤ 65536 }
    requires fits { FitsIn M opening.now }
    requires some_slot { (i : ℕ) → i < queue_count certificate.now → HasSlot (any_queue certificate.now i) }
    ensures { IfOk result (IsOfTrial (runs_of B M G.Rng.stream sample.now) opening.now certificate.now) }
{
    laws_of_judged_runs();
    let mut kept = Vec::new(alloc);
    for index in 0..queue_count(certificate)? {
        match told_of::<B, M, G, T, P>(rt, alloc, opening, certificate, index, sample, progress)? {
            Told::Good(moved) => kept.push(moved)?,
            Told::Flawed { part, flaw } => {
                return Ok(broken_by::<B, M>(alloc, opening, index, part, flaw)?);
            }
        }
    }
    Ok(Trial::Kept(kept))
}
