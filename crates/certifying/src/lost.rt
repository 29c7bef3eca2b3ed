//! What drawn runs of a text lose of a queue.

ghost use Rattle.std.specs.Prelude.{◌≡◌, ◌≤◌, IfOk, map, Some, true};
ghost use Rattle.drawn_runs.specs.Samples.{runs_of};
ghost use Rattle.step_machine.specs.History.{FitsIn};
ghost use Rattle.ownership_runs.specs.Protocols.{HasSlot};
ghost use Rattle.certifying.specs.Queues.{any_queue, any_start};
ghost use Rattle.certifying.specs.Lost.{IsLossToldOf, IsLostOf, IsRecordLost};
ghost use Rattle.ownership_runs.specs.declared.steps.Step.{Step};
ghost use Rattle.ownership_runs.specs.Steps.{AreSteps};
ghost use Rattle.ownership_runs.specs.Violations.{first_ownership_violation};
ghost use Rattle.queue_parties.specs.Parties.{all_at};

use crate::queues::{any_queue, any_start};
use crate::trials::counts_at;
use drawn_runs::progress::Progress;
use drawn_runs::{Jump, Sample};
use judged_runs::Told;
use ownership_runs::laws::laws_of_judged_runs;
use ownership_runs::{Loss, Step, Violation, check_losses, entries_of, first_violation, steps_of};
use queue_checker::QueueCertificate;
use std::alloc::{AllocError, Global};
use std::thread::Threads;
use step_machine::{Event, Opening};

/// A part of the events of the first drawn run that loses a record, which ends with a load by which the queue's receiver finds another byte
/// than was sent, and what these events do.
#[derive(Drop)]
pub struct Lost {
    pub part: Vec<Event>,
    pub loss: Loss,
    pub steps: Vec<Step>,
}

/// What drawn runs lose of one queue.
fn losses_told<
    const B: usize,
    const M: usize,
    G: Jump + Sync + Drop,
    T: Threads + Sync,
    P: Progress,
>(
    rt: &T,
    alloc: Global,
    opening: &Opening,
    certificate: &QueueCertificate,
    index: u32,
    broken: bool,
    sample: &Sample<'_, G>,
    progress: &mut P,
) -> Result<Told<(), Loss>, AllocError>
    requires some_capacity { 1 ≤ B }
    requires capacity { B ≤ 64 }
    requires some_word { 1 ≤ M }
    requires size { M ≤ 65536 }
    requires fits { FitsIn M opening.now }
    requires some_slot { HasSlot (any_queue certificate.now index) }
    ensures { IfOk result (IsLossToldOf (runs_of B M G.Rng.stream sample.now) opening.now certificate.now index broken) }
{
    let queue = any_queue(certificate, index);
    let start = counts_at(any_start(certificate, index));
    check_losses::<B, M, G, T, P>(rt, alloc, opening, &queue, start, broken, sample, progress)
}

/// What a part of a run's events loses, with what these do.
fn lost_by<const B: usize, const M: usize>(
    alloc: Global,
    opening: &Opening,
    part: Vec<Event>,
    loss: Loss,
) -> Result<Lost, AllocError>
    requires some_capacity { 1 ≤ B }
    requires capacity { B ≤ 64 }
    requires some_word { 1 ≤ M }
    requires size { M ≤ 65536 }
    requires fits { FitsIn M opening.now }
    ensures part { IfOk result (λ lost. lost.part.items ≡ part.items) }
    ensures loss { IfOk result (λ lost. lost.loss ≡ loss) }
    ensures steps { IfOk result (λ lost. AreSteps B M opening.now part.items lost.steps.items) }
{
    let steps = steps_of::<B, M>(alloc, opening, &part)?;
    Ok(Lost { part, loss, steps })
}

/// Makes the runs of a sample from an opening, as [`check_losses`] does, for a queue of a certificate: what the first that loses a record of it
/// loses, if any does. Where `broken` is given, only what is lost after a first violation that is described.
pub fn lost_of<
    const B: usize,
    const M: usize,
    G: Jump + Sync + Drop,
    T: Threads + Sync,
    P: Progress,
>(
    rt: &T,
    alloc: Global,
    opening: &Opening,
    certificate: &QueueCertificate,
    index: u32,
    broken: bool,
    sample: &Sample<'_, G>,
    progress: &mut P,
) -> Result<Option<Lost>, AllocError>
    requires some_capacity { 1 ≤ B }
    requires capacity { B ≤ 64 }
    requires some_word { 1 ≤ M }
    requires size { M ≤ 65536 }
    requires fits { FitsIn M opening.now }
    requires some_slot { HasSlot (any_queue certificate.now index) }
    ensures { IfOk result (IsLostOf (runs_of B M G.Rng.stream sample.now) opening.now certificate.now index broken) }
{
    laws_of_judged_runs();
    match losses_told::<B, M, G, T, P>(
        rt,
        alloc,
        opening,
        certificate,
        index,
        broken,
        sample,
        progress,
    )? {
        Told::Good(_) => Ok(None),
        Told::Flawed { part, flaw } => Ok(Some(lost_by::<B, M>(alloc, opening, part, flaw)?)),
    }
}

/// The violation after which a run of these drawn ones loses a record of a queue.
pub fn violation_shown<const B: usize, const M: usize, G: Jump + Sync + Drop>(
    alloc: Global,
    opening: &Opening,
    certificate: &QueueCertificate,
    index: u32,
    sample: &Sample<'_, G>,
    lost: &Lost,
    first: Violation,
) -> Result<Violation, AllocError>
    requires lost { IsRecordLost (runs_of B M G.Rng.stream sample.now) opening.now certificate.now index true lost.now.part.items lost.now.loss
        lost.now.steps.items }
    ensures { IfOk result (λ shown. first_ownership_violation (any_queue certificate.now index) (all_at (any_start certificate.now index))
        (map (λ (s : Step). s.entry) lost.now.steps.items) ≡ Some shown) }
{
    laws_of_judged_runs();
    let entries = entries_of(alloc, &lost.steps)?;
    let start = counts_at(any_start(certificate, index));
    match first_violation(&any_queue(certificate, index), start, &entries) {
        Some(shown) => Ok(shown),
        None => Ok(first),
    }
}
