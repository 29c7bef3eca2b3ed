//! The answer of many runs: that all keep a queue's protocol, or a short schedule of one that breaks it.

ghost use Rattle.std.specs.Prelude.{◌≡◌, ◌≤◌, IfOk, length};
ghost use Rattle.step_machine.specs.History.{FitsIn};
ghost use Rattle.drawn_runs.specs.Samples.{runs_of, schedule_in};
ghost use Rattle.judged_runs.specs.Telling.{IsTold};
ghost use Rattle.ownership_runs.specs.Protocols.{HasSlot};
ghost use Rattle.ownership_runs.specs.Runs.{HasKeptRun, HasBrokenRun, AreMovesOf, IsOfOneKind};
ghost use Rattle.ownership_runs.specs.Runs.{LosesNothing, HasLoss, IsLossOfOneKind, CountsNothing};

use crate::counts::Counts;
use crate::loss_runs::LossJudge;
use crate::losses::Loss;
use crate::runs::{Moved, OwnershipJudge};
use crate::violations::Violation;
use drawn_runs::parallel::in_rounds;
use drawn_runs::progress::Progress;
use drawn_runs::{Jump, Sample};
use judged_runs::{JudgedRuns, Told, told_of_runs};
use queue_layouts::AnyQueue;
use std::alloc::{AllocError, Global};
use std::thread::Threads;
use step_machine::Opening;

/// Makes the runs of a sample from an opening, with store buffers of `B` pairs and `M` words of memory, and judges each by the
/// protocol of this queue, whose parties have come as far as `start` there.
///
/// If all keep it, that is by how much the parties moved on in all of them. Otherwise it is a part of the events of the first run
/// that doesn't, from which events were left out until none could go without its first violation being another hart's or none, and the
/// violation of the part's run. The answer depends neither on the jobs nor on the progress, which learns how far the runs are, and that
/// they ended.
pub fn check_runs<
    const B: usize,
    const M: usize,
    G: Jump + Sync + Drop,
    T: Threads + Sync,
    P: Progress,
>(
    rt: &T,
    alloc: Global,
    opening: &Opening,
    queue: &AnyQueue,
    start: Counts,
    sample: &Sample<'_, G>,
    progress: &mut P,
) -> Result<Told<Moved, Violation>, AllocError>
    requires some_capacity { 1 ≤ B }
    requires capacity { B ≤ 64 }
    requires some_word { 1 ≤ M }
    requires size { M ≤ 65536 }
    requires fits { FitsIn M opening.now }
    requires some_slot { HasSlot queue.now }
    ensures { IfOk result (λ told. IsTold (HasKeptRun B M opening.now queue.now start) (HasBrokenRun B M opening.now queue.now start) IsOfOneKind
        (AreMovesOf B M opening.now queue.now start)
        (schedule_in (runs_of B M G.Rng.stream sample.now) (length opening.now.harts)) sample.now.runs.number told) }
{
    let judge = OwnershipJudge::<B, M> {
        opening,
        queue,
        start,
    };
    let runs = sample.runs;
    let from = sample.generator.ahead(runs.skip, runs.length)?;
    let drawn = JudgedRuns {
        judge: &judge,
        generator: &from,
        draw: sample.draw,
        size: runs.length,
    };
    let found = in_rounds(rt, alloc, &drawn, runs.number, runs.jobs, progress);
    progress.end();
    told_of_runs(alloc, &drawn, runs.number, found?)
}

/// Makes the runs of a sample from an opening, as [`check_runs`] does, and judges each by what is lost of this queue's records.
///
/// Where `broken` is given, only what a run loses after its first violation, if that is described. If nothing is lost, it says so. Otherwise it
/// is a part of the events of the first run with a loss, from which events were left out until none could go without the first loss being
/// another hart's or none, and the first loss of the part's run. The answer depends neither
/// on the jobs nor on the progress.
pub fn check_losses<
    const B: usize,
    const M: usize,
    G: Jump + Sync + Drop,
    T: Threads + Sync,
    P: Progress,
>(
    rt: &T,
    alloc: Global,
    opening: &Opening,
    queue: &AnyQueue,
    start: Counts,
    broken: bool,
    sample: &Sample<'_, G>,
    progress: &mut P,
) -> Result<Told<(), Loss>, AllocError>
    requires some_capacity { 1 ≤ B }
    requires capacity { B ≤ 64 }
    requires some_word { 1 ≤ M }
    requires size { M ≤ 65536 }
    requires fits { FitsIn M opening.now }
    requires some_slot { HasSlot queue.now }
    ensures { IfOk result (λ told. IsTold (LosesNothing B M opening.now queue.now start broken) (HasLoss B M opening.now queue.now start broken) IsLossOfOneKind
        (λ all nothing. CountsNothing)
        (schedule_in (runs_of B M G.Rng.stream sample.now) (length opening.now.harts)) sample.now.runs.number told) }
{
    let judge = LossJudge::<B, M> {
        opening,
        queue,
        start,
        broken,
    };
    let (draw, runs) = (sample.draw, sample.runs);
    let after = sample.generator.ahead(runs.skip, runs.length)?;
    let drawn = JudgedRuns {
        judge: &judge,
        generator: &after,
        draw,
        size: runs.length,
    };
    let found = in_rounds(rt, alloc, &drawn, runs.number, runs.jobs, progress);
    progress.end();
    told_of_runs(alloc, &drawn, runs.number, found?)
}
