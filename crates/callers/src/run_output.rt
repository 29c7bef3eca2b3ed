//! The answer of many runs: that all keep what callers owe and what they count to, or a violation and a short schedule of a run
//! that has it.

ghost use Rattle.std.specs.Prelude.{◌≡◌, ◌≤◌, IfOk};
ghost use Rattle.std.specs.String.{string_bytes};
ghost use Rattle.litmus.specs.declared.litmus_test.TheConstants.{MAX_LOCATIONS};
ghost use Rattle.drawn_runs.specs.Samples.{runs_of};
ghost use Rattle.callers.specs.Queues.{IsLocated};
ghost use Rattle.callers.specs.Answers.{IsCallersOutput, IsOutputOfRuns};

use crate::answer_texts::{kept_text, owing_text};
use crate::counts::are_none;
use crate::locating::locate;
use crate::queue::{Located, Queue};
use crate::runs::CallersJudge;
use drawn_runs::parallel::in_rounds;
use drawn_runs::progress::Progress;
use drawn_runs::{Jump, Sample};
use judged_runs::{JudgedRuns, Told, told_of_runs};
use litmus::Test;
use std::alloc::{AllocError, Global};
use std::thread::Threads;
use step_machine::Machine;

/// The text for the runs of a queue that can be used, and whether all keep what callers owe and some call returned.
fn output_of_runs<
    const B: usize,
    const M: usize,
    G: Jump + Sync + Drop,
    T: Threads + Sync,
    P: Progress,
>(
    rt: &T,
    alloc: Global,
    test: &Test,
    located: Located,
    sample: &Sample<'_, G>,
    progress: &mut P,
) -> Result<(String, bool), AllocError>
    requires some_capacity { 1 ≤ B }
    requires capacity { B ≤ 64 }
    requires words { MAX_LOCATIONS ≤ M }
    requires size { M ≤ 65536 }
    requires usable { IsLocated M test.now.opening located.queue located }
    ensures { IfOk result (λ t. IsOutputOfRuns (runs_of B M G.Rng.stream sample.now) test.now.opening located (string_bytes t.0, t.1)) }
{
    let judge = CallersJudge::<B, M> { test, located };
    let runs = sample.runs;
    let start = sample.generator.ahead(runs.skip, runs.length)?;
    let drawn = JudgedRuns {
        judge: &judge,
        generator: &start,
        draw: sample.draw,
        size: runs.length,
    };
    let found = in_rounds(rt, alloc, &drawn, runs.number, runs.jobs, progress);
    progress.end();
    match told_of_runs(alloc, &drawn, runs.number, found?)? {
        Told::Good(counts) => {
            let text = kept_text(alloc, located.queue, runs.number, counts)?;
            Ok((text, !are_none(counts.calls)))
        }
        Told::Flawed { part, flaw } => Ok((owing_text(alloc, &part, flaw)?, false)),
    }
}

/// Makes the runs of a sample of a test, whose harts call the functions of `spsc_queue` for this queue, with store buffers of `B`
/// pairs and `M` words of memory. Gives the text of what is found, and whether every run keeps what callers owe and some call
/// returned.
///
/// If all do, that is their number, or that no call returned, and what they count to: the calls that returned 1 or 0, and
/// the runs that weren't finished. Otherwise it is a schedule and the line of a violation: one at the opening, with no events,
/// or the first violation of the first run that has one, from which events were left out until none could go. The text depends
/// neither on the jobs nor on the progress, which learns how far the runs are, and that they ended.
pub fn check_callers<
    const B: usize,
    const M: usize,
    G: Jump + Sync + Drop,
    T: Threads + Sync,
    P: Progress,
>(
    rt: &T,
    alloc: Global,
    test: &Test,
    queue: Queue,
    sample: &Sample<'_, G>,
    progress: &mut P,
) -> Result<(String, bool), AllocError>
    requires some_capacity { 1 ≤ B }
    requires capacity { B ≤ 64 }
    requires words { MAX_LOCATIONS ≤ M }
    requires size { M ≤ 65536 }
    ensures { IfOk result (λ t. IsCallersOutput (runs_of B M G.Rng.stream sample.now) test.now.opening queue (string_bytes t.0, t.1)) }
{
    let opening = test.opening(alloc)?;
    let machine: Machine<B, M> = Machine::open(alloc, opening)?;
    match locate(&machine, queue) {
        Ok(located) => {
            output_of_runs::<B, M, G, T, P>(rt, alloc, test, located, sample, progress)
        }
        Err(violation) => Ok((owing_text(alloc, &[], violation)?, false)),
    }
}
