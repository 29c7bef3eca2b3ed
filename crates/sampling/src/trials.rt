//! The command `try`: runs of a litmus test from schedules that a generator draws, and their outcomes.

ghost use Rattle.std.specs.Prelude.{◌≤◌, IfOk};
ghost use Rattle.engine_support.specs.Engines.{Ends};
ghost use Rattle.sampling.specs.Outcomes.{IsTried, IsTryAnswer};
ghost use Rattle.sampling.specs.declared.trials.outcomes.Unfinished.{Unfinished};
ghost use Rattle.engine_support.specs.inner.{FindsUpToReads};
ghost use Rattle.sampling.specs.inner.Tallies.{name_of_run, text_and_good};
ghost use Rattle.drawn_runs.specs.Samples.{runs_of};
ghost use Rattle.litmus.specs.declared.litmus_test.TheConstants.{MAX_LOCATIONS};

use crate::trials::drawn_run::DrawnRun;
pub use crate::trials::outcomes::Unfinished;
use crate::trials::outcomes::end_with_tally;
use crate::trials::parallel::tally_in_rounds;
use crate::trials::tally::Tally;
use drawn_runs::progress::Progress;
use drawn_runs::{Jump, Sample};
use engine_support::fault::Fault;
use engine_support::litmus_text::read_test;
use litmus::Test;
use std::alloc::{AllocError, Global};
use std::io::{Read, Write};
use std::thread::Threads;

mod drawing;
mod drawn_run;
mod outcomes;
mod parallel;
mod redrawn;
mod tally;
mod transitions;
mod walking;

/// The tally of a test's runs.
fn drawn<
    const B: usize,
    const M: usize,
    G: Jump + Send + Sync + Drop,
    T: Threads + Sync,
    P: Progress,
>(
    rt: &T,
    alloc: Global,
    test: &Test,
    sample: &Sample<'_, G>,
    progress: &mut P,
) -> Result<Tally<DrawnRun<G>>, AllocError>
    requires some_capacity { 1 ≤ B }
    requires capacity { B ≤ 64 }
    requires words { MAX_LOCATIONS ≤ M }
    requires size { M ≤ 65536 }
    ensures { IfOk result (λ tally. (left : Unfinished) → IsTried (runs_of B M G.Rng.stream sample.now) left test.now
        (text_and_good (name_of_run G.Rng.stream) left (test.now, tally))) }
{
    let tally = tally_in_rounds::<B, M, G, T, P>(rt, alloc, test, sample, progress)?;
    tally.outcomes.has_lines(test);
    Ok(tally)
}

/// The test of the input that the reader gives, and the tally of its runs.
fn made<
    const B: usize,
    const M: usize,
    R: Read,
    G: Jump + Send + Sync + Drop,
    T: Threads + Sync,
    P: Progress,
>(
    rt: &T,
    alloc: Global,
    file: &mut R,
    sample: &Sample<'_, G>,
    progress: &mut P,
) -> Result<(Test, Tally<DrawnRun<G>>), Fault>
    requires some_capacity { 1 ≤ B }
    requires capacity { B ≤ 64 }
    requires words { MAX_LOCATIONS ≤ M }
    requires size { M ≤ 65536 }
    ensures { (left : Unfinished) → FindsUpToReads (IsTryAnswer (runs_of B M G.Rng.stream sample.now) left (R.remaining file.old))
        (text_and_good (name_of_run G.Rng.stream) left) result }
{
    let test = read_test(alloc, file)?;
    let tally = drawn::<B, M, G, T, P>(rt, alloc, &test, sample, progress)?;
    Ok((test, tally))
}

/// Reads a litmus text to its end, and makes the runs of a sample of its test, with store buffers of `B` pairs and `M` words of
/// memory.
///
/// It writes a line for each outcome of the finished runs, ascending by the values: how many runs gave
/// it, the values of the condition's observed locations, and the schedule of the first of these runs; and then
/// how many runs did not finish, if asked with the schedule of the first of these. The lines are made one by one as they are written.
/// It answers whether the runs show what the test asks: with `exists` a run that holds, else no run that fails. The answer depends
/// neither on the jobs nor on the progress, which learns how far the runs are, and that they ended.
///
/// The input is refused as `run` refuses it, and then nothing was written.
pub fn try_engine<
    const B: usize,
    const M: usize,
    R: Read,
    G: Jump + Send + Sync + Drop,
    W: Write,
    T: Threads + Sync,
    P: Progress,
>(
    rt: &T,
    alloc: Global,
    file: &mut R,
    left: Unfinished,
    sample: &Sample<'_, G>,
    progress: &mut P,
    writer: &mut W,
) -> Result<bool, Fault>
    requires some_capacity { 1 ≤ B }
    requires capacity { B ≤ 64 }
    requires words { MAX_LOCATIONS ≤ M }
    requires size { M ≤ 65536 }
    ensures { Ends (IsTryAnswer (runs_of B M G.Rng.stream sample.now) left (R.remaining file.old)) result W.contents writer.old writer.new }
{
    end_with_tally(
        made::<B, M, R, G, T, P>(rt, alloc, file, sample, progress),
        left,
        writer,
    )
}
