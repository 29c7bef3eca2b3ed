//! An engine: a litmus text in, what is told of its callers out.

ghost use Rattle.std.specs.Prelude.{◌≤◌};
ghost use Rattle.litmus.specs.declared.litmus_test.TheConstants.{MAX_LOCATIONS};
ghost use Rattle.drawn_runs.specs.Samples.{runs_of};
ghost use Rattle.engine_support.specs.Engines.{Ends};
ghost use Rattle.engine_support.specs.Faults.{AnswersAs};
ghost use Rattle.engine_support.specs.inner.{FindsUpToReads, text_and_value};
ghost use Rattle.callers.specs.Answers.{IsCallersAnswer, IsCallersGiven};

use crate::queue::Queue;
use crate::run_output::check_callers;
use drawn_runs::progress::Progress;
use drawn_runs::{Jump, Sample};
use engine_support::fault::Fault;
use engine_support::litmus_text::read_test;
use engine_support::output::end_with;
use litmus::Test;
use std::alloc::Global;
use std::io::{Read, Write};
use std::thread::Threads;

/// What is to be written for a test.
fn answer<const B: usize, const M: usize, G: Jump + Sync + Drop, T: Threads + Sync, P: Progress>(
    rt: &T,
    alloc: Global,
    test: &Test,
    queue: Queue,
    sample: &Sample<'_, G>,
    progress: &mut P,
) -> Result<(String, bool), Fault>
    requires some_capacity { 1 ≤ B }
    requires capacity { B ≤ 64 }
    requires words { MAX_LOCATIONS ≤ M }
    requires size { M ≤ 65536 }
    ensures { AnswersAs (IsCallersGiven (runs_of B M G.Rng.stream sample.now) queue test.now) text_and_value result }
{
    Ok(check_callers::<B, M, G, T, P>(rt, alloc, test, queue, sample, progress)?)
}

/// What is to be written for the input that the reader gives.
fn made<
    const B: usize,
    const M: usize,
    R: Read,
    G: Jump + Sync + Drop,
    T: Threads + Sync,
    P: Progress,
>(
    rt: &T,
    alloc: Global,
    file: &mut R,
    queue: Queue,
    sample: &Sample<'_, G>,
    progress: &mut P,
) -> Result<(String, bool), Fault>
    requires some_capacity { 1 ≤ B }
    requires capacity { B ≤ 64 }
    requires words { MAX_LOCATIONS ≤ M }
    requires size { M ≤ 65536 }
    ensures { FindsUpToReads (IsCallersAnswer (runs_of B M G.Rng.stream sample.now) queue (R.remaining file.old)) text_and_value result }
{
    let test = read_test(alloc, file)?;
    answer::<B, M, G, T, P>(rt, alloc, &test, queue, sample, progress)
}

/// Reads a litmus text to its end, and writes what [`check_callers`] answers of its test. It answers whether every run keeps what
/// callers owe.
///
/// The input is refused as `run` refuses it, and then nothing was written.
pub fn callers_engine<
    const B: usize,
    const M: usize,
    R: Read,
    G: Jump + Sync + Drop,
    W: Write,
    T: Threads + Sync,
    P: Progress,
>(
    rt: &T,
    alloc: Global,
    file: &mut R,
    queue: Queue,
    sample: &Sample<'_, G>,
    progress: &mut P,
    writer: &mut W,
) -> Result<bool, Fault>
    requires some_capacity { 1 ≤ B }
    requires capacity { B ≤ 64 }
    requires words { MAX_LOCATIONS ≤ M }
    requires size { M ≤ 65536 }
    ensures { Ends (IsCallersAnswer (runs_of B M G.Rng.stream sample.now) queue (R.remaining file.old)) result W.contents writer.old writer.new }
{
    end_with(
        made::<B, M, R, G, T, P>(rt, alloc, file, queue, sample, progress),
        writer,
    )
}
