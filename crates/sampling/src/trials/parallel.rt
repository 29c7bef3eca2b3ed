//! The runs of a test, which are spread over rounds and jobs.

ghost use Rattle.std.specs.Prelude.{◌≡◌, ◌≤◌, List, Some, IfOk};
ghost use Rattle.engine_support.specs.Counting.{rows_in};
ghost use Rattle.drawn_runs.specs.Samples.{runs_of};
ghost use Rattle.sampling.specs.Trials.{Trial, AreDrawnTrials};
ghost use Rattle.sampling.specs.inner.Tallies.{IsTallyOf, name_of_run};
ghost use Rattle.litmus.specs.declared.litmus_test.TheConstants.{MAX_LOCATIONS};

use crate::trials::drawing::tally_of;
use crate::trials::drawn_run::DrawnRun;
use crate::trials::tally::Tally;
use drawn_runs::parallel::{Trials, in_rounds};
use drawn_runs::progress::Progress;
use drawn_runs::{Draw, Jump, Runs, Sample};
use litmus::Test;
use std::alloc::{AllocError, Global};
use std::thread::Threads;

/// The runs of a test, each by `size` events that a generator draws, over buffers of `B` stores and `M` words of memory.
#[derive(Drop)]
struct TestRuns<'a, const B: usize, const M: usize, G> {
    test: &'a Test,
    draw: Draw,
    generator: &'a G,
    size: u32,
    ghost can: { (1 ≤ B) × (B ≤ 64) × (MAX_LOCATIONS ≤ M) × (M ≤ 65536) },
}

/// A job's runs take a machine, its numbered states, a schedule and a tally, however many they are.
impl<'a, const B: usize, const M: usize, G: Jump + Send + Sync + Drop> Trials
    for TestRuns<'a, B, M, G> {
    ghost use Rattle.sampling.specs.inner.Merging.{IsTallyFrom};

    type Part = Tally<DrawnRun<G>>;

    ghost knows = { λ it first end tally.
        IsTallyFrom (name_of_run G.Rng.stream)
        (record { B = B; M = M; test = it.test.now; draw = it.draw; stream = G.Rng.stream it.generator.now; size = it.size }) first end tally };

    fn none(&self, alloc: Global) -> Result<Tally<DrawnRun<G>>, AllocError> {
        Ok(Tally::new(alloc))
    }

    fn make(&self, alloc: Global, first: u32, end: u32) -> Result<Tally<DrawnRun<G>>, AllocError> {
        let mut there = self.generator.ahead(u64::from(first), self.size)?;
        tally_of::<B, M, G>(
            alloc,
            self.test,
            self.draw,
            &mut there,
            end - first,
            self.size,
        )
    }

    fn join(
        &self,
        whole: &mut Tally<DrawnRun<G>>,
        later: Tally<DrawnRun<G>>,
    ) -> Result<(), AllocError> {
        whole.take_in(later)
    }

    fn is_over(&self, _whole: &Tally<DrawnRun<G>>) -> bool {
        false
    }

    fn outcomes(&self, whole: &Tally<DrawnRun<G>>) -> Option<usize>
        ensures { result ≡ Some (rows_in whole.now.outcomes) }
    {
        Some(whole.outcomes.len())
    }
}

/// The tally of a sample's runs, spread over rounds and over its jobs. It depends on neither. The progress learns how far the
/// runs are, which harts are stopped at their ends, and that they ended.
pub fn tally_in_rounds<
    const B: usize,
    const M: usize,
    G: Jump + Send + Sync + Drop,
    T: Threads + Sync,
    P: Progress,
>(
    rt: &T,
    alloc: Global,
    test: &Test,
    sample: &Sample<'_, G>,
    progress: &mut P,
) -> Result<Tally<DrawnRun<G>>, AllocError>
    requires some_capacity { 1 ≤ B }
    requires capacity { B ≤ 64 }
    requires words { MAX_LOCATIONS ≤ M }
    requires size { M ≤ 65536 }
    ensures { IfOk result (λ tally. (trials : List Trial)
        × AreDrawnTrials (runs_of B M G.Rng.stream sample.now) test.now trials × IsTallyOf (name_of_run G.Rng.stream) trials tally) }
{
    let Runs {
        skip,
        number,
        length,
        jobs,
    } = sample.runs;
    let start = sample.generator.ahead(skip, length)?;
    let trials = TestRuns::<B, M, G> {
        test,
        draw: sample.draw,
        generator: &start,
        size: length,
    };
    let tallied = in_rounds(rt, alloc, &trials, number, jobs, progress);
    if let Ok(tally) = &tallied {
        tally.stops.tell(progress);
    }
    progress.end();
    tallied
}
