//! A test's runs, each judged by what its callers owe first.

ghost use Rattle.std.specs.Prelude.{◌≡◌, ◌≤◌};
ghost use Rattle.litmus.specs.declared.litmus_test.TheConstants.{MAX_LOCATIONS};
ghost use Rattle.litmus.specs.LitmusTests.{IsTest};
ghost use Rattle.callers.specs.Runs.{HasNoCallerViolation, HasCallerViolation};
ghost use Rattle.callers.specs.Counts.{AreCountsOf, HasCalls};

use crate::counts::{Counts, both, unfinished_by};
use crate::judging::{Calls, NO_CALLS, judge};
use crate::queue::Located;
use crate::violations::CallerViolation;
use judged_runs::Judge;
use litmus::Test;
use std::alloc::{AllocError, Global};
use step_machine::laws::laws_of_runs;
use step_machine::{Event, Machine};

/// What runs of callers are judged on: a machine of the test's opening, and how many calls returned in the last run.
#[derive(Drop)]
pub struct CallersBench<const B: usize, const M: usize> {
    pub machine: Machine<B, M>,
    pub calls: Calls,
}

/// What judges the runs of a test whose harts call a queue's functions, over buffers of `B` stores and `M` words of memory.
#[derive(Drop)]
pub struct CallersJudge<'a, const B: usize, const M: usize> {
    pub test: &'a Test,
    pub located: Located,
    ghost can: { (1 ≤ B) × (B ≤ 64) × (MAX_LOCATIONS ≤ M) × (M ≤ 65536) },
}

impl<'a, const B: usize, const M: usize> Judge for CallersJudge<'a, B, M> {
    ghost use Rattle.std.specs.Prelude.{length, refl};

    type Bench = CallersBench<B, M>;

    type Flaw = CallerViolation;

    type Tally = Counts;

    ghost harts = { λ it. length it.test.now.opening.harts };

    ghost stands = { λ it bench. (bench.machine.history.opening ≡ it.test.now.opening) × IsTest it.test.now };

    ghost noted = { λ it events bench. HasCalls B M it.test.now.opening it.located events bench.machine.history bench.calls };

    ghost is_good = { λ it events. HasNoCallerViolation B M it.test.now.opening it.located events };

    ghost has = { λ it events violation. HasCallerViolation B M it.test.now.opening it.located events violation };

    ghost alike = { λ it violation other. violation ≡ other };

    ghost counts = { λ it all counts. AreCountsOf B M it.test.now.opening it.located all counts };

    fn bench(&self, alloc: Global) -> Result<CallersBench<B, M>, AllocError> {
        let opening = self.test.opening(alloc)?;
        let machine = Machine::open(alloc, opening)?;
        Ok(CallersBench {
            machine,
            calls: NO_CALLS,
        })
    }

    fn harts(&self, bench: &CallersBench<B, M>) -> u32 {
        bench.machine.harts()
    }

    fn judge(
        &self,
        bench: &mut CallersBench<B, M>,
        events: &[Event],
    ) -> Result<Option<CallerViolation>, AllocError> {
        laws_of_runs();
        let notes = judge(self.located, &mut bench.machine, events)?;
        bench.calls = notes.calls;
        Ok(notes.found)
    }

    fn is_alike(&self, violation: CallerViolation, other: CallerViolation) -> bool {
        violation == other
    }

    fn none(&self, _alloc: Global) -> Result<Counts, AllocError> {
        Ok(Counts {
            calls: NO_CALLS,
            unfinished: 0,
        })
    }

    fn add(&self, bench: &CallersBench<B, M>, counts: &mut Counts) {
        counts.calls = both(counts.calls, bench.calls);
        counts.unfinished += unfinished_by(self.test.verdict(bench.machine.machine_state()));
    }

    fn join(&self, counts: &mut Counts, later: Counts) {
        counts.calls = both(counts.calls, later.calls);
        counts.unfinished += later.unfinished;
    }

    ghost same = { λ it violation. refl };
}
